// The queue of freed slots: pairs of a chunk and the variable whose slot was freed there, in a table with two ends.
#![tactic(auto)]

ghost use Rattle.std.specs.Prelude.{◌≡◌};
ghost use Rattle.perm_free_list.specs.PermFreeList.{entry_at, entry_put, free_slot, entries, looked};

use sizes::FREED_SLOTS;
use variable_records::{PermVarAllocation, Records, VarAlloc};

// Cells of an entry.
pub const ENTRY_CELLS: usize = 2;

// An array whose ends are counters, since a C host lends both.
pub type PermFreeList = [u32; FREED_SLOTS * ENTRY_CELLS];

// A chunk, and the variable whose slot was freed in it.
#[derive(Clone, Copy)]
pub struct FreedSlot {
    pub chunk: u32,
    pub variable: u32,
}

// The entry `i` places behind the front, where the front is at `first`.
pub fn entry_at(list: &PermFreeList, first: u32, i: u32) -> FreedSlot
    ensures { result ≡ entry_at list.now first i }
{
    let entries = FREED_SLOTS as u32;
    let at = ((first % entries + i % entries) % entries) as usize * ENTRY_CELLS;
    FreedSlot {
        chunk: list[at],
        variable: list[at + 1],
    }
}

// Puts an entry `i` places behind the front.
pub fn put_entry(list: &mut PermFreeList, first: u32, i: u32, entry: FreedSlot)
    ensures { list.new ≡ entry_put list.old first i entry }
{
    let entries = FREED_SLOTS as u32;
    let at = ((first % entries + i % entries) % entries) as usize * ENTRY_CELLS;
    list[at] = entry.chunk;
    list[at + 1] = entry.variable;
}

// The slot that a variable holds and does not need: that of a permanent variable that is Pending.
pub fn free_slot(records: &Records, v: u32) -> Option<u32>
    ensures { result ≡ free_slot records.now v }
{
    match variable_records::load(records, v).allocation {
        VarAlloc::Temp { .. } => None,
        VarAlloc::Perm(slot, allocation) => match allocation {
            PermVarAllocation::Pending => (0 < slot).then_some(slot),
            PermVarAllocation::Done { .. } => None,
        },
    }
}

// A slot that is taken, and its old owner.
#[derive(Clone, Copy)]
pub struct Taken {
    pub slot: u32,
    pub owner: u32,
}

// What a look at the queue finds: how many entries go, and the slot that is taken, where one is.
#[derive(Clone, Copy)]
pub struct Looked {
    pub dropped: u32,
    pub taken: Option<Taken>,
}

// Looks from the front for a slot that a later chunk may take.
pub fn look(list: &PermFreeList, first: u32, count: u32, records: &Records, chunk: u32) -> Looked
    ensures { result ≡ looked records.now chunk 0 (entries list.now first 0 count) }
{
    for i in 0..count {
        let entry = entry_at(list, first, i);
        if chunk <= entry.chunk {
            return Looked {
                dropped: i,
                taken: None,
            };
        }
        let owner = entry.variable;
        if let Some(slot) = free_slot(records, owner) {
            return Looked {
                dropped: i + 1,
                taken: Some(Taken { slot, owner }),
            };
        }
    }
    Looked {
        dropped: count,
        taken: None,
    }
}

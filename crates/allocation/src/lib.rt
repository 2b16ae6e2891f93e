// A place for a term: a freed register or the least that the set leaves, for a term that is no variable; a freed slot or a
// new one, for a permanent variable.
#![tactic(auto)]

ghost use Rattle.std.specs.Prelude.{◌≡◌};
ghost use Rattle.allocation.specs.Allocation.{
  popped,
  non_var,
  with_popped,
  with_searched,
  without_front,
  slot_given,
  slot_taken,
  placement,
  new_slot,
  perm_placed,
};

use allocator_state::Counters;
use perm_free_list::PermFreeList;
use refusals::Refusal;
use sizes::{FREED_REGISTERS, FREED_SLOTS, LAST_REGISTER};
use variable_records::{PermVarAllocation, Records, VarAlloc, VarSafetyStatus};

// An array whose count is a counter, since a C host lends both.
pub type TempFreeList = [u32; FREED_REGISTERS];

// A freed register that is not in use, and how many freed registers are left.
#[derive(Clone, Copy)]
pub struct Popped {
    pub left: u32,
    pub chosen: Option<u32>,
}

// Takes freed registers, the last first, until one is not in use.
pub fn pop_freed(counters: Counters, list: &TempFreeList) -> Popped
    ensures { result ≡ popped counters list.now counters.freed_registers }
{
    for left in (0..counters.freed_registers).rev() {
        let r = list[(left % FREED_REGISTERS as u32) as usize];
        if !choice::is_in_use(counters, r) {
            return Popped {
                left,
                chosen: Some(r),
            };
        }
    }
    Popped {
        left: 0,
        chosen: None,
    }
}

// The counters afterwards with the register, or none.
#[derive(Clone, Copy)]
pub struct NonVar {
    pub counters: Counters,
    pub chosen: Option<u32>,
}

// A freed register is taken out of the list and put in use.
fn with_popped(counters: Counters, left: u32, r: u32) -> NonVar
    ensures { result ≡ with_popped counters left r }
{
    let taken = Counters {
        freed_registers: left,
        in_use: bit_set::insert(counters.in_use, r),
        ..counters
    };
    NonVar {
        counters: taken,
        chosen: Some(r),
    }
}

// A register that was searched for is put in use, and the next search starts behind it.
fn with_searched(counters: Counters, r: u32) -> NonVar
    ensures { result ≡ with_searched counters r }
{
    let taken = Counters {
        freed_registers: 0,
        temp_lb: allocator_state::counter_after(r),
        in_use: bit_set::insert(counters.in_use, r),
        ..counters
    };
    NonVar {
        counters: taken,
        chosen: Some(r),
    }
}

// A register for a term that is no variable.
pub fn alloc_reg_to_non_var(counters: Counters, list: &TempFreeList) -> NonVar
    ensures { result ≡ non_var counters list.now }
{
    let popped = pop_freed(counters, list);
    if let Some(r) = popped.chosen {
        return with_popped(counters, popped.left, r);
    }
    match choice::least_outside(counters) {
        Some(r) => with_searched(counters, r),
        None => NonVar {
            counters,
            chosen: None,
        },
    }
}

// The queue of freed slots without so many entries at its front.
fn without_front(counters: Counters, dropped: u32) -> Counters
    ensures { result ≡ without_front counters dropped }
{
    let entries = FREED_SLOTS as u32;
    Counters {
        first_freed_slot: (counters.first_freed_slot % entries + dropped % entries) % entries,
        freed_slots: counters.freed_slots.saturating_sub(dropped),
        ..counters
    }
}

// Gives a slot to a permanent variable, whose safety starts anew.
pub fn give_slot(records: &mut Records, v: u32, slot: u32)
    ensures { records.new ≡ slot_given records.old v slot }
{
    let variable = variable_records::load(records, v);
    let done = VarAlloc::Perm(
        slot,
        PermVarAllocation::Done {
            shallow_safety: VarSafetyStatus::Needed,
            deep_safety: VarSafetyStatus::Needed,
        },
    );
    variable_records::store(records, v, variable.allocated(done));
}

// Takes the slot away from its old owner.
fn take_slot(records: &mut Records, owner: u32)
    ensures { records.new ≡ slot_taken records.old owner }
{
    let variable = variable_records::load(records, owner);
    variable_records::store(records, owner, variable.set_register(0));
}

// The counters afterwards with the place, or a refusal. A struct and no Result, since a refused step tells its counters, too.
#[derive(Clone, Copy)]
pub struct Placed {
    pub counters: Counters,
    pub place: u32,
    pub refusal: Option<Refusal>,
}

// A new slot.
fn new_slot(counters: Counters, records: &mut Records, v: u32) -> Placed
    ensures { placement records.new result ≡ new_slot counters records.old v }
{
    let slot = counters.perm_lb;
    if LAST_REGISTER < slot {
        return Placed {
            counters,
            place: 0,
            refusal: Some(Refusal::Slot),
        };
    }
    give_slot(records, v, slot);
    let taken = Counters {
        perm_lb: allocator_state::counter_after(slot),
        ..counters
    };
    Placed {
        counters: taken,
        place: slot,
        refusal: None,
    }
}

// A slot for a permanent variable: a freed one that an earlier chunk left, or a new one.
pub fn alloc_perm_var(
    counters: Counters,
    records: &mut Records,
    list: &PermFreeList,
    v: u32,
    chunk: u32,
) -> Placed
    ensures { placement records.new result ≡ perm_placed counters records.old list.now v chunk }
{
    let found = perm_free_list::look(
        list,
        counters.first_freed_slot,
        counters.freed_slots,
        records,
        chunk,
    );
    let left = without_front(counters, found.dropped);
    match found.taken {
        Some(taken) => {
            take_slot(records, taken.owner);
            give_slot(records, v, taken.slot);
            Placed {
                counters: left,
                place: taken.slot,
                refusal: None,
            }
        }
        None => new_slot(left, records, v),
    }
}

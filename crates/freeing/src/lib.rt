// A variable that is no longer needed: a permanent one gives its slot to the queue. A mark counts its variable until the
// last occurrence, and frees it after that.
#![tactic(auto)]

ghost use Rattle.std.specs.Prelude.{◌≡◌};
ghost use Rattle.freeing.specs.Freeing.{release, pushed_free, release_of, freed, counted_or_freed};

use allocator_state::Counters;
use perm_free_list::{FreedSlot, PermFreeList};
use refusals::Refusal;
use sizes::FREED_SLOTS;
use variable_records::{PermVarAllocation, Records, VarAlloc, VariableRecord};

// The counters afterwards, and a refusal, if there is one. A struct and no Result, since a refused step tells its counters, too.
#[derive(Clone, Copy)]
pub struct Released {
    pub counters: Counters,
    pub refusal: Option<Refusal>,
}

// Puts a variable into the queue of freed slots.
fn add_perm_to_free_list(
    counters: Counters,
    list: &mut PermFreeList,
    chunk: u32,
    v: u32,
) -> Released
    ensures { release list.new result ≡ pushed_free counters list.old chunk v }
{
    let count = counters.freed_slots;
    if FREED_SLOTS as u32 <= count {
        return Released {
            counters,
            refusal: Some(Refusal::Full),
        };
    }
    perm_free_list::put_entry(
        list,
        counters.first_freed_slot,
        count,
        FreedSlot { chunk, variable: v },
    );
    Released {
        counters: Counters {
            freed_slots: count + 1,
            ..counters
        },
        refusal: None,
    }
}

// Frees a permanent variable: it becomes Pending and joins the queue. A temporary is left alone.
pub fn free_var(
    counters: Counters,
    records: &mut Records,
    list: &mut PermFreeList,
    chunk: u32,
    v: u32,
) -> Released
    ensures { release_of records.new list.new result ≡ freed counters records.old list.old chunk v }
{
    let variable = variable_records::load(records, v);
    match variable.allocation {
        VarAlloc::Temp { .. } => Released {
            counters,
            refusal: None,
        },
        VarAlloc::Perm(slot, _) => {
            let pending = VarAlloc::Perm(slot, PermVarAllocation::Pending);
            variable_records::store(records, v, variable.allocated(pending));
            add_perm_to_free_list(counters, list, chunk, v)
        }
    }
}

// Counts an occurrence, or frees the variable where all its occurrences have been counted.
pub fn count_or_free(
    counters: Counters,
    records: &mut Records,
    list: &mut PermFreeList,
    chunk: u32,
    v: u32,
) -> Released
    ensures { release_of records.new list.new result ≡ counted_or_freed counters records.old list.old chunk v }
{
    let variable = variable_records::load(records, v);
    if variable.running_count < variable.num_occurrences {
        let counted = VariableRecord {
            running_count: variable.running_count + 1,
            ..variable
        };
        variable_records::store(records, v, counted);
        return Released {
            counters,
            refusal: None,
        };
    }
    free_var(counters, records, list, chunk, v)
}

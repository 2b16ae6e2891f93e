// The allocator's numbers that are no table.
#![tactic(auto)]

ghost use Rattle.std.specs.Prelude.{◌≡◌};
ghost use Rattle.bit_set.specs.BitSet.{inserted};
ghost use Rattle.registers.specs.Registers.{number_of_place};
ghost use Rattle.allocator_state.specs.State.{fresh_counters, counter_after};

use bit_set::BitSet;
use registers::RegType;
use sizes::LAST_COUNTER;

// The numbers that are no table. The Rust's fields keep their names; the counts say how much of a table counts. What is yes or
// no is 1 or 0, since a C host lends them.
#[repr(C)]
#[derive(Clone, Copy)]
pub struct Counters {
    pub arg_c: u32,
    pub temp_lb: u32,
    pub perm_lb: u32,
    pub arity: u32,
    pub in_tail_position: u32,
    pub records: u32,
    pub events_seen: u32,
    pub freed_registers: u32,
    pub first_freed_slot: u32,
    pub freed_slots: u32,
    pub open_branches: u32,
    pub in_use: BitSet,
}

// The counters of a fresh clause.
pub fn fresh_counters() -> Counters
    ensures { result ≡ fresh_counters }
{
    Counters {
        arg_c: 1,
        temp_lb: 1,
        perm_lb: 1,
        arity: 0,
        in_tail_position: 0,
        records: 0,
        events_seen: 0,
        freed_registers: 0,
        first_freed_slot: 0,
        freed_slots: 0,
        open_branches: 0,
        in_use: bit_set::empty(),
    }
}

// A counter's next number. It stays at its last, so that no sum can wrap; events have to refuse what would
// pass it.
pub fn counter_after(n: u32) -> u32
    ensures { result ≡ counter_after n }
{
    if n < LAST_COUNTER {
        n + 1
    } else {
        LAST_COUNTER
    }
}

// The registers in use with a place's number among them, a slot's too.
pub fn used_by(in_use: BitSet, place: RegType) -> BitSet
    ensures { result ≡ inserted in_use (number_of_place place) }
{
    bit_set::insert(in_use, place.number())
}

// The state of a clause as one struct, and each line of an event sheet carried out over its tables.
#![tactic(auto)]

ghost use Rattle.std.specs.Prelude.{◌≡◌};
ghost use Rattle.debray_allocator.specs.State.{state_of, fresh_state};
ghost use Rattle.debray_allocator.specs.DebrayAllocator.{
  plainly,
  by_release,
  by_refusal,
  by_mark,
  answer_of,
  carried_out,
  seen_after,
  acted,
};

use allocation::TempFreeList;
use allocator_state::Counters;
use branch_stack::BranchStack;
use code_deque::CodeDeque;
use events::Event;
use freeing::Released;
use marks::Marked;
use perm_free_list::PermFreeList;
use refusals::Refusal;
use registers::RegType;
use reserved_var::Mark;
use restricting_sets::VariableSets;
use shallow_temp_mappings::Mappings;
use sizes::{FREED_REGISTERS, FREED_SLOTS, LAST_REGISTER, OPEN_BRANCHES, VARIABLES};
use variable_records::Records;

// The whole state of a clause: numbers, and tables of numbers.
#[repr(C)]
#[derive(Clone, Copy)]
pub struct State {
    pub counters: Counters,
    pub records: Records,
    pub sets: VariableSets,
    pub mappings: Mappings,
    pub freed_registers: TempFreeList,
    pub freed_slots: PermFreeList,
    pub branches: BranchStack,
}

// The outcome of a line, beside the tables. A line of the answer tells the place, if the event has one. A struct and no Result,
// since a refused line tells its counters and its instructions, too.
#[derive(Clone, Copy)]
pub struct Acted {
    pub counters: Counters,
    pub code: CodeDeque,
    pub at: Option<RegType>,
    pub refusal: Option<Refusal>,
}

// The outcome of a line: the state afterwards, the instructions and the place, and the refusal, if there is one.
// A struct and no Result: refused, it has the old state, which `step` hands back by value.
#[derive(Clone, Copy)]
pub struct Answer {
    pub state: State,
    pub code: CodeDeque,
    pub at: Option<RegType>,
    pub refusal: Option<Refusal>,
}

// A fresh clause.
pub fn fresh() -> State
    ensures { result ≡ fresh_state }
{
    State {
        counters: allocator_state::fresh_counters(),
        records: [0; variable_records::TABLE_CELLS],
        sets: VariableSets {
            use_sets: [0; temp_var_data::ENTRIES],
            use_counts: [0; VARIABLES],
            no_use: [0; VARIABLES],
            conflict: [0; VARIABLES],
        },
        mappings: [VARIABLES as u32; LAST_REGISTER as usize + 1],
        freed_registers: [0; FREED_REGISTERS],
        freed_slots: [0; FREED_SLOTS * perm_free_list::ENTRY_CELLS],
        branches: BranchStack {
            rows: [0; OPEN_BRANCHES * branch_stack::NUMBERS_PER_BRANCH],
            sets: [0; OPEN_BRANCHES * branch_stack::SETS_PER_BRANCH],
        },
    }
}

// An event that changes the state and tells nothing.
fn plain(counters: Counters) -> Acted
    ensures { result ≡ plainly counters }
{
    refused(counters, None)
}

// The same, or a refusal.
fn refused(counters: Counters, refusal: Option<Refusal>) -> Acted
    ensures { result ≡ by_refusal counters refusal }
{
    Acted {
        counters,
        code: CodeDeque::Empty,
        at: None,
        refusal,
    }
}

// The same, with counters.
fn released(released: Released) -> Acted
    ensures { result ≡ by_release released }
{
    let counters = released.counters;
    refused(counters, released.refusal)
}

// A mark tells its instructions and a place.
fn marked(marked: Marked) -> Acted
    ensures { result ≡ by_mark marked }
{
    let reached = marked.reached;
    let counters = reached.counters;
    let code = reached.code;
    let place = marked.place;
    Acted {
        counters,
        code,
        at: Some(place),
        refusal: reached.refusal,
    }
}

// Carries out a line that nothing refused before. How far the tables came is seen also where it is refused now.
fn carry_out(
    counters: Counters,
    records: &mut Records,
    sets: &mut VariableSets,
    mappings: &mut Mappings,
    freed_registers: &mut TempFreeList,
    freed_slots: &mut PermFreeList,
    branches: &mut BranchStack,
    event: Event,
    list: &[u32],
) -> Acted
    ensures { answer_of records.new sets.new mappings.new freed_registers.new freed_slots.new branches.new result ≡ carried_out (state_of counters records.old sets.old mappings.old freed_registers.old freed_slots.old branches.old) event list.now }
{
    match event {
        Event::Temp(context, occurrences) => released(clause_records::add_temp(
            counters,
            records,
            sets,
            context,
            occurrences,
            list,
        )),
        Event::Perm(occurrences) => {
            released(clause_records::add_perm(counters, records, sets, occurrences))
        }
        Event::Sets => {
            clause_records::populate(counters, records, sets);
            plain(counters)
        }
        Event::Head => plain(resets::reset_at_head(counters, records, mappings, list)),
        Event::Args(arity) => plain(resets::reset_arg(counters, arity)),
        Event::Var(target, level, context, variable) => marked(mark_var::mark_var(
            counters,
            records,
            mappings,
            sets,
            freed_slots,
            branches,
            Mark {
                target,
                level,
                context,
                variable,
            },
        )),
        Event::Anon(target, level, context) => marked(other_marks::mark_anon_var(
            counters,
            records,
            mappings,
            sets,
            freed_registers,
            target,
            level,
            context,
        )),
        Event::NonVar(level, context, cell) => marked(other_marks::mark_non_var(
            counters,
            records,
            mappings,
            sets,
            freed_registers,
            level,
            context,
            cell,
        )),
        Event::Cut(v, chunk) => marked(other_marks::mark_cut_var(
            counters,
            records,
            freed_slots,
            freed_registers,
            v,
            chunk,
        )),
        Event::Incr(v) => refused(counters, resets::increment_running_count(records, v)),
        Event::Free(chunk, v) => released(freeing::free_var(
            counters,
            records,
            freed_slots,
            chunk,
            v,
        )),
        Event::Safe(v) => {
            let refusal = resets::mark_safe_var_unconditionally(
                records,
                branches,
                counters.open_branches,
                v,
            );
            refused(counters, refusal)
        }
        Event::Give(r) => released(resets::add_reg_to_free_list(counters, freed_registers, r)),
        Event::Tail(tail) => plain(resets::set_tail_position(counters, tail)),
        Event::Next => plain(resets::advance_arg(counters)),
        Event::Open(start, span, arms) => {
            released(branch_events::open(counters, branches, start, span, arms))
        }
        Event::Arm(start, span) => released(branch_events::arm(counters, branches, start, span)),
        Event::Take => released(branch_events::take(counters, records, branches)),
        Event::Close(depth) => released(branch_events::close(
            counters, records, branches, depth, list,
        )),
        Event::Reset => plain(resets::reset(counters, mappings)),
        Event::Contents => plain(resets::reset_contents(counters, mappings)),
        Event::ClearFree => plain(resets::reset_free_list(counters)),
    }
}

// After an event no record can follow.
fn see(counters: &mut Counters, event: Event)
    ensures { counters.new ≡ seen_after counters.old event }
{
    if !events::is_record(event) {
        counters.events_seen = 1;
    }
}

// A line, over tables that are lent. The counters are not lent, since not each of their bytes holds a number.
pub fn act(
    counters: Counters,
    records: &mut Records,
    sets: &mut VariableSets,
    mappings: &mut Mappings,
    freed_registers: &mut TempFreeList,
    freed_slots: &mut PermFreeList,
    branches: &mut BranchStack,
    event: Event,
    list: &[u32],
) -> Acted
    ensures { answer_of records.new sets.new mappings.new freed_registers.new freed_slots.new branches.new result ≡ acted (state_of counters records.old sets.old mappings.old freed_registers.old freed_slots.old branches.old) event list.now }
{
    let refusal = events::refusal_before(counters, event, list);
    if refusal.is_some() {
        return refused(counters, refusal);
    }
    let mut carried = carry_out(
        counters,
        records,
        sets,
        mappings,
        freed_registers,
        freed_slots,
        branches,
        event,
        list,
    );
    see(&mut carried.counters, event);
    carried
}

// A line of an event sheet as a step of the whole state, by value.
#![tactic(auto)]

ghost use Rattle.std.specs.Prelude.{◌≡◌};
ghost use Rattle.debray_allocator.specs.DebrayAllocator.{stepped};

use code_deque::CodeDeque;
use debray_allocator::{Answer, State};
use events::Event;

// A line as a step of the state: a refused one leaves the state as it was.
pub fn step(state: State, event: Event, list: &[u32]) -> Answer
    ensures { result ≡ stepped state event list.now }
{
    let mut after = state;
    let acted = debray_allocator::act(
        after.counters,
        &mut after.records,
        &mut after.sets,
        &mut after.mappings,
        &mut after.freed_registers,
        &mut after.freed_slots,
        &mut after.branches,
        event,
        list,
    );
    if acted.refusal.is_some() {
        return Answer {
            state,
            code: CodeDeque::Empty,
            at: None,
            refusal: acted.refusal,
        };
    }
    after.counters = acted.counters;
    let code = acted.code;
    let at = acted.at;
    Answer {
        state: after,
        code,
        at,
        refusal: acted.refusal,
    }
}

// A register for a new temporary: an argument's register is emptied first, all others are chosen apart.
//
// Each function is lent the tables that it looks at and no others, so that its signature says what it leaves alone.
#![tactic(auto)]

ghost use Rattle.std.specs.Prelude.{◌≡◌};
ghost use Rattle.evacuation.specs.Evacuation.{evacuation};
ghost use Rattle.marks.specs.Marks.{
  chosen_or_refused,
  alloc_apart,
  register_placement,
  alloc_shallow,
  register_placed,
};

use allocator_state::Counters;
use code_deque::CodeDeque;
use evacuation::Reached;
use forms::{GenContext, Level};
use refusals::Refusal;
use registers::RegType;
use restricting_sets::VariableSets;
use shallow_temp_mappings::Mappings;
use variable_records::Records;

// How far an event has come, with the register that it chose.
#[derive(Clone, Copy)]
pub struct RegPlaced {
    pub reached: Reached,
    pub place: u32,
}

// How far a mark has come, with the place of what it marked.
#[derive(Clone, Copy)]
pub struct Marked {
    pub reached: Reached,
    pub place: RegType,
}

// The register that was chosen, or the refusal that there is none.
fn chosen_or_refused(reached: Reached, chosen: Option<u32>) -> RegPlaced
    ensures { result ≡ chosen_or_refused reached chosen }
{
    match chosen {
        Some(r) => RegPlaced { reached, place: r },
        None => RegPlaced {
            reached: Reached {
                refusal: Some(Refusal::Register),
                ..reached
            },
            place: 0,
        },
    }
}

// A register for a variable that is no argument's: its conflict set is heeded.
fn alloc_apart(counters: Counters, sets: &VariableSets, v: u32, code: CodeDeque) -> RegPlaced
    ensures { result ≡ alloc_apart counters sets.now v code }
{
    let chosen = evacuation::alloc_with_ca(counters, sets, v);
    chosen_or_refused(evacuation::going(counters, code), chosen)
}

// A register for an argument's variable in the head or in a chunk's last goal: the argument's register is emptied first.
fn alloc_shallow(
    counters: Counters,
    records: &mut Records,
    mappings: &mut Mappings,
    sets: &VariableSets,
    v: u32,
    chunk: u32,
    code: CodeDeque,
) -> RegPlaced
    ensures { register_placement records.new mappings.new result ≡ alloc_shallow counters records.old mappings.old sets.now v chunk code }
{
    let reached = evacuation::evacuate_arg(counters, records, mappings, sets, chunk, code);
    if reached.refusal.is_some() {
        return RegPlaced { reached, place: 0 };
    }
    let emptied = reached.counters;
    let chosen = evacuation::alloc_with_cr(emptied, sets, v);
    chosen_or_refused(reached, chosen)
}

// A register for a new temporary.
pub fn alloc_reg_to_var(
    counters: Counters,
    records: &mut Records,
    mappings: &mut Mappings,
    sets: &VariableSets,
    v: u32,
    level: Level,
    context: GenContext,
    code: CodeDeque,
) -> RegPlaced
    ensures { register_placement records.new mappings.new result ≡ register_placed counters records.old mappings.old sets.now v level context code }
{
    match level {
        Level::Root | Level::Deep => alloc_apart(counters, sets, v, code),
        Level::Shallow => match context {
            GenContext::Mid(_) => { alloc_apart(counters, sets, v, code) }
            GenContext::Head => alloc_shallow(counters, records, mappings, sets, v, 0, code),
            GenContext::Last(chunk) => alloc_shallow(
                counters, records, mappings, sets, v, chunk, code,
            ),
        },
    }
}

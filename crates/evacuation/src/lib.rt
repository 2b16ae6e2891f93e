// The choice of a register for a variable by its sets, and an argument's register emptied of another variable's value.
#![tactic(auto)]

ghost use Rattle.std.specs.Prelude.{◌≡◌};
ghost use Rattle.evacuation.specs.Evacuation.{
  alloc_with_cr,
  alloc_with_ca,
  hint,
  evacuation,
  moved_to,
  evacuated,
  going_on,
};

use allocator_state::Counters;
use code_deque::CodeDeque;
use refusals::Refusal;
use registers::RegType;
use restricting_sets::VariableSets;
use shallow_temp_mappings::Mappings;
use variable_records::Records;

// The register for a variable that may take one of its conflict set.
pub fn alloc_with_cr(counters: Counters, sets: &VariableSets, v: u32) -> Option<u32>
    ensures { result ≡ alloc_with_cr counters sets.now v }
{
    let use_set = temp_var_data::uses_of(&sets.use_sets, &sets.use_counts, v);
    choice::choose(counters, use_set, register_sets::load(&sets.no_use, v))
}

// The register for a variable that avoids its conflict set too.
pub fn alloc_with_ca(counters: Counters, sets: &VariableSets, v: u32) -> Option<u32>
    ensures { result ≡ alloc_with_ca counters sets.now v }
{
    let use_set = temp_var_data::uses_of(&sets.use_sets, &sets.use_counts, v);
    let avoided = bit_set::union_with(
        register_sets::load(&sets.no_use, v),
        register_sets::load(&sets.conflict, v),
    );
    choice::choose(counters, use_set, avoided)
}

// What is to become of the variable in the argument's register.
// Three outcomes, each by its name: as a `Result` of an `Option` of a move, staying would be `Ok(None)`.
#[derive(Clone, Copy)]
pub enum Hint {
    Stays,
    Moves(u32, u32),
    NoRegister,
}

// Whether the variable in the argument's register has to leave it for the goal at the chunk's end, and where it goes.
pub fn alloc_in_last_goal_hint(
    counters: Counters,
    records: &Records,
    mappings: &Mappings,
    sets: &VariableSets,
    chunk: u32,
) -> Hint
    ensures { result ≡ hint counters records.now mappings.now sets.now chunk }
{
    let k = counters.arg_c;
    let Some(v) = shallow_temp_mappings::variable_at(mappings, k) else {
        return Hint::Stays;
    };
    if !variable_records::is_temporary(records, v) {
        return Hint::Stays;
    }
    let here = temp_var_data::last_use(chunk, k);
    if temp_var_data::contains_use(&sets.use_sets, &sets.use_counts, v, here) {
        return Hint::Stays;
    }
    match alloc_with_ca(counters, sets, v) {
        Some(r) => Hint::Moves(v, r),
        None => Hint::NoRegister,
    }
}

// How far an event has come: its counters and instructions, and its refusal, none as yet where it goes on. A struct and no
// Result, since a refused event tells them, too.
#[derive(Clone, Copy)]
pub struct Reached {
    pub counters: Counters,
    pub code: CodeDeque,
    pub refusal: Option<Refusal>,
}

// Moves a variable's value from the argument's register to another.
fn move_to(
    counters: Counters,
    records: &mut Records,
    mappings: &mut Mappings,
    code: CodeDeque,
    v: u32,
    r: u32,
) -> Reached
    ensures { evacuation records.new mappings.new result ≡ moved_to counters records.old mappings.old code v r }
{
    let k = counters.arg_c;
    shallow_temp_mappings::remove(mappings, k);
    shallow_temp_mappings::insert(mappings, r, v);
    let variable = variable_records::load(records, v);
    variable_records::store(records, v, variable.set_register(r));
    let moved = Counters {
        in_use: bit_set::insert(counters.in_use, r),
        ..counters
    };
    Reached {
        counters: moved,
        code: code_deque::push_back(code, targets::move_to_register(RegType::Temp(r), k)),
        refusal: None,
    }
}

// Empties the argument's register of another variable's value, where that has to leave it.
pub fn evacuate_arg(
    counters: Counters,
    records: &mut Records,
    mappings: &mut Mappings,
    sets: &VariableSets,
    chunk: u32,
    code: CodeDeque,
) -> Reached
    ensures { evacuation records.new mappings.new result ≡ evacuated counters records.old mappings.old sets.now chunk code }
{
    let to = alloc_in_last_goal_hint(counters, records, mappings, sets, chunk);
    match to {
        Hint::Stays => going(counters, code),
        Hint::NoRegister => Reached {
            counters,
            code,
            refusal: Some(Refusal::Register),
        },
        Hint::Moves(v, r) => {
            if r == counters.arg_c {
                return going(counters, code);
            }
            move_to(counters, records, mappings, code, v, r)
        }
    }
}

// An event that goes on.
pub fn going(counters: Counters, code: CodeDeque) -> Reached
    ensures { result ≡ going_on counters code }
{
    Reached {
        counters,
        code,
        refusal: None,
    }
}

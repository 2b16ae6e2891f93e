// Whether a state that a host lends is one: every number that counts is inside its size or names a variable. Nothing is
// taken for granted, so that counts are tested before what they count.
#![tactic(auto)]

ghost use Rattle.std.specs.Prelude.{◌≡◌, not, ◌&&◌, ◌||◌, [], ◌+◌, ◌≤◌, ◌<◌, eqb, ltb};
ghost use Rattle.sizes.specs.Sizes.{variables, registers, freed_registers};
ghost use Rattle.bit_set.specs.BitSet.{has};
ghost use Rattle.variable_records.specs.Rows.{is_temporary};
ghost use Rattle.shallow_temp_mappings.specs.Mappings.{unmapped};
ghost use Rattle.valid_states.specs.Parts.{of_records, of_sets, of_mappings, of_branches, of_freed_registers, of_freed_slots};
ghost use Rattle.valid_states.specs.ValidStates.{
  all_below,
  is_counter,
  is_register_set,
  counters_fit,
  names_none_or,
  row_fits,
  uses_fit,
  variable_fits,
  mapping_fits,
  freed_register_fits,
  entry_fits,
  freed_slot_fits,
  are_variables,
  are_permanent,
  occurrences_fit,
  branch_fits,
  is_valid,
};

use allocation::TempFreeList;
use allocator_state::Counters;
use bit_set::BitSet;
use branch_stack::{BranchOccurrences, BranchStack};
use debray_allocator::State;
use perm_free_list::{FreedSlot, PermFreeList};
use restricting_sets::VariableSets;
use shallow_temp_mappings::Mappings;
use sizes::{
    FREED_REGISTERS, FREED_SLOTS, LAST_COUNTER, LAST_REGISTER, OPEN_BRANCHES, USES, VARIABLES,
};
use variable_records::{Records, Row};

// Whether `temp_lb`, `perm_lb` or the argument counter can stand at a number.
fn is_counter(n: u32) -> bool
    ensures { result ≡ is_counter n }
{
    1 <= n && n <= LAST_COUNTER
}

// Whether every member of a set is a register's number: 0 is none.
fn is_register_set(set: BitSet) -> bool
    ensures { result ≡ is_register_set set }
{
    !bit_set::contains(set, 0)
}

// Whether the counters are inside their sizes.
fn counters_fit(counters: Counters) -> bool
    ensures { result ≡ counters_fit counters }
{
    is_counter(counters.arg_c)
        && is_counter(counters.temp_lb)
        && is_counter(counters.perm_lb)
        && sizes::is_argument(counters.arity)
        && counters.in_tail_position <= 1
        && counters.records <= VARIABLES as u32
        && counters.events_seen <= 1
        && counters.freed_registers <= FREED_REGISTERS as u32
        && counters.first_freed_slot < FREED_SLOTS as u32
        && counters.freed_slots <= FREED_SLOTS as u32
        && counters.open_branches <= OPEN_BRANCHES as u32
        && is_register_set(counters.in_use)
}

// Whether a number is that of a variable, or of none.
fn names_none_or(records: u32, v: u32) -> bool
    ensures { result ≡ names_none_or records v }
{
    v == variable_records::UNSET || v < records
}

// Whether the numbers of a row are inside their sizes.
fn row_fits(records: u32, row: Row) -> bool
    ensures { result ≡ row_fits records row }
{
    row.kind <= 1
        && row.context <= 2
        && sizes::is_chunk(row.chunk)
        && sizes::is_argument(row.place)
        && row.pending <= 1
        && row.safety.code <= 2
        && row.deep.code <= 2
        && names_none_or(records, row.to_perm_var_num)
        && sizes::is_count(row.num_occurrences)
        && sizes::is_count(row.running_count)
}

// Whether the uses of a variable that count are uses.
fn uses_fit(sets: &VariableSets, v: u32) -> bool
    requires { v < variables }
    ensures { result ≡ uses_fit sets.now v }
{
    sets.use_counts[v as usize] <= USES as u32
        && temp_var_data::uses_of(&sets.use_sets, &sets.use_counts, v)
            .iter()
            .all(|code| events::is_use(*code))
}

// Whether a variable's record and its sets fit.
fn variable_fits(counters: Counters, records: &Records, sets: &VariableSets, v: u32) -> bool
    requires { v < variables }
    ensures { result ≡ variable_fits (of_sets counters records.now sets.now) v }
{
    row_fits(counters.records, variable_records::row_at(records, v))
        && uses_fit(sets, v)
        && is_register_set(register_sets::load(&sets.no_use, v))
        && is_register_set(register_sets::load(&sets.conflict, v))
}

// Whether every variable's does.
fn variables_fit(counters: Counters, records: &Records, sets: &VariableSets) -> bool
    requires { counters.records ≤ variables }
    ensures { result ≡ all_below counters.records (variable_fits (of_sets counters records.now sets.now)) }
{
    (0..counters.records).all(|v| variable_fits(counters, records, sets, v))
}

// Whether a mapping names a temporary, or none.
fn mapping_fits(counters: Counters, records: &Records, v: u32) -> bool
    ensures { result ≡ (eqb v unmapped || ltb v counters.records && is_temporary records.now v) }
{
    v == VARIABLES as u32 || v < counters.records && variable_records::is_temporary(records, v)
}

// Whether every mapping does.
fn mappings_fit(counters: Counters, records: &Records, mappings: &Mappings) -> bool
    ensures { result ≡ all_below (registers + 1) (mapping_fits (of_mappings counters records.now mappings.now)) }
{
    mappings.iter().all(|v| mapping_fits(counters, records, *v))
}

// Whether every freed register is one.
fn freed_registers_fit(counters: Counters, list: &TempFreeList) -> bool
    requires { counters.freed_registers ≤ freed_registers }
    ensures { result ≡ all_below counters.freed_registers (freed_register_fits (of_freed_registers counters list.now)) }
{
    list[..counters.freed_registers as usize]
        .iter()
        .all(|r| sizes::is_register(*r))
}

// Whether an entry of the queue of freed slots has a chunk and a variable.
fn entry_fits(counters: Counters, entry: FreedSlot) -> bool
    ensures { result ≡ entry_fits (of_freed_slots counters []) entry }
{
    sizes::is_chunk(entry.chunk) && entry.variable < counters.records
}

// Whether every entry has.
fn freed_slots_fit(counters: Counters, list: &PermFreeList) -> bool
    ensures { result ≡ all_below counters.freed_slots (freed_slot_fits (of_freed_slots counters list.now)) }
{
    (0..counters.freed_slots).all(|i| {
        entry_fits(
            counters,
            perm_free_list::entry_at(list, counters.first_freed_slot, i),
        )
    })
}

// Whether a number is a variable's if it is a member of a set.
fn member_is_variable(counters: Counters, set: BitSet, v: u32) -> bool
    ensures { result ≡ (not (has set v) || ltb v counters.records) }
{
    !bit_set::contains(set, v) || v < counters.records
}

// Whether the members of a set are variables.
fn are_variables(counters: Counters, set: BitSet) -> bool
    ensures { result ≡ are_variables (of_records counters []) set }
{
    (0..VARIABLES as u32).all(|v| member_is_variable(counters, set, v))
}

// Whether a number is a permanent variable's if it is a member of a set.
fn member_is_permanent(counters: Counters, records: &Records, set: BitSet, v: u32) -> bool
    ensures { result ≡ (not (has set v) || ltb v counters.records && not (is_temporary records.now v)) }
{
    !bit_set::contains(set, v)
        || v < counters.records && !variable_records::is_temporary(records, v)
}

// Whether the members of a set are permanent variables.
fn are_permanent(counters: Counters, records: &Records, set: BitSet) -> bool
    ensures { result ≡ are_permanent (of_records counters records.now) set }
{
    (0..VARIABLES as u32).all(|v| member_is_permanent(counters, records, set, v))
}

// Whether the counts of an open branch and the variables that it recorded fit.
fn occurrences_fit(counters: Counters, records: &Records, branch: BranchOccurrences) -> bool
    ensures { result ≡ occurrences_fit (of_records counters records.now) branch }
{
    sizes::is_count(branch.num_branches)
        && sizes::is_count(branch.current_branch_idx)
        && are_variables(counters, branch.shallow_safety)
        && are_variables(counters, branch.deep_safety)
        && are_permanent(counters, records, branch.subsumed_hits)
}

// Whether those of the open branch at a level do.
fn branch_fits(counters: Counters, records: &Records, branches: &BranchStack, level: u32) -> bool
    ensures { result ≡ branch_fits (of_branches counters records.now branches.now) level }
{
    occurrences_fit(counters, records, branches.load(level))
}

// Whether those of every open branch do.
fn branches_fit(counters: Counters, records: &Records, branches: &BranchStack) -> bool
    ensures { result ≡ all_below counters.open_branches (branch_fits (of_branches counters records.now branches.now)) }
{
    (0..counters.open_branches).all(|level| branch_fits(counters, records, branches, level))
}

// Whether a state that is lent is valid.
pub fn is_valid(state: &State) -> bool
    ensures { result ≡ is_valid state.now }
{
    let counters = state.counters;
    counters_fit(counters)
        && variables_fit(counters, &state.records, &state.sets)
        && mappings_fit(counters, &state.records, &state.mappings)
        && freed_registers_fit(counters, &state.freed_registers)
        && freed_slots_fit(counters, &state.freed_slots)
        && branches_fit(counters, &state.records, &state.branches)
}

// Whether a state is valid.
pub fn is_valid_state(state: State) -> bool
    ensures { result ≡ is_valid state }
{
    is_valid(&state)
}

// The records of a clause, as its lines give them, and their restricting sets.
#![tactic(auto)]

ghost use Rattle.std.specs.Prelude.{◌≡◌};
ghost use Rattle.clause_records.specs.ClauseRecords.{
  rows,
  rows_put,
  uses_given,
  recording,
  perm_recorded,
  temp_recorded,
  chunk_at,
  chunks_of,
  populated,
};

use allocator_state::Counters;
use forms::GenContext;
use freeing::Released;
use refusals::Refusal;
use restricting_sets::{Chunks, VariableSets};
use sizes::VARIABLES;
use variable_records::{
    PermVarAllocation, Records, UNSET, VarAlloc, VarSafetyStatus, VariableRecord,
};

// Keeps a record with no uses and empty sets as that of a variable. A number of no variable is taken modulo the number
// of variables.
fn put_rows(records: &mut Records, sets: &mut VariableSets, v: u32, variable: VariableRecord)
    ensures { rows records.new sets.new ≡ rows_put (rows records.old sets.old) v variable }
{
    sets.use_counts[(v % VARIABLES as u32) as usize] = 0;
    let nothing = bit_set::empty();
    register_sets::store(&mut sets.no_use, v, nothing);
    register_sets::store(&mut sets.conflict, v, nothing);
    variable_records::store(records, v, variable);
}

// Puts each use of a list behind those of a variable.
fn give_uses(sets: &mut VariableSets, v: u32, uses: &[u32])
    ensures { sets.new ≡ uses_given sets.old v uses.now }
{
    for code in uses {
        temp_var_data::add_use(&mut sets.use_sets, &mut sets.use_counts, v, *code);
    }
}

// The next record is a permanent variable's: slot 0, Pending.
pub fn add_perm(
    counters: Counters,
    records: &mut Records,
    sets: &mut VariableSets,
    num_occurrences: u32,
) -> Released
    ensures { recording (rows records.new sets.new) result ≡ perm_recorded counters (rows records.old sets.old) num_occurrences }
{
    let v = counters.records;
    if VARIABLES as u32 <= v {
        return Released {
            counters,
            refusal: Some(Refusal::Full),
        };
    }
    let variable = VariableRecord {
        allocation: VarAlloc::Perm(0, PermVarAllocation::Pending),
        num_occurrences,
        running_count: 0,
    };
    put_rows(records, sets, v, variable);
    let added = Counters {
        records: v + 1,
        ..counters
    };
    Released {
        counters: added,
        refusal: None,
    }
}

// The next record is a temporary's: register 0, its sets empty, its safety Needed, with the uses of a list.
pub fn add_temp(
    counters: Counters,
    records: &mut Records,
    sets: &mut VariableSets,
    context: GenContext,
    num_occurrences: u32,
    uses: &[u32],
) -> Released
    ensures { recording (rows records.new sets.new) result ≡ temp_recorded counters (rows records.old sets.old) context num_occurrences uses.now }
{
    let v = counters.records;
    if VARIABLES as u32 <= v {
        return Released {
            counters,
            refusal: Some(Refusal::Full),
        };
    }
    let variable = VariableRecord {
        allocation: VarAlloc::Temp {
            term_loc: context,
            temp_reg: 0,
            safety: VarSafetyStatus::Needed,
            to_perm_var_num: UNSET,
        },
        num_occurrences,
        running_count: 0,
    };
    put_rows(records, sets, v, variable);
    give_uses(sets, v, uses);
    let added = Counters {
        records: v + 1,
        ..counters
    };
    Released {
        counters: added,
        refusal: None,
    }
}

// The chunk of a temporary that has a record.
fn chunk_at(counters: Counters, records: &Records, v: u32) -> Option<u32>
    ensures { result ≡ chunk_at counters records.now v }
{
    if counters.records <= v {
        return None;
    }
    let variable = variable_records::load(records, v);
    let allocation = variable.allocation;
    match allocation {
        VarAlloc::Temp { term_loc, .. } => Some(forms::chunk_num(term_loc)),
        VarAlloc::Perm(_, _) => None,
    }
}

// The chunks of all variables.
fn chunks_of(counters: Counters, records: &Records) -> Chunks
    ensures { result ≡ chunks_of counters records.now }
{
    let mut chunks = [None; VARIABLES];
    for (v, chunk) in chunks.iter_mut().enumerate() {
        *chunk = chunk_at(counters, records, v as u32);
    }
    chunks
}

// The no-use and the conflict sets of all temporaries that have a record; those of other variables stay.
pub fn populate(counters: Counters, records: &Records, sets: &mut VariableSets)
    ensures { sets.new ≡ populated counters records.now sets.old }
{
    let chunks = chunks_of(counters, records);
    restricting_sets::populate_restricting_sets(sets, &chunks);
}

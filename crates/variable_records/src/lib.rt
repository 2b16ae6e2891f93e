// Variable records, and the table that keeps them as numbers, a row a variable.
#![tactic(auto)]

ghost use Rattle.std.specs.Prelude.{◌≡◌};
ghost use Rattle.variable_records.specs.Records.{place_of, allocated, placed_at};
ghost use Rattle.variable_records.specs.Safety.{unneeded_in, needed_if, safety_unneeded};
ghost use Rattle.variable_records.specs.Rows.{
  safety_of,
  safety_row_of,
  context_of,
  context_code,
  perm_of,
  allocation_of,
  record_of,
  temp_row,
  perm_row,
  allocated_row,
  row_of,
  row_at,
  row_put,
  record_at,
  record_put,
  is_temporary,
};

use forms::{Branch, GenContext};
use registers::RegType;
use sizes::VARIABLES;

// The cells of a row, and of all rows.
pub const ROW_CELLS: usize = 16;

pub const TABLE_CELLS: usize = VARIABLES * ROW_CELLS;
// In the place of a variable's number: no variable. A number, since a C host lends the table.
pub const UNSET: u32 = VARIABLES as u32;

pub type Records = [u32; TABLE_CELLS];

// Whether a value in a variable may lie on the stack, so that handing it on has to be guarded: it may; not within the
// branch that guarded it last; or nowhere.
#[derive(Clone, Copy)]
pub enum VarSafetyStatus {
    Needed,
    LocallyUnneeded(Branch),
    GloballyUnneeded,
}

// A permanent variable's slot is given out, with its safety as an argument and as a subterm, or waits to be.
#[derive(Clone, Copy)]
pub enum PermVarAllocation {
    Done {
        shallow_safety: VarSafetyStatus,
        deep_safety: VarSafetyStatus,
    },
    Pending,
}

#[derive(Clone, Copy)]
pub enum VarAlloc {
    Temp {
        term_loc: GenContext,
        temp_reg: u32,
        safety: VarSafetyStatus,
        to_perm_var_num: u32,
    },
    Perm(u32, PermVarAllocation),
}

#[derive(Clone, Copy)]
pub struct VariableRecord {
    pub allocation: VarAlloc,
    pub num_occurrences: u32,
    pub running_count: u32,
}

// A safety as numbers, which a C host lends: its code, and the branch where it is local.
#[derive(Clone, Copy)]
pub struct SafetyRow {
    pub code: u32,
    pub start: u32,
    pub span: u32,
}

// A record as numbers, which a C host lends.
#[derive(Clone, Copy)]
pub struct Row {
    pub kind: u32,
    pub context: u32,
    pub chunk: u32,
    pub place: u32,
    pub pending: u32,
    pub safety: SafetyRow,
    pub deep: SafetyRow,
    pub to_perm_var_num: u32,
    pub num_occurrences: u32,
    pub running_count: u32,
}

// The safety that the numbers stand for.
impl From<SafetyRow> for VarSafetyStatus {
    ghost from_gives = { λ row safety. safety ≡ safety_of row };

    #[tactic(auto, unfolding(crate::specs::Rows::safety_of))]
    fn from(row: SafetyRow) -> VarSafetyStatus {
        match row.code {
            0 => VarSafetyStatus::Needed,
            1 => VarSafetyStatus::LocallyUnneeded(Branch {
                start: row.start,
                span: row.span,
            }),
            _ => VarSafetyStatus::GloballyUnneeded,
        }
    }
}

// The numbers that stand for a safety.
impl From<VarSafetyStatus> for SafetyRow {
    ghost from_gives = { λ safety row. row ≡ safety_row_of safety };

    fn from(safety: VarSafetyStatus) -> SafetyRow {
        match safety {
            VarSafetyStatus::Needed => SafetyRow {
                code: 0,
                start: 0,
                span: 0,
            },
            VarSafetyStatus::LocallyUnneeded(branch) => SafetyRow {
                code: 1,
                start: branch.start,
                span: branch.span,
            },
            VarSafetyStatus::GloballyUnneeded => SafetyRow {
                code: 2,
                start: 0,
                span: 0,
            },
        }
    }
}

// The context that the numbers stand for. A function, as is the next: a context is another crate's, and so is a number.
#[tactic(auto, unfolding(crate::specs::Rows::context_of))]
pub fn context_of(code: u32, chunk: u32) -> GenContext
    ensures { result ≡ context_of code chunk }
{
    match code {
        0 => GenContext::Head,
        1 => GenContext::Mid(chunk),
        _ => GenContext::Last(chunk),
    }
}

// The code of a context.
pub fn context_code(context: GenContext) -> u32
    ensures { result ≡ context_code context }
{
    match context {
        GenContext::Head => 0,
        GenContext::Mid(_) => 1,
        GenContext::Last(_) => 2,
    }
}

// A permanent variable's allocation, from its numbers.
#[tactic(auto, unfolding(crate::specs::Rows::perm_of))]
fn perm_of(row: Row) -> PermVarAllocation
    ensures { result ≡ perm_of row }
{
    match row.pending {
        0 => PermVarAllocation::Done {
            shallow_safety: VarSafetyStatus::from(row.safety),
            deep_safety: VarSafetyStatus::from(row.deep),
        },
        _ => PermVarAllocation::Pending,
    }
}

// The allocation that the numbers stand for.
#[tactic(auto, unfolding(crate::specs::Rows::allocation_of))]
fn allocation_of(row: Row) -> VarAlloc
    ensures { result ≡ allocation_of row }
{
    match row.kind {
        0 => VarAlloc::Temp {
            term_loc: context_of(row.context, row.chunk),
            temp_reg: row.place,
            safety: VarSafetyStatus::from(row.safety),
            to_perm_var_num: row.to_perm_var_num,
        },
        _ => VarAlloc::Perm(row.place, perm_of(row)),
    }
}

// The record that the numbers stand for.
impl From<Row> for VariableRecord {
    ghost from_gives = { λ row variable. variable ≡ record_of row };

    #[tactic(auto, unfolding(crate::specs::Rows::record_of))]
    fn from(row: Row) -> VariableRecord {
        VariableRecord {
            allocation: allocation_of(row),
            num_occurrences: row.num_occurrences,
            running_count: row.running_count,
        }
    }
}

// A temporary's numbers, without its counts.
fn temp_row(
    term_loc: GenContext,
    temp_reg: u32,
    safety: VarSafetyStatus,
    to_perm_var_num: u32,
) -> Row
    ensures { result ≡ temp_row term_loc temp_reg safety to_perm_var_num }
{
    Row {
        kind: 0,
        context: context_code(term_loc),
        chunk: forms::chunk_num(term_loc),
        place: temp_reg,
        pending: 0,
        safety: SafetyRow::from(safety),
        deep: SafetyRow::from(VarSafetyStatus::Needed),
        to_perm_var_num,
        num_occurrences: 0,
        running_count: 0,
    }
}

// A permanent variable's numbers, without its counts.
fn perm_row(slot: u32, pending: u32, shallow: VarSafetyStatus, deep: VarSafetyStatus) -> Row
    ensures { result ≡ perm_row slot pending shallow deep }
{
    Row {
        kind: 1,
        context: 0,
        chunk: 0,
        place: slot,
        pending,
        safety: SafetyRow::from(shallow),
        deep: SafetyRow::from(deep),
        to_perm_var_num: UNSET,
        num_occurrences: 0,
        running_count: 0,
    }
}

// The numbers of a permanent variable whose slot is given out, or waits to be.
fn allocated_row(slot: u32, allocation: PermVarAllocation) -> Row
    ensures { result ≡ allocated_row slot allocation }
{
    match allocation {
        PermVarAllocation::Done {
            shallow_safety,
            deep_safety,
        } => perm_row(slot, 0, shallow_safety, deep_safety),
        PermVarAllocation::Pending => perm_row(
            slot,
            1,
            VarSafetyStatus::Needed,
            VarSafetyStatus::Needed,
        ),
    }
}

// The numbers that stand for a record.
impl From<VariableRecord> for Row {
    ghost from_gives = { λ variable row. row ≡ row_of variable };

    fn from(variable: VariableRecord) -> Row {
        let row = match variable.allocation {
            VarAlloc::Temp {
                term_loc,
                temp_reg,
                safety,
                to_perm_var_num,
            } => temp_row(term_loc, temp_reg, safety, to_perm_var_num),
            VarAlloc::Perm(slot, allocation) => allocated_row(slot, allocation),
        };
        Row {
            num_occurrences: variable.num_occurrences,
            running_count: variable.running_count,
            ..row
        }
    }
}

// The numbers of a variable's row. A number of no variable is taken modulo the number of variables.
pub fn row_at(records: &Records, v: u32) -> Row
    ensures { result ≡ row_at records.now v }
{
    let at = (v % UNSET) as usize * ROW_CELLS;
    Row {
        kind: records[at],
        context: records[at + 1],
        chunk: records[at + 2],
        place: records[at + 3],
        pending: records[at + 4],
        safety: SafetyRow {
            code: records[at + 5],
            start: records[at + 6],
            span: records[at + 7],
        },
        deep: SafetyRow {
            code: records[at + 8],
            start: records[at + 9],
            span: records[at + 10],
        },
        to_perm_var_num: records[at + 11],
        num_occurrences: records[at + 12],
        running_count: records[at + 13],
    }
}

// Puts the numbers into a variable's row.
fn put_row(records: &mut Records, v: u32, row: Row)
    ensures { records.new ≡ row_put records.old v row }
{
    let at = (v % UNSET) as usize * ROW_CELLS;
    records[at] = row.kind;
    records[at + 1] = row.context;
    records[at + 2] = row.chunk;
    records[at + 3] = row.place;
    records[at + 4] = row.pending;
    records[at + 5] = row.safety.code;
    records[at + 6] = row.safety.start;
    records[at + 7] = row.safety.span;
    records[at + 8] = row.deep.code;
    records[at + 9] = row.deep.start;
    records[at + 10] = row.deep.span;
    records[at + 11] = row.to_perm_var_num;
    records[at + 12] = row.num_occurrences;
    records[at + 13] = row.running_count;
}

// The record of a variable.
#[tactic(auto, unfolding(crate::specs::Rows::record_at))]
pub fn load(records: &Records, v: u32) -> VariableRecord
    ensures { result ≡ record_at records.now v }
{
    VariableRecord::from(row_at(records, v))
}

// Keeps a record as that of a variable.
#[tactic(auto, unfolding(crate::specs::Rows::record_put))]
pub fn store(records: &mut Records, v: u32, variable: VariableRecord)
    ensures { records.new ≡ record_put records.old v variable }
{
    put_row(records, v, Row::from(variable));
}

// Whether a variable is a temporary.
#[tactic(auto, unfolding(crate::specs::Rows::is_temporary, crate::specs::Rows::temporary))]
pub fn is_temporary(records: &Records, v: u32) -> bool
    ensures { result ≡ is_temporary records.now v }
{
    matches!(load(records, v).allocation, VarAlloc::Temp { .. })
}

// The safety of a variable that was guarded in a branch: a branch that starts at 0 counts as the whole clause.
pub fn unneeded(branch: Branch) -> VarSafetyStatus
    ensures { result ≡ unneeded_in branch }
{
    if 0 < branch.start {
        return VarSafetyStatus::LocallyUnneeded(branch);
    }
    VarSafetyStatus::GloballyUnneeded
}

// The safety of a variable after branches have met.
pub fn needed_if(needed: bool, branch: Branch) -> VarSafetyStatus
    ensures { result ≡ needed_if needed branch }
{
    if needed {
        return VarSafetyStatus::Needed;
    }
    unneeded(branch)
}

// Whether a variable of that safety needs no guard in a branch.
pub fn safety_unneeded_in_branch(safety: VarSafetyStatus, branch: Branch) -> bool
    ensures { result ≡ safety_unneeded safety branch }
{
    match safety {
        VarSafetyStatus::Needed => false,
        VarSafetyStatus::LocallyUnneeded(planter) => forms::has_as_subbranch(planter, branch),
        VarSafetyStatus::GloballyUnneeded => true,
    }
}

impl VariableRecord {
    // The variable's place.
    pub fn as_reg_type(self) -> RegType
        ensures { result ≡ place_of self }
    {
        match self.allocation {
            VarAlloc::Temp { temp_reg, .. } => RegType::Temp(temp_reg),
            VarAlloc::Perm(slot, _) => RegType::Perm(slot),
        }
    }

    // The record with another allocation.
    pub fn allocated(self, allocation: VarAlloc) -> VariableRecord
        ensures { result ≡ allocated self allocation }
    {
        VariableRecord { allocation, ..self }
    }

    // The record with another place.
    pub fn set_register(self, place: u32) -> VariableRecord
        ensures { result ≡ placed_at self place }
    {
        self.allocated(match self.allocation {
            VarAlloc::Temp {
                term_loc,
                safety,
                to_perm_var_num,
                ..
            } => VarAlloc::Temp {
                term_loc,
                temp_reg: place,
                safety,
                to_perm_var_num,
            },
            VarAlloc::Perm(_, perm) => VarAlloc::Perm(place, perm),
        })
    }
}

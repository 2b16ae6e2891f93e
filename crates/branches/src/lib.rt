// Open branches: opened, led from arm to arm, taken stock of and closed, and what they record of variables.
#![tactic(auto)]

ghost use Rattle.std.specs.Prelude.{◌≡◌, ℕ, ◌-◌, ◌≤◌, ◌<◌, true, ◌&&◌, []};
ghost use Rattle.sizes.specs.Sizes.{variables};
ghost use Rattle.bit_set.specs.BitSet.{has, inserted};
ghost use Rattle.variable_records.specs.Rows.{is_temporary};
ghost use Rattle.branches.specs.Lists.{members, members_from, each};
ghost use Rattle.branches.specs.Branches.{error_refusal, refusal_of};
ghost use Rattle.branches.specs.Branches.{top_of, rows_top, sets_top, names_temporary};
ghost use Rattle.branches.specs.Branches.{opening, rows_opened, sets_opened};
ghost use Rattle.branches.specs.Branches.{advanced, rows_advanced, sets_advanced};
ghost use Rattle.branches.specs.Branches.{recorded, rows_recorded, sets_recorded};
ghost use Rattle.branches.specs.Branches.{nowhere_recorded, branch_met, allocation_met, variable_closed};
ghost use Rattle.branches.specs.Branches.{popped, records_popped, rows_popped, sets_popped};
ghost use Rattle.branches.specs.Branches.{guards_in, guards_if_member, inserted_if, safety_taken};
ghost use Rattle.branches.specs.Branches.{allocation_pending, variable_pended, pended_if_member};
ghost use Rattle.branches.specs.Branches.{taken, records_taken, rows_taken, sets_taken};

use bit_set::BitSet;
use branch_stack::{BranchOccurrences, BranchStack};
use forms::Branch;
use refusals::Refusal;
use sizes::{LAST_COUNT, OPEN_BRANCHES, VARIABLES};
use variable_records::{PermVarAllocation, Records, VarAlloc};

// Why the open branches stay as they were.
#[derive(Clone, Copy, PartialEq, Eq)]
pub enum BranchError {
    // As many are open as can be.
    Full,
    // The current arm has the last index.
    ArmsFull,
    NoneOpen,
    // Fewer are open than are to be closed.
    TooDeep,
    // The branch that has to record a variable has gone past its arms.
    PastArms,
    ClosesTemporary,
    TakesTemporary,
}

impl BranchError {
    pub fn refusal(self) -> Refusal
        ensures { result ≡ error_refusal self }
    {
        match self {
            BranchError::Full | BranchError::ArmsFull => Refusal::Full,
            BranchError::NoneOpen
            | BranchError::TooDeep
            | BranchError::PastArms
            | BranchError::ClosesTemporary => Refusal::Stop,
            BranchError::TakesTemporary => Refusal::Unreachable,
        }
    }
}

// The refusal of an outcome, none where it is done.
pub fn refusal_of(outcome: Result<(), BranchError>) -> Option<Refusal>
    ensures { result ≡ refusal_of outcome }
{
    outcome.err().map(BranchError::refusal)
}

// Whether a variable has to be guarded, as an argument and as a subterm.
#[derive(Clone, Copy)]
pub struct Guards {
    pub shallow: bool,
    pub deep: bool,
}

const NO_GUARDS: Guards = Guards {
    shallow: false,
    deep: false,
};

// The innermost open branch; where none is open, the default branch, with nothing recorded.
fn top_of(stack: &BranchStack, open_branches: u32) -> BranchOccurrences
    ensures { result ≡ top_of stack.now.rows stack.now.sets open_branches }
{
    if open_branches == 0 {
        return branch_stack::opened(Branch { start: 0, span: 0 }, 0);
    }
    stack.load(open_branches - 1)
}

// Keeps a branch as the innermost open one, where there is one.
fn put_top(stack: &mut BranchStack, open_branches: u32, branch: BranchOccurrences)
    ensures rows_after { stack.new.rows ≡ rows_top stack.old.rows open_branches branch }
    ensures sets_after { stack.new.sets ≡ sets_top stack.old.sets open_branches branch }
{
    if open_branches == 0 {
        return;
    }
    stack.store(open_branches - 1, branch);
}

// Opens a branch within those that are open, unless these are as many as can be.
pub fn add_branch_stack(
    stack: &mut BranchStack,
    open_branches: u32,
    branch: Branch,
    arms: u32,
) -> Result<u32, BranchError>
    ensures value { result ≡ opening open_branches }
    ensures rows_after { stack.new.rows ≡ rows_opened stack.old.rows open_branches branch arms }
    ensures sets_after { stack.new.sets ≡ sets_opened stack.old.sets open_branches branch arms }
{
    if OPEN_BRANCHES as u32 <= open_branches {
        return Err(BranchError::Full);
    }
    stack.store(open_branches, branch_stack::opened(branch, arms));
    Ok(open_branches + 1)
}

// Goes on to the next arm of the innermost branch, a branch of its own; refused where none is open, and at the last index.
pub fn incr_current_branch(
    stack: &mut BranchStack,
    open_branches: u32,
    branch: Branch,
) -> Result<(), BranchError>
    ensures value { result ≡ advanced stack.old.rows stack.old.sets open_branches }
    ensures rows_after { stack.new.rows ≡ rows_advanced stack.old.rows stack.old.sets open_branches branch }
    ensures sets_after { stack.new.sets ≡ sets_advanced stack.old.rows stack.old.sets open_branches branch }
{
    if open_branches == 0 {
        return Err(BranchError::NoneOpen);
    }
    let top = top_of(stack, open_branches);
    if LAST_COUNT <= top.current_branch_idx {
        return Err(BranchError::ArmsFull);
    }
    let advanced = BranchOccurrences {
        current_branch_num: branch,
        current_branch_idx: top.current_branch_idx + 1,
        ..top
    };
    put_top(stack, open_branches, advanced);
    Ok(())
}

// Records an occurrence of a variable in the innermost branch, if there is one; refused where that is past its arms.
pub fn add_branch_occurrence(
    stack: &mut BranchStack,
    open_branches: u32,
    v: u32,
) -> Result<(), BranchError>
    ensures value { result ≡ recorded stack.old.rows stack.old.sets open_branches }
    ensures rows_after { stack.new.rows ≡ rows_recorded stack.old.rows stack.old.sets open_branches v }
    ensures sets_after { stack.new.sets ≡ sets_recorded stack.old.rows stack.old.sets open_branches v }
{
    if open_branches == 0 {
        return Ok(());
    }
    let mut top = top_of(stack, open_branches);
    if top.num_branches <= top.current_branch_idx {
        return Err(BranchError::PastArms);
    }
    top.subsumed_hits = bit_set::insert(top.subsumed_hits, v);
    put_top(stack, open_branches, top);
    Ok(())
}

// Whether some variable of a list is a temporary.
fn names_temporary(records: &Records, variables: &[u32]) -> bool
    ensures { result ≡ names_temporary records.now variables.now }
{
    variables
        .iter()
        .any(|v| variable_records::is_temporary(records, *v))
}

// Whether the branch left on top would have to record a variable past its arms.
fn nowhere_recorded(stack: &BranchStack, left: u32, variables: &[u32]) -> bool
    ensures { result ≡ nowhere_recorded stack.now.rows stack.now.sets left variables.now }
{
    if left == 0 {
        return false;
    }
    if variables.len() == 0 {
        return false;
    }
    let top = top_of(stack, left);
    top.num_branches <= top.current_branch_idx
}

// The branch left on top when those above it are removed: what has to be guarded after them has to be after it.
fn meet(stack: &BranchStack, left: u32, open_branches: u32) -> BranchOccurrences
    ensures { result ≡ branch_met stack.now.rows stack.now.sets left open_branches }
{
    let top = top_of(stack, left);
    let mut shallow = top.shallow_safety;
    let mut deep = top.deep_safety;
    for level in left..open_branches {
        let removed = stack.load(level);
        shallow = bit_set::union_with(shallow, removed.shallow_safety);
        deep = bit_set::union_with(deep, removed.deep_safety);
    }
    BranchOccurrences {
        shallow_safety: shallow,
        deep_safety: deep,
        ..top
    }
}

// The allocation of a permanent variable after branches have met: it is given out, and has to be guarded where one of
// them says so.
#[tactic(auto, unfolding(crate::specs::Branches::allocation_met))]
fn met_allocation(allocation: VarAlloc, v: u32, met: BranchOccurrences) -> VarAlloc
    ensures { result ≡ allocation_met met v allocation }
{
    match allocation {
        VarAlloc::Temp { .. } => allocation,
        VarAlloc::Perm(slot, _) => {
            let shallow = bit_set::contains(met.shallow_safety, v);
            let deep = bit_set::contains(met.deep_safety, v);
            VarAlloc::Perm(
                slot,
                PermVarAllocation::Done {
                    shallow_safety: variable_records::needed_if(shallow, met.current_branch_num),
                    deep_safety: variable_records::needed_if(deep, met.current_branch_num),
                },
            )
        }
    }
}

// Gives out a variable that is to occur again after branches have met.
#[tactic(auto, unfolding(crate::specs::Branches::variable_closed))]
fn close_variable(records: &mut Records, v: u32, met: BranchOccurrences)
    ensures { records.new ≡ variable_closed met records.old v }
{
    let variable = variable_records::load(records, v);
    if variable.num_occurrences <= variable.running_count {
        return;
    }
    let closed = met_allocation(variable.allocation, v, met);
    variable_records::store(records, v, variable.allocated(closed));
}

// Gives out each variable of a list that is to occur again. A loop of its own, since `pend_members` goes over a set.
fn close_variables(records: &mut Records, variables: &[u32], met: BranchOccurrences)
    ensures { records.new ≡ each (variable_closed met) records.old variables.now }
{
    for v in variables {
        close_variable(records, *v, met);
    }
}

// A set with each variable of a list.
fn join_variables(set: BitSet, variables: &[u32]) -> BitSet
    ensures { result ≡ each inserted set variables.now }
{
    let mut joined = set;
    for v in variables {
        joined = bit_set::insert(joined, *v);
    }
    joined
}

// Closes so many of the innermost branches, with the variables that occurred in them. Refused where fewer are open, a
// variable is a temporary, or the branch left on top cannot record them.
pub fn pop_branch(
    records: &mut Records,
    stack: &mut BranchStack,
    open_branches: u32,
    depth: u32,
    variables: &[u32],
) -> Result<u32, BranchError>
    ensures value { result ≡ popped records.old stack.old.rows stack.old.sets open_branches depth variables.now }
    ensures records_after { records.new ≡ records_popped records.old stack.old.rows stack.old.sets open_branches depth variables.now }
    ensures rows_after { stack.new.rows ≡ rows_popped records.old stack.old.rows stack.old.sets open_branches depth variables.now }
    ensures sets_after { stack.new.sets ≡ sets_popped records.old stack.old.rows stack.old.sets open_branches depth variables.now }
{
    if open_branches < depth {
        return Err(BranchError::TooDeep);
    }
    if names_temporary(records, variables) {
        return Err(BranchError::ClosesTemporary);
    }
    let left = open_branches - depth;
    if nowhere_recorded(stack, left, variables) {
        return Err(BranchError::PastArms);
    }
    let mut met = meet(stack, left, open_branches);
    close_variables(records, variables, met);
    met.subsumed_hits = join_variables(met.subsumed_hits, variables);
    put_top(stack, left, met);
    Ok(left)
}

// The number after a set's last member, 0 where it has none: a loop over the members ends there.
fn past_last(set: BitSet) -> u32
    ensures within { result ≤ variables }
    ensures none_from { (v : ℕ) → result ≤ v → members_from set v ≡ [] }
    ensures last_before { 0 < result → has set (result - 1) ≡ true }
{
    VARIABLES as u32 - u64::leading_zeros(set)
}

// Whether a variable is a member of a set, and a temporary.
fn is_temporary_member(records: &Records, set: BitSet, v: u32) -> bool
    ensures { result ≡ (has set v && is_temporary records.now v) }
{
    bit_set::contains(set, v) && variable_records::is_temporary(records, v)
}

// Whether some member of a set is a temporary.
fn holds_temporary(records: &Records, set: BitSet) -> bool
    ensures { result ≡ names_temporary records.now (members set) }
{
    (0..past_last(set)).any(|v| is_temporary_member(records, set, v))
}

// Which guards a variable needs in a branch; one that is not given out needs none.
#[tactic(auto, unfolding(crate::specs::Branches::guards_in))]
fn guards_in(allocation: VarAlloc, branch: Branch) -> Guards
    ensures { result ≡ guards_in branch allocation }
{
    match allocation {
        VarAlloc::Temp { .. } => NO_GUARDS,
        VarAlloc::Perm(_, PermVarAllocation::Pending) => NO_GUARDS,
        VarAlloc::Perm(
            _,
            PermVarAllocation::Done {
                shallow_safety,
                deep_safety,
            },
        ) => Guards {
            shallow: !variable_records::safety_unneeded_in_branch(shallow_safety, branch),
            deep: !variable_records::safety_unneeded_in_branch(deep_safety, branch),
        },
    }
}

// Which guards a variable needs that a branch has recorded; one that it has not recorded needs none.
#[tactic(auto, unfolding(crate::specs::Branches::guards_if_member))]
fn member_guards(records: &Records, top: BranchOccurrences, v: u32) -> Guards
    ensures { result ≡ guards_if_member records.now top v }
{
    if bit_set::contains(top.subsumed_hits, v) {
        let variable = variable_records::load(records, v);
        return guards_in(variable.allocation, top.current_branch_num);
    }
    NO_GUARDS
}

// A set with a variable, if it is wanted.
fn insert_if(set: BitSet, v: u32, wanted: bool) -> BitSet
    ensures { result ≡ inserted_if set v wanted }
{
    if wanted {
        return bit_set::insert(set, v);
    }
    set
}

// A branch with each variable that it has recorded and that has to be guarded in it; then nothing is recorded.
fn take_safety(records: &Records, top: BranchOccurrences) -> BranchOccurrences
    ensures { result ≡ safety_taken records.now top }
{
    let mut shallow = top.shallow_safety;
    let mut deep = top.deep_safety;
    for v in 0..past_last(top.subsumed_hits) {
        let guards = member_guards(records, top, v);
        shallow = insert_if(shallow, v, guards.shallow);
        deep = insert_if(deep, v, guards.deep);
    }
    BranchOccurrences {
        shallow_safety: shallow,
        deep_safety: deep,
        subsumed_hits: bit_set::empty(),
        ..top
    }
}

// The allocation of a permanent variable that waits for its slot, which it keeps.
#[tactic(auto, unfolding(crate::specs::Branches::allocation_pending))]
fn pending_allocation(allocation: VarAlloc) -> VarAlloc
    ensures { result ≡ allocation_pending allocation }
{
    match allocation {
        VarAlloc::Temp { .. } => allocation,
        VarAlloc::Perm(slot, _) => VarAlloc::Perm(slot, PermVarAllocation::Pending),
    }
}

// Has a variable wait for its slot.
#[tactic(auto, unfolding(crate::specs::Branches::variable_pended))]
fn pend_variable(records: &mut Records, v: u32)
    ensures { records.new ≡ variable_pended records.old v }
{
    let variable = variable_records::load(records, v);
    let pending = pending_allocation(variable.allocation);
    variable_records::store(records, v, variable.allocated(pending));
}

// Has a variable wait for its slot, if it is a member of a set.
fn pend_member(records: &mut Records, set: BitSet, v: u32)
    ensures { records.new ≡ pended_if_member set records.old v }
{
    if bit_set::contains(set, v) {
        pend_variable(records, v);
    }
}

// Has each member of a set wait for its slot.
fn pend_members(records: &mut Records, set: BitSet)
    ensures { records.new ≡ each variable_pended records.old (members set) }
{
    for v in 0..past_last(set) {
        pend_member(records, set, v);
    }
}

// Takes stock of the variables that the innermost branch has recorded in an arm; refused where none is open, and where a
// temporary was recorded.
pub fn add_branch(
    records: &mut Records,
    stack: &mut BranchStack,
    open_branches: u32,
) -> Result<(), BranchError>
    ensures value { result ≡ taken records.old stack.old.rows stack.old.sets open_branches }
    ensures records_after { records.new ≡ records_taken records.old stack.old.rows stack.old.sets open_branches }
    ensures rows_after { stack.new.rows ≡ rows_taken records.old stack.old.rows stack.old.sets open_branches }
    ensures sets_after { stack.new.sets ≡ sets_taken records.old stack.old.rows stack.old.sets open_branches }
{
    if open_branches == 0 {
        return Err(BranchError::NoneOpen);
    }
    let top = top_of(stack, open_branches);
    if holds_temporary(records, top.subsumed_hits) {
        return Err(BranchError::TakesTemporary);
    }
    let taken = take_safety(records, top);
    pend_members(records, top.subsumed_hits);
    put_top(stack, open_branches, taken);
    Ok(())
}

// A variable is marked: it gets a place if it has none, its instruction is made, and the mark is settled.
//
// Each function is lent the tables that it looks at and no others, so that its signature says what it leaves alone.
#![tactic(auto)]

ghost use Rattle.std.specs.Prelude.{◌≡◌};
ghost use Rattle.evacuation.specs.Evacuation.{evacuation};
ghost use Rattle.branches.specs.Branches.{record_refusal, recorded, rows_recorded, sets_recorded};
ghost use Rattle.freeing.specs.Freeing.{release_of};
ghost use Rattle.mark_var.specs.MarkVar.{
  noted_place,
  noted,
  settled,
  instructed_for,
  marking,
  finished,
  reserved_marked,
  var_mark,
  marked_at,
  new_temporary_marked,
  new_slot_marked,
  slot_marked,
  var_marked,
};

use allocator_state::Counters;
use branch_stack::BranchStack;
use code_deque::CodeDeque;
use evacuation::Reached;
use forms::{GenContext, Level};
use freeing::Released;
use marks::Marked;
use perm_free_list::PermFreeList;
use refusals::Refusal;
use registers::RegType;
use reserved_var::Mark;
use restricting_sets::VariableSets;
use shallow_temp_mappings::Mappings;
use variable_records::{PermVarAllocation, Records, VarAlloc};

// Records an occurrence in the innermost branch; the refusal where that is past its arms.
fn record_occurrence(stack: &mut BranchStack, open_branches: u32, v: u32) -> Option<Refusal>
    ensures value { result ≡ record_refusal (recorded stack.old.rows stack.old.sets open_branches) }
    ensures rows_after { stack.new.rows ≡ rows_recorded stack.old.rows stack.old.sets open_branches v }
    ensures branch_sets_after { stack.new.sets ≡ sets_recorded stack.old.rows stack.old.sets open_branches v }
{
    branches::refusal_of(branches::add_branch_occurrence(stack, open_branches, v))
}

// A temporary's register is mapped to it; a permanent variable that is new is recorded in its branch.
fn note_place(
    mappings: &mut Mappings,
    stack: &mut BranchStack,
    open_branches: u32,
    v: u32,
    place: RegType,
    is_new: bool,
) -> Option<Refusal>
    ensures { noted_place mappings.new stack.new.rows stack.new.sets result ≡ noted mappings.old stack.old.rows stack.old.sets open_branches v place is_new }
{
    match place {
        RegType::Temp(r) => {
            shallow_temp_mappings::insert(mappings, r, v);
            None
        }
        RegType::Perm(_) => {
            if is_new {
                return record_occurrence(stack, open_branches, v);
            }
            None
        }
    }
}

// Keeps a variable's place, counts or frees the variable, and puts the place's number in use.
fn settle(
    counters: Counters,
    records: &mut Records,
    list: &mut PermFreeList,
    context: GenContext,
    v: u32,
    place: RegType,
) -> Released
    ensures { release_of records.new list.new result ≡ settled counters records.old list.old context v place }
{
    let chunk = forms::chunk_num(context);
    let number = place.number();
    let variable = variable_records::load(records, v);
    variable_records::store(records, v, variable.set_register(number));
    let released = freeing::count_or_free(counters, records, list, chunk, v);
    let used = Counters {
        in_use: allocator_state::used_by(released.counters.in_use, place),
        ..released.counters
    };
    Released {
        counters: used,
        refusal: released.refusal,
    }
}

// The instruction for a variable whose place is known.
fn instruct(
    counters: Counters,
    records: &mut Records,
    mappings: &mut Mappings,
    sets: &VariableSets,
    stack: &BranchStack,
    mark: Mark,
    place: RegType,
    is_new: bool,
    code: CodeDeque,
) -> Reached
    ensures { evacuation records.new mappings.new result ≡ instructed_for counters records.old mappings.old sets.now stack.now.rows mark place is_new code }
{
    let branch = stack.current_branch_designator(counters.open_branches);
    match mark.level {
        Level::Deep => reserved_var::put_subterm(
            counters, records, mappings, sets, mark, place, is_new, branch, code,
        ),
        Level::Root | Level::Shallow => reserved_var::mark_argument(
            counters, records, mappings, sets, mark, place, is_new, branch, code,
        ),
    }
}

// What follows a mark's instruction: the place is noted, and the mark settled.
fn finish(
    counters: Counters,
    records: &mut Records,
    mappings: &mut Mappings,
    list: &mut PermFreeList,
    stack: &mut BranchStack,
    v: u32,
    context: GenContext,
    place: RegType,
    is_new: bool,
    code: CodeDeque,
) -> Reached
    ensures { marking records.new mappings.new list.new stack.new.rows stack.new.sets result ≡ finished counters records.old mappings.old list.old stack.old.rows stack.old.sets v context place is_new code }
{
    let refusal = note_place(mappings, stack, counters.open_branches, v, place, is_new);
    if refusal.is_some() {
        return Reached {
            counters,
            code,
            refusal,
        };
    }
    let released = settle(counters, records, list, context, v, place);
    let settled = released.counters;
    Reached {
        counters: settled,
        code,
        refusal: released.refusal,
    }
}

// Marks a variable whose place is known.
fn mark_reserved_var(
    counters: Counters,
    records: &mut Records,
    mappings: &mut Mappings,
    sets: &VariableSets,
    list: &mut PermFreeList,
    stack: &mut BranchStack,
    mark: Mark,
    place: RegType,
    is_new: bool,
    code: CodeDeque,
) -> Reached
    ensures { marking records.new mappings.new list.new stack.new.rows stack.new.sets result ≡ reserved_marked counters records.old mappings.old sets.now list.old stack.old.rows stack.old.sets mark place is_new code }
{
    let reached = instruct(
        counters, records, mappings, sets, stack, mark, place, is_new, code,
    );
    if reached.refusal.is_some() {
        return reached;
    }
    let instructed = reached.counters;
    let instructions = reached.code;
    let context = mark.context;
    finish(
        instructed,
        records,
        mappings,
        list,
        stack,
        mark.variable,
        context,
        place,
        is_new,
        instructions,
    )
}

// Marks a variable at its place, and tells the place.
fn mark_at(
    counters: Counters,
    records: &mut Records,
    mappings: &mut Mappings,
    sets: &VariableSets,
    list: &mut PermFreeList,
    stack: &mut BranchStack,
    mark: Mark,
    place: RegType,
    is_new: bool,
    code: CodeDeque,
) -> Marked
    ensures { var_mark records.new mappings.new list.new stack.new.rows stack.new.sets result ≡ marked_at counters records.old mappings.old sets.now list.old stack.old.rows stack.old.sets mark place is_new code }
{
    let reached = mark_reserved_var(
        counters, records, mappings, sets, list, stack, mark, place, is_new, code,
    );
    Marked { reached, place }
}

// Marks a temporary that has no register yet: it gets one.
fn mark_new_temporary(
    counters: Counters,
    records: &mut Records,
    mappings: &mut Mappings,
    sets: &VariableSets,
    list: &mut PermFreeList,
    stack: &mut BranchStack,
    mark: Mark,
) -> Marked
    ensures { var_mark records.new mappings.new list.new stack.new.rows stack.new.sets result ≡ new_temporary_marked counters records.old mappings.old sets.now list.old stack.old.rows stack.old.sets mark }
{
    let level = mark.level;
    let context = mark.context;
    let placed = marks::alloc_reg_to_var(
        counters,
        records,
        mappings,
        sets,
        mark.variable,
        level,
        context,
        CodeDeque::Empty,
    );
    let reached = placed.reached;
    if reached.refusal.is_some() {
        return Marked {
            reached,
            place: RegType::Temp(0),
        };
    }
    let after = reached.counters;
    let code = reached.code;
    mark_at(
        after,
        records,
        mappings,
        sets,
        list,
        stack,
        mark,
        RegType::Temp(placed.place),
        true,
        code,
    )
}

// Marks a permanent variable that has no slot: it gets one.
fn mark_new_slot(
    counters: Counters,
    records: &mut Records,
    mappings: &mut Mappings,
    sets: &VariableSets,
    list: &mut PermFreeList,
    stack: &mut BranchStack,
    mark: Mark,
) -> Marked
    ensures { var_mark records.new mappings.new list.new stack.new.rows stack.new.sets result ≡ new_slot_marked counters records.old mappings.old sets.now list.old stack.old.rows stack.old.sets mark }
{
    let context = mark.context;
    let chunk = forms::chunk_num(context);
    let placed = allocation::alloc_perm_var(counters, records, list, mark.variable, chunk);
    let after = placed.counters;
    if placed.refusal.is_some() {
        return Marked {
            reached: Reached {
                counters: after,
                code: CodeDeque::Empty,
                refusal: placed.refusal,
            },
            place: RegType::Temp(0),
        };
    }
    mark_at(
        after,
        records,
        mappings,
        sets,
        list,
        stack,
        mark,
        RegType::Perm(placed.place),
        true,
        CodeDeque::Empty,
    )
}

// Marks a permanent variable that has a slot: where it is Pending, the slot is given to it anew.
fn mark_slot(
    counters: Counters,
    records: &mut Records,
    mappings: &mut Mappings,
    sets: &VariableSets,
    list: &mut PermFreeList,
    stack: &mut BranchStack,
    mark: Mark,
    slot: u32,
    allocation: PermVarAllocation,
) -> Marked
    ensures { var_mark records.new mappings.new list.new stack.new.rows stack.new.sets result ≡ slot_marked counters records.old mappings.old sets.now list.old stack.old.rows stack.old.sets mark slot allocation }
{
    match allocation {
        PermVarAllocation::Pending => {
            allocation::give_slot(records, mark.variable, slot);
            mark_at(
                counters,
                records,
                mappings,
                sets,
                list,
                stack,
                mark,
                RegType::Perm(slot),
                true,
                CodeDeque::Empty,
            )
        }
        PermVarAllocation::Done { .. } => mark_at(
            counters,
            records,
            mappings,
            sets,
            list,
            stack,
            mark,
            RegType::Perm(slot),
            false,
            CodeDeque::Empty,
        ),
    }
}

// Marks a variable.
pub fn mark_var(
    counters: Counters,
    records: &mut Records,
    mappings: &mut Mappings,
    sets: &VariableSets,
    list: &mut PermFreeList,
    stack: &mut BranchStack,
    mark: Mark,
) -> Marked
    ensures { var_mark records.new mappings.new list.new stack.new.rows stack.new.sets result ≡ var_marked counters records.old mappings.old sets.now list.old stack.old.rows stack.old.sets mark }
{
    let variable = variable_records::load(records, mark.variable);
    let allocation = variable.allocation;
    match allocation {
        VarAlloc::Temp { temp_reg, .. } => {
            if temp_reg == 0 {
                return mark_new_temporary(counters, records, mappings, sets, list, stack, mark);
            }
            mark_at(
                counters,
                records,
                mappings,
                sets,
                list,
                stack,
                mark,
                RegType::Temp(temp_reg),
                false,
                CodeDeque::Empty,
            )
        }
        VarAlloc::Perm(slot, allocation) => {
            if slot == 0 {
                return mark_new_slot(counters, records, mappings, sets, list, stack, mark);
            }
            mark_slot(
                counters, records, mappings, sets, list, stack, mark, slot, allocation,
            )
        }
    }
}

// Marks of what is no ordinary occurrence of a variable: an anonymous variable, a term that is no variable, and the variable
// that a cut needs.
//
// Each function is lent the tables that it looks at and no others, so that its signature says what it leaves alone.
#![tactic(auto)]

ghost use Rattle.std.specs.Prelude.{◌≡◌};
ghost use Rattle.evacuation.specs.Evacuation.{evacuation};
ghost use Rattle.other_marks.specs.OtherMarks.{
  refused_mark,
  quiet_mark,
  emptied_in,
  turn_taken,
  marked_at,
  instructed_at,
  mark_of,
  is_argument,
  anon_argument,
  anon_placed,
  anon_marked,
  term_marked,
  non_var_argument,
  cell_marked,
  non_var_marked,
  cut_of,
  slot_cut,
  register_cut,
  cut_marked,
};

use allocation::TempFreeList;
use allocator_state::Counters;
use code_deque::CodeDeque;
use evacuation::Reached;
use forms::{GenContext, Level};
use instructions::Instruction;
use marks::Marked;
use perm_free_list::PermFreeList;
use refusals::Refusal;
use registers::RegType;
use restricting_sets::VariableSets;
use shallow_temp_mappings::Mappings;
use targets::Target;
use variable_records::{Records, VarAlloc, VarSafetyStatus, VariableRecord};

// A mark that is refused before it has made an instruction.
fn refused(counters: Counters, refusal: Option<Refusal>) -> Marked
    ensures { result ≡ refused_mark counters refusal }
{
    Marked {
        reached: Reached {
            counters,
            code: CodeDeque::Empty,
            refusal,
        },
        place: RegType::Temp(0),
    }
}

// A mark that makes no instruction.
fn quiet(counters: Counters, place: RegType) -> Marked
    ensures { result ≡ quiet_mark counters place }
{
    Marked {
        reached: evacuation::going(counters, CodeDeque::Empty),
        place,
    }
}

// Empties the argument's register of a variable's value, only in a chunk's last goal.
fn empty_in_last_goal(
    counters: Counters,
    records: &mut Records,
    mappings: &mut Mappings,
    sets: &VariableSets,
    context: GenContext,
) -> Reached
    ensures { evacuation records.new mappings.new result ≡ emptied_in context counters records.old mappings.old sets.now }
{
    match context {
        GenContext::Head | GenContext::Mid(_) => evacuation::going(counters, CodeDeque::Empty),
        GenContext::Last(chunk) => evacuation::evacuate_arg(
            counters,
            records,
            mappings,
            sets,
            chunk,
            CodeDeque::Empty,
        ),
    }
}

// The turn of an argument that is no variable with a record: its register is emptied, and the next argument comes.
fn take_turn(
    counters: Counters,
    records: &mut Records,
    mappings: &mut Mappings,
    sets: &VariableSets,
    context: GenContext,
) -> Reached
    ensures { evacuation records.new mappings.new result ≡ turn_taken counters records.old mappings.old sets.now context }
{
    let emptied = empty_in_last_goal(counters, records, mappings, sets, context);
    if emptied.refusal.is_some() {
        return emptied;
    }
    let code = emptied.code;
    let mut next = emptied.counters;
    next.arg_c = allocator_state::counter_after(next.arg_c);
    evacuation::going(next, code)
}

// What was marked has its place, unless the mark is refused.
fn marked_at(reached: Reached, place: RegType) -> Marked
    ensures { result ≡ marked_at reached place }
{
    if reached.refusal.is_some() {
        return Marked {
            reached,
            place: RegType::Temp(0),
        };
    }
    Marked { reached, place }
}

// The same with one instruction more, which comes after the evacuation's.
fn instructed_at(reached: Reached, instruction: Instruction, place: RegType) -> Marked
    ensures { result ≡ instructed_at reached instruction place }
{
    if reached.refusal.is_some() {
        return Marked {
            reached,
            place: RegType::Temp(0),
        };
    }
    let counters = reached.counters;
    let code = reached.code;
    Marked {
        reached: evacuation::going(counters, code_deque::push_back(code, instruction)),
        place,
    }
}

// An anonymous variable as an argument, in a register of its own.
fn put_anon_argument(
    counters: Counters,
    records: &mut Records,
    mappings: &mut Mappings,
    sets: &VariableSets,
    target: Target,
    context: GenContext,
    place: RegType,
) -> Marked
    ensures { mark_of records.new mappings.new result ≡ anon_argument counters records.old mappings.old sets.now target context place }
{
    let k = counters.arg_c;
    let turn = take_turn(counters, records, mappings, sets, context);
    instructed_at(turn, targets::argument_to_variable(target, place, k), place)
}

// Whether an anonymous variable at that level counts as an argument.
fn is_argument(level: Level) -> bool
    ensures { result ≡ is_argument level }
{
    matches!(level, Level::Root | Level::Shallow)
}

// An anonymous variable in a register of its own, as an argument or as a subterm.
fn put_anon(
    counters: Counters,
    records: &mut Records,
    mappings: &mut Mappings,
    sets: &VariableSets,
    target: Target,
    level: Level,
    context: GenContext,
    place: RegType,
) -> Marked
    ensures { mark_of records.new mappings.new result ≡ anon_placed counters records.old mappings.old sets.now target level context place }
{
    if is_argument(level) {
        return put_anon_argument(counters, records, mappings, sets, target, context, place);
    }
    let instruction = targets::subterm_to_variable(target, place);
    instructed_at(
        evacuation::going(counters, CodeDeque::Empty),
        instruction,
        place,
    )
}

// Marks an anonymous variable: it has a register of its own, which is chosen before the argument's is emptied.
pub fn mark_anon_var(
    counters: Counters,
    records: &mut Records,
    mappings: &mut Mappings,
    sets: &VariableSets,
    list: &TempFreeList,
    target: Target,
    level: Level,
    context: GenContext,
) -> Marked
    ensures { mark_of records.new mappings.new result ≡ anon_marked counters records.old mappings.old sets.now list.now target level context }
{
    let given = allocation::alloc_reg_to_non_var(counters, list);
    let taken = given.counters;
    match given.chosen {
        None => refused(taken, Some(Refusal::Register)),
        Some(r) => put_anon(
            taken,
            records,
            mappings,
            sets,
            target,
            level,
            context,
            RegType::Temp(r),
        ),
    }
}

// A register for a term that is no variable.
fn mark_term(counters: Counters, list: &TempFreeList) -> Marked
    ensures { result ≡ term_marked counters list.now }
{
    let given = allocation::alloc_reg_to_non_var(counters, list);
    let taken = given.counters;
    match given.chosen {
        None => refused(taken, Some(Refusal::Register)),
        Some(r) => quiet(taken, RegType::Temp(r)),
    }
}

// A term that is no argument keeps the register in its cell; one whose cell holds none gets a register.
fn mark_cell(counters: Counters, list: &TempFreeList, cell: u32) -> Marked
    ensures { result ≡ cell_marked counters list.now cell }
{
    if cell == 0 {
        return mark_term(counters, list);
    }
    let used = Counters {
        in_use: bit_set::insert(counters.in_use, cell),
        ..counters
    };
    quiet(used, RegType::Temp(cell))
}

// A term that is no variable as an argument: it stands in the argument's register.
fn put_non_var_argument(
    counters: Counters,
    records: &mut Records,
    mappings: &mut Mappings,
    sets: &VariableSets,
    context: GenContext,
) -> Marked
    ensures { mark_of records.new mappings.new result ≡ non_var_argument counters records.old mappings.old sets.now context }
{
    let k = counters.arg_c;
    let turn = take_turn(counters, records, mappings, sets, context);
    marked_at(turn, RegType::Temp(k))
}

// Marks a term that is no variable.
pub fn mark_non_var(
    counters: Counters,
    records: &mut Records,
    mappings: &mut Mappings,
    sets: &VariableSets,
    list: &TempFreeList,
    level: Level,
    context: GenContext,
    cell: u32,
) -> Marked
    ensures { mark_of records.new mappings.new result ≡ non_var_marked counters records.old mappings.old sets.now list.now level context cell }
{
    match level {
        Level::Root | Level::Deep => mark_cell(counters, list, cell),
        Level::Shallow => put_non_var_argument(counters, records, mappings, sets, context),
    }
}

// A cut's permanent variable gets a slot, which is not put in use.
fn cut_slot(
    counters: Counters,
    records: &mut Records,
    perm_list: &PermFreeList,
    v: u32,
    chunk: u32,
) -> Marked
    ensures { cut_of records.new result ≡ slot_cut counters records.old perm_list.now v chunk }
{
    let placed = allocation::alloc_perm_var(counters, records, perm_list, v, chunk);
    let after = placed.counters;
    if placed.refusal.is_some() {
        return refused(after, placed.refusal);
    }
    quiet(after, RegType::Perm(placed.place))
}

// A cut's temporary gets a register and is safe everywhere; no register is mapped to it.
fn cut_register(
    counters: Counters,
    records: &mut Records,
    list: &TempFreeList,
    v: u32,
    variable: VariableRecord,
    term_loc: GenContext,
    to_perm_var_num: u32,
) -> Marked
    ensures { cut_of records.new result ≡ register_cut counters records.old list.now v variable term_loc to_perm_var_num }
{
    let given = allocation::alloc_reg_to_non_var(counters, list);
    let taken = given.counters;
    match given.chosen {
        None => refused(taken, Some(Refusal::Register)),
        Some(r) => {
            let safe = VarAlloc::Temp {
                term_loc,
                temp_reg: r,
                safety: VarSafetyStatus::GloballyUnneeded,
                to_perm_var_num,
            };
            variable_records::store(records, v, variable.allocated(safe));
            quiet(taken, RegType::Temp(r))
        }
    }
}

// Marks the variable that a cut needs: it gets a place if it has none.
pub fn mark_cut_var(
    counters: Counters,
    records: &mut Records,
    perm_list: &PermFreeList,
    list: &TempFreeList,
    v: u32,
    chunk: u32,
) -> Marked
    ensures { cut_of records.new result ≡ cut_marked counters records.old perm_list.now list.now v chunk }
{
    let found = variable_records::load(records, v);
    let allocation = found.allocation;
    match allocation {
        VarAlloc::Perm(slot, _) => {
            if slot == 0 {
                return cut_slot(counters, records, perm_list, v, chunk);
            }
            quiet(counters, RegType::Perm(slot))
        }
        VarAlloc::Temp {
            term_loc,
            temp_reg,
            to_perm_var_num,
            ..
        } => {
            if temp_reg == 0 {
                return cut_register(counters, records, list, v, found, term_loc, to_perm_var_num);
            }
            quiet(counters, RegType::Temp(temp_reg))
        }
    }
}

// The instruction for a variable whose place is known, as an argument or as a subterm.
//
// Each function is lent the tables that it looks at and no others, so that its signature says what it leaves alone.
#![tactic(auto)]

ghost use Rattle.std.specs.Prelude.{◌≡◌};
ghost use Rattle.evacuation.specs.Evacuation.{evacuation};
ghost use Rattle.reserved_var.specs.ReservedVar.{
  safe_step,
  safe_kept,
  remembered,
  safe_made,
  instructed_after,
  step,
  value_kept,
  argument_made,
  shallow_in_head,
  met,
  subterm_made,
  others_out,
  advanced_by,
  argument_marked,
};

use allocator_state::Counters;
use code_deque::CodeDeque;
use evacuation::Reached;
use forms::{Branch, GenContext, Level};
use instructions::Instruction;
use record_marks::{MarkedSafe, Valued};
use refusals::Refusal;
use registers::RegType;
use restricting_sets::VariableSets;
use shallow_temp_mappings::Mappings;
use targets::Target;
use variable_records::{Records, VarAlloc, VariableRecord};

// What a line says of a mark of a variable.
#[derive(Clone, Copy)]
pub struct Mark {
    pub target: Target,
    pub level: Level,
    pub context: GenContext,
    pub variable: u32,
}

// Keeps the record of a variable that has been made safe; the refusal where the original stops.
fn keep_safe(records: &mut Records, v: u32, safe: Option<VariableRecord>) -> Option<Refusal>
    ensures { safe_step records.new result ≡ safe_kept records.old v safe }
{
    match safe {
        Some(variable) => {
            variable_records::store(records, v, variable);
            None
        }
        None => Some(Refusal::Unreachable),
    }
}

// The temporary in the argument's register, where there is one, remembers the permanent variable that it is moved to.
fn remember(records: &mut Records, mappings: &Mappings, k: u32, v: u32) -> Option<Refusal>
    ensures { safe_step records.new result ≡ remembered records.old mappings.now k v }
{
    let Some(temporary) = shallow_temp_mappings::variable_at(mappings, k) else {
        return None;
    };
    let variable = variable_records::load(records, temporary);
    keep_safe(records, temporary, record_marks::remember_perm(variable, v))
}

// A variable that is met for the first time is made safe.
#[tactic(auto, unfolding(crate::specs::ReservedVar::safe_made))]
fn mark_safe_var(
    records: &mut Records,
    mappings: &Mappings,
    k: u32,
    v: u32,
    level: Level,
    context: GenContext,
    branch: Branch,
) -> Option<Refusal>
    ensures { safe_step records.new result ≡ safe_made records.old mappings.now k v level context branch }
{
    let variable = variable_records::load(records, v);
    match record_marks::mark_safe_var(variable, level, context, branch) {
        Some(MarkedSafe::Safe(safe)) => keep_safe(records, v, Some(safe)),
        Some(MarkedSafe::FromTemporary) => remember(records, mappings, k, v),
        None => Some(Refusal::Unreachable),
    }
}

// One instruction more, unless the original stops before it.
fn instructed(
    counters: Counters,
    code: CodeDeque,
    refusal: Option<Refusal>,
    instruction: Instruction,
) -> Reached
    ensures { result ≡ instructed_after counters code refusal instruction }
{
    if refusal.is_some() {
        return Reached {
            counters,
            code,
            refusal,
        };
    }
    evacuation::going(counters, code_deque::push_back(code, instruction))
}

// Keeps the record of a variable that has been met before, with the instruction that hands it on.
fn keep_value(
    counters: Counters,
    records: &mut Records,
    v: u32,
    valued: Option<Valued>,
    code: CodeDeque,
) -> Reached
    ensures { step records.new result ≡ value_kept counters records.old v valued code }
{
    match valued {
        Some(
            Valued {
                variable,
                instruction,
            },
        ) => {
            variable_records::store(records, v, variable);
            instructed(counters, code, None, instruction)
        }
        None => Reached {
            counters,
            code,
            refusal: Some(Refusal::Unreachable),
        },
    }
}

// The instruction for an argument, where it does not stand in its place already.
pub fn put_argument(
    counters: Counters,
    records: &mut Records,
    mappings: &Mappings,
    mark: Mark,
    place: RegType,
    is_new: bool,
    branch: Branch,
    code: CodeDeque,
) -> Reached
    ensures { step records.new result ≡ argument_made counters records.old mappings.now mark.target mark.level mark.context mark.variable place is_new branch code }
{
    let Mark {
        target,
        level,
        context,
        variable: v,
    } = mark;
    let k = counters.arg_c;
    let variable = variable_records::load(records, v);
    if record_marks::in_place(variable, context, place, k) {
        return evacuation::going(counters, code);
    }
    if is_new {
        let refusal = mark_safe_var(records, mappings, k, v, level, context, branch);
        return instructed(
            counters,
            code,
            refusal,
            targets::argument_to_variable(target, place, k),
        );
    }
    let valued = record_marks::argument_to_value(
        variable,
        target,
        place,
        k,
        counters.in_tail_position,
        branch,
    );
    keep_value(counters, records, v, valued, code)
}

// Whether a head's temporary is also an argument of the head, in that register.
#[tactic(auto, unfolding(crate::specs::ReservedVar::shallow_in_head))]
fn occurs_shallowly_in_head(records: &Records, sets: &VariableSets, v: u32, r: u32) -> bool
    ensures { result ≡ shallow_in_head records.now sets.now v r }
{
    let variable = variable_records::load(records, v);
    let allocation = variable.allocation;
    match allocation {
        VarAlloc::Temp { term_loc, .. } => match term_loc {
            GenContext::Head => {
                temp_var_data::contains_use(
                    &sets.use_sets,
                    &sets.use_counts,
                    v,
                    temp_var_data::head_use(r),
                )
            }
            GenContext::Mid(_) | GenContext::Last(_) => false,
        },
        VarAlloc::Perm(_, _) => false,
    }
}

// Whether a subterm's variable has been met before: it was marked, or it is an argument of the head too.
#[tactic(auto, unfolding(crate::specs::ReservedVar::met))]
fn is_met(
    records: &Records,
    sets: &VariableSets,
    context: GenContext,
    v: u32,
    place: RegType,
    is_new: bool,
) -> bool
    ensures { result ≡ met records.now sets.now context v place is_new }
{
    if !is_new {
        return true;
    }
    match context {
        GenContext::Mid(_) | GenContext::Last(_) => false,
        GenContext::Head => match place {
            RegType::Temp(r) | RegType::Perm(r) => occurs_shallowly_in_head(records, sets, v, r),
        },
    }
}

// The instruction for a subterm.
pub fn put_subterm(
    counters: Counters,
    records: &mut Records,
    mappings: &Mappings,
    sets: &VariableSets,
    mark: Mark,
    place: RegType,
    is_new: bool,
    branch: Branch,
    code: CodeDeque,
) -> Reached
    ensures { step records.new result ≡ subterm_made counters records.old mappings.now sets.now mark.target mark.context mark.variable place is_new branch code }
{
    let Mark {
        target,
        context,
        variable: v,
        ..
    } = mark;
    if is_met(records, sets, context, v, place, is_new) {
        let variable = variable_records::load(records, v);
        let valued = record_marks::subterm_to_value(variable, target, place, branch);
        return keep_value(counters, records, v, valued, code);
    }
    let refusal = mark_safe_var(
        records,
        mappings,
        counters.arg_c,
        v,
        Level::Deep,
        context,
        branch,
    );
    instructed(
        counters,
        code,
        refusal,
        targets::subterm_to_variable(target, place),
    )
}

// Empties the argument's register, where another variable than `v` is mapped to it.
fn empty_argument(
    counters: Counters,
    records: &mut Records,
    mappings: &mut Mappings,
    sets: &VariableSets,
    v: u32,
    chunk: u32,
    code: CodeDeque,
) -> Reached
    ensures { evacuation records.new mappings.new result ≡ others_out counters records.old mappings.old sets.now v chunk code }
{
    let Some(mapped) = shallow_temp_mappings::variable_at(mappings, counters.arg_c) else {
        return evacuation::going(counters, code);
    };
    if mapped == v {
        return evacuation::going(counters, code);
    }
    evacuation::evacuate_arg(counters, records, mappings, sets, chunk, code)
}

// The next argument's turn, unless the event was refused.
fn advanced(reached: Reached) -> Reached
    ensures { result ≡ advanced_by reached }
{
    if reached.refusal.is_some() {
        return reached;
    }
    let code = reached.code;
    let counters = Counters {
        arg_c: allocator_state::counter_after(reached.counters.arg_c),
        ..reached.counters
    };
    evacuation::going(counters, code)
}

// A variable as an argument.
pub fn mark_argument(
    counters: Counters,
    records: &mut Records,
    mappings: &mut Mappings,
    sets: &VariableSets,
    mark: Mark,
    place: RegType,
    is_new: bool,
    branch: Branch,
    code: CodeDeque,
) -> Reached
    ensures { evacuation records.new mappings.new result ≡ argument_marked counters records.old mappings.old sets.now mark.target mark.level mark.context mark.variable place is_new branch code }
{
    let emptied = empty_argument(
        counters,
        records,
        mappings,
        sets,
        mark.variable,
        forms::chunk_num(mark.context),
        code,
    );
    if emptied.refusal.is_some() {
        return emptied;
    }
    let before = emptied.counters;
    let moved = emptied.code;
    let made = put_argument(
        before, records, mappings, mark, place, is_new, branch, moved,
    );
    advanced(made)
}

// A line of a check sheet, and what refuses it: the lines before it, its numbers, and what is full.
#![tactic(auto)]

ghost use Rattle.std.specs.Prelude.{◌<◌, ◌≡◌, false, ◌&&◌};
ghost use Rattle.sizes.specs.Sizes.{steps as step_lines, instructions as step_instructions, is_register};
ghost use Rattle.steps.specs.Steps.{
  is_put_or_set,
  is_get_value_or_unify,
  takes_number,
  place_fits,
  step_fits,
  instruction_fits,
  fits,
};
ghost use Rattle.steps.specs.Order.{
  kind_of,
  step_breaks,
  misplaced_under,
  breaks_order,
  overfills,
  refusal_by,
  fresh_order,
  goal_after,
  begun,
  done,
  following,
  with_refusal,
  judged,
  refusal_at_end,
};

use bit_set::BitSet;
use instructions::Instruction;
use refusals::Refusal;
use registers::RegType;
use sizes::{INSTRUCTIONS, STEPS, VARIABLES};

// The kinds of the last step line.
pub const NO_STEP: u32 = 0;

pub const HEAD_STEP: u32 = 1;

pub const GOAL_STEP: u32 = 2;

pub const CALL_STEP: u32 = 3;

// A step line: argument k or a deep subterm is variable v, in the head or in a goal; or the goal is called.
#[derive(Clone, Copy)]
pub enum Step {
    Head(u32, u32),
    HeadDeep(u32),
    Goal(u32, u32),
    GoalDeep(u32),
    Call,
}

// A step line, or an instruction under the last one.
#[derive(Clone, Copy)]
pub enum CheckLine {
    Begins(Step),
    Does(Instruction),
}

// What the lines so far say of the next one: how many step lines there are; the kind of the last one, how many instructions
// stand under it, and whether one of them takes the step's number; and the arguments of the goal since the last `call`.
#[derive(Clone, Copy)]
pub struct Order {
    pub steps: u32,
    pub kind: u32,
    pub instructions: u32,
    pub number_taken: bool,
    pub goal: BitSet,
}

// The lines' order with a line that is accepted, or as it was; and the line's refusal. A struct and no Result, since the order
// is told of a refused line, too.
#[derive(Clone, Copy)]
pub struct Judged {
    pub order: Order,
    pub refusal: Option<Refusal>,
}

// Before the first line.
pub fn fresh_order() -> Order
    ensures { result ≡ fresh_order }
{
    Order {
        steps: 0,
        kind: NO_STEP,
        instructions: 0,
        number_taken: false,
        goal: bit_set::empty(),
    }
}

// ---- Order

// The kind of a step.
fn kind_of(step: Step) -> u32
    ensures { result ≡ kind_of step }
{
    match step {
        Step::Head(_, _) | Step::HeadDeep(_) => HEAD_STEP,
        Step::Goal(_, _) | Step::GoalDeep(_) => GOAL_STEP,
        Step::Call => CALL_STEP,
    }
}

// Whether an instruction is a Put or a Set.
fn is_put_or_set(instruction: Instruction) -> bool
    ensures { result ≡ is_put_or_set instruction }
{
    matches!(
        instruction,
        Instruction::PutVariable(_, _)
            | Instruction::PutValue(_, _)
            | Instruction::PutUnsafeValue(_, _)
            | Instruction::SetVariable(_)
            | Instruction::SetValue(_)
            | Instruction::SetLocalValue(_)
    )
}

// Whether it is `get_value` or a Unify.
fn is_get_value_or_unify(instruction: Instruction) -> bool
    ensures { result ≡ is_get_value_or_unify instruction }
{
    matches!(
        instruction,
        Instruction::GetValue(_, _)
            | Instruction::UnifyVariable(_)
            | Instruction::UnifyValue(_)
            | Instruction::UnifyLocalValue(_)
    )
}

// Whether it is `put_variable`, `set_variable` or a Unify: these take the step's number.
fn takes_number(instruction: Instruction) -> bool
    ensures { result ≡ takes_number instruction }
{
    matches!(
        instruction,
        Instruction::PutVariable(_, _)
            | Instruction::SetVariable(_)
            | Instruction::UnifyVariable(_)
            | Instruction::UnifyValue(_)
            | Instruction::UnifyLocalValue(_)
    )
}

// Whether a step is out of order: a head step after a goal step or a call, or an argument that the goal has already.
fn step_breaks(order: Order, step: Step) -> bool
    ensures { result ≡ step_breaks order step }
{
    match step {
        Step::Head(_, _) | Step::HeadDeep(_) => GOAL_STEP <= order.kind,
        Step::Goal(k, _) => bit_set::contains(order.goal, k),
        Step::GoalDeep(_) | Step::Call => false,
    }
}

// Whether an instruction may not stand under a step of a kind.
#[tactic(auto, unfolding(crate::specs::Order::misplaced_under))]
fn is_misplaced(kind: u32, instruction: Instruction) -> bool
    ensures { result ≡ misplaced_under kind instruction }
{
    match kind {
        HEAD_STEP => is_put_or_set(instruction),
        GOAL_STEP => is_get_value_or_unify(instruction),
        _ => true,
    }
}

// Whether a line is out of order.
fn breaks_order(order: Order, line: CheckLine) -> bool
    ensures { result ≡ breaks_order order line }
{
    match line {
        CheckLine::Begins(step) => step_breaks(order, step),
        CheckLine::Does(instruction) => {
            is_misplaced(order.kind, instruction)
                || (order.number_taken && takes_number(instruction))
        }
    }
}

// ---- Sizes

// Whether a place is a register or a slot that there is.
fn place_fits(place: RegType) -> bool
    ensures { result ≡ place_fits place }
{
    match place {
        RegType::Temp(r) | RegType::Perm(r) => sizes::is_register(r),
    }
}

// Whether every number of a step line is inside its size.
fn step_fits(step: Step) -> bool
    ensures { result ≡ step_fits step }
{
    match step {
        Step::Head(k, v) | Step::Goal(k, v) => sizes::is_register(k) && v < VARIABLES as u32,
        Step::HeadDeep(v) | Step::GoalDeep(v) => v < VARIABLES as u32,
        Step::Call => true,
    }
}

// Whether a place and an argument are inside their sizes.
fn place_and_argument_fit(place: RegType, k: u32) -> bool
    ensures { result ≡ (place_fits place && is_register k) }
{
    place_fits(place) && sizes::is_register(k)
}

// Whether every number of an instruction is inside its size.
fn instruction_fits(instruction: Instruction) -> bool
    ensures { result ≡ instruction_fits instruction }
{
    match instruction {
        Instruction::GetVariable(place, k)
        | Instruction::GetValue(place, k)
        | Instruction::PutVariable(place, k)
        | Instruction::PutValue(place, k) => place_and_argument_fit(place, k),
        Instruction::PutUnsafeValue(slot, k) => sizes::is_register(slot) && sizes::is_register(k),
        Instruction::SetVariable(place)
        | Instruction::SetValue(place)
        | Instruction::SetLocalValue(place)
        | Instruction::UnifyVariable(place)
        | Instruction::UnifyValue(place)
        | Instruction::UnifyLocalValue(place) => place_fits(place),
    }
}

// Whether every number of a line is inside its size.
fn fits(line: CheckLine) -> bool
    ensures { result ≡ fits line }
{
    match line {
        CheckLine::Begins(step) => step_fits(step),
        CheckLine::Does(instruction) => instruction_fits(instruction),
    }
}

// ---- Judgement

// Whether a line is one step line too many, or one instruction of its step.
fn overfills(order: Order, line: CheckLine) -> bool
    ensures { result ≡ overfills order line }
{
    match line {
        CheckLine::Begins(_) => STEPS as u32 <= order.steps,
        CheckLine::Does(_) => INSTRUCTIONS as u32 <= order.instructions,
    }
}

// The refusal of a line: by its order, then by its sizes, then by what is full.
#[tactic(auto, unfolding(crate::specs::Order::refusal_by))]
fn refusal_by(order: Order, line: CheckLine) -> Option<Refusal>
    ensures { result ≡ refusal_by order line }
{
    if breaks_order(order, line) {
        return Some(Refusal::Order);
    }
    if !fits(line) {
        return Some(Refusal::Size);
    }
    if overfills(order, line) {
        return Some(Refusal::Full);
    }
    None
}

// The arguments of the goal with a step's; `call` ends the goal.
fn goal_after(goal: BitSet, step: Step) -> BitSet
    ensures { result ≡ goal_after goal step }
{
    match step {
        Step::Goal(k, _) => bit_set::insert(goal, k),
        Step::Call => bit_set::empty(),
        Step::Head(_, _) | Step::HeadDeep(_) | Step::GoalDeep(_) => goal,
    }
}

// The order with a step line.
fn begun(order: Order, step: Step) -> Order
    requires { order.steps < step_lines }
    ensures { result ≡ begun order step }
{
    Order {
        steps: order.steps + 1,
        kind: kind_of(step),
        instructions: 0,
        number_taken: false,
        goal: goal_after(order.goal, step),
    }
}

// The order with an instruction.
fn done(order: Order, instruction: Instruction) -> Order
    requires { order.instructions < step_instructions }
    ensures { result ≡ done order instruction }
{
    Order {
        instructions: order.instructions + 1,
        number_taken: order.number_taken || takes_number(instruction),
        ..order
    }
}

// An order and a refusal.
fn with_refusal(order: Order, refusal: Option<Refusal>) -> Judged
    ensures { result ≡ with_refusal order refusal }
{
    Judged { order, refusal }
}

// The order with a line that is accepted.
fn following(order: Order, line: CheckLine) -> Order
    requires { overfills order line ≡ false }
    ensures { result ≡ following order line }
{
    match line {
        CheckLine::Begins(step) => begun(order, step),
        CheckLine::Does(instruction) => done(order, instruction),
    }
}

// The refusal of the next line, and the order with it where it is accepted.
#[tactic(auto, unfolding(crate::specs::Order::judged, crate::specs::Order::judged_as))]
pub fn judge(order: Order, line: CheckLine) -> Judged
    ensures { result ≡ judged order line }
{
    let refusal = refusal_by(order, line);
    match refusal {
        None => with_refusal(following(order, line), refusal),
        Some(_) => with_refusal(order, refusal),
    }
}

// The refusal of a sheet that ends here: goal steps have no `call` after them.
#[tactic(auto, unfolding(crate::specs::Order::refusal_at_end))]
pub fn refusal_at_end(order: Order) -> Option<Refusal>
    ensures { result ≡ refusal_at_end order }
{
    match order.kind {
        GOAL_STEP => Some(Refusal::Order),
        _ => None,
    }
}

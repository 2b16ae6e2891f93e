// The instruction that a fact or a query needs for a variable: one for argument `k` and one for a subterm, where the
// variable occurs for the first time, and others where it occurs again.
#![tactic(auto)]

ghost use Rattle.std.specs.Prelude.{◌≡◌};
ghost use Rattle.targets.specs.Targets.{argument_to_variable, argument_to_value, unsafe_argument_to_value, move_to_register, subterm_to_variable, subterm_to_value, unsafe_subterm_to_value};

use instructions::Instruction;
use registers::RegType;

#[derive(Clone, Copy)]
pub enum Target {
    Fact,
    Query,
}

// Argument `k`, for the first time.
pub fn argument_to_variable(target: Target, r: RegType, k: u32) -> Instruction
    ensures { result ≡ argument_to_variable target r k }
{
    match target {
        Target::Fact => Instruction::GetVariable(r, k),
        Target::Query => Instruction::PutVariable(r, k),
    }
}

// Argument `k`, again.
pub fn argument_to_value(target: Target, r: RegType, k: u32) -> Instruction
    ensures { result ≡ argument_to_value target r k }
{
    match target {
        Target::Fact => Instruction::GetValue(r, k),
        Target::Query => Instruction::PutValue(r, k),
    }
}

// Argument `k`, again, of a variable that is not safe yet: a query's slot has an instruction of its own.
pub fn unsafe_argument_to_value(target: Target, r: RegType, k: u32) -> Instruction
    ensures { result ≡ unsafe_argument_to_value target r k }
{
    match target {
        Target::Fact => Instruction::GetValue(r, k),
        Target::Query => match r {
            RegType::Perm(p) => Instruction::PutUnsafeValue(p, k),
            RegType::Temp(_) => Instruction::PutValue(r, k),
        },
    }
}

// Argument `k`, moved to another place: the same for both.
pub fn move_to_register(r: RegType, k: u32) -> Instruction
    ensures { result ≡ move_to_register r k }
{
    Instruction::GetVariable(r, k)
}

// A subterm, for the first time.
pub fn subterm_to_variable(target: Target, r: RegType) -> Instruction
    ensures { result ≡ subterm_to_variable target r }
{
    match target {
        Target::Fact => Instruction::UnifyVariable(r),
        Target::Query => Instruction::SetVariable(r),
    }
}

// A subterm, again.
pub fn subterm_to_value(target: Target, r: RegType) -> Instruction
    ensures { result ≡ subterm_to_value target r }
{
    match target {
        Target::Fact => Instruction::UnifyValue(r),
        Target::Query => Instruction::SetValue(r),
    }
}

// A subterm, again, of a variable that is not safe yet.
pub fn unsafe_subterm_to_value(target: Target, r: RegType) -> Instruction
    ensures { result ≡ unsafe_subterm_to_value target r }
{
    match target {
        Target::Fact => Instruction::UnifyLocalValue(r),
        Target::Query => Instruction::SetLocalValue(r),
    }
}

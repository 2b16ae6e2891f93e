// What a mark does to the record of its variable: the instruction that hands the variable on, and its safety afterwards.
#![tactic(auto)]

ghost use Rattle.std.specs.Prelude.{◌≡◌};
ghost use Rattle.record_marks.specs.RecordMarks.{
  argument_value,
  argument_safe,
  subterm_value,
  safe_in,
  safe_argument,
  marked_safe,
  marked_unconditionally,
  stored_in_place,
  in_place,
  remembered_perm,
};

use forms::{Branch, GenContext, Level};
use instructions::Instruction;
use registers::RegType;
use targets::Target;
use variable_records::{PermVarAllocation, VarAlloc, VarSafetyStatus, VariableRecord};

// A record afterwards, and the instruction that hands its variable on.
#[derive(Clone, Copy)]
pub struct Valued {
    pub variable: VariableRecord,
    pub instruction: Instruction,
}

// Whether an argument needs no guard: not in the tail position, or not in this branch.
fn argument_safe(in_tail_position: u32, safety: VarSafetyStatus, branch: Branch) -> bool
    ensures { result ≡ argument_safe in_tail_position safety branch }
{
    if in_tail_position == 0 {
        return true;
    }
    variable_records::safety_unneeded_in_branch(safety, branch)
}

// An argument whose variable has been met before; none where the original stops.
#[tactic(auto, unfolding(crate::specs::RecordMarks::argument_value_of))]
pub fn argument_to_value(
    variable: VariableRecord,
    target: Target,
    place: RegType,
    k: u32,
    in_tail_position: u32,
    branch: Branch,
) -> Option<Valued>
    ensures { result ≡ argument_value variable target place k in_tail_position branch }
{
    match variable.allocation {
        VarAlloc::Temp { .. } => Some(Valued {
            variable,
            instruction: targets::argument_to_value(target, place, k),
        }),
        VarAlloc::Perm(_, PermVarAllocation::Pending) => None,
        VarAlloc::Perm(
            slot,
            PermVarAllocation::Done {
                shallow_safety,
                deep_safety,
            },
        ) => {
            if argument_safe(in_tail_position, shallow_safety, branch) {
                return Some(Valued {
                    variable,
                    instruction: targets::argument_to_value(target, place, k),
                });
            }
            let guarded = PermVarAllocation::Done {
                shallow_safety: variable_records::unneeded(branch),
                deep_safety,
            };
            Some(Valued {
                variable: variable.allocated(VarAlloc::Perm(slot, guarded)),
                instruction: targets::unsafe_argument_to_value(target, place, k),
            })
        }
    }
}

// A subterm whose variable has been met before; none where the original stops.
#[tactic(auto, unfolding(crate::specs::RecordMarks::subterm_value_of))]
pub fn subterm_to_value(
    variable: VariableRecord,
    target: Target,
    place: RegType,
    branch: Branch,
) -> Option<Valued>
    ensures { result ≡ subterm_value variable target place branch }
{
    let (safety, guarded) = match variable.allocation {
        VarAlloc::Temp {
            term_loc,
            temp_reg,
            safety,
            to_perm_var_num,
        } => (
            safety,
            VarAlloc::Temp {
                term_loc,
                temp_reg,
                safety: variable_records::unneeded(branch),
                to_perm_var_num,
            },
        ),
        VarAlloc::Perm(_, PermVarAllocation::Pending) => return None,
        VarAlloc::Perm(
            slot,
            PermVarAllocation::Done {
                shallow_safety,
                deep_safety,
            },
        ) => (
            deep_safety,
            VarAlloc::Perm(
                slot,
                PermVarAllocation::Done {
                    shallow_safety,
                    deep_safety: variable_records::unneeded(branch),
                },
            ),
        ),
    };
    if variable_records::safety_unneeded_in_branch(safety, branch) {
        return Some(Valued {
            variable,
            instruction: targets::subterm_to_value(target, place),
        });
    }
    Some(Valued {
        variable: variable.allocated(guarded),
        instruction: targets::unsafe_subterm_to_value(target, place),
    })
}

// What becomes of a variable that is met for the first time.
#[derive(Clone, Copy)]
pub enum MarkedSafe {
    // Its record afterwards.
    Safe(VariableRecord),
    // It takes its value from the temporary in the argument's register, which remembers it.
    FromTemporary,
}

// A permanent variable's record, safe as an argument and as a subterm as far as that branch goes.
fn safe_in(variable: VariableRecord, slot: u32, branch: Branch) -> VariableRecord
    ensures { result ≡ safe_in variable slot branch }
{
    let safe = variable_records::unneeded(branch);
    variable.allocated(VarAlloc::Perm(
        slot,
        PermVarAllocation::Done {
            shallow_safety: safe,
            deep_safety: safe,
        },
    ))
}

// A variable that is met for the first time, at a level and in a context; none where the original stops.
pub fn mark_safe_var(
    variable: VariableRecord,
    level: Level,
    context: GenContext,
    branch: Branch,
) -> Option<MarkedSafe>
    ensures { result ≡ marked_safe variable level context branch }
{
    match variable.allocation {
        VarAlloc::Temp {
            term_loc,
            temp_reg,
            to_perm_var_num,
            ..
        } => Some(MarkedSafe::Safe(variable.allocated(VarAlloc::Temp {
            term_loc,
            temp_reg,
            safety: VarSafetyStatus::GloballyUnneeded,
            to_perm_var_num,
        }))),
        VarAlloc::Perm(_, PermVarAllocation::Pending) => None,
        VarAlloc::Perm(slot, PermVarAllocation::Done { deep_safety, .. }) => match level {
            Level::Deep => Some(MarkedSafe::Safe(safe_in(variable, slot, branch))),
            Level::Root | Level::Shallow => {
                Some(safe_argument(variable, slot, deep_safety, context))
            }
        },
    }
}

// As an argument: in the head the copy is safe as an argument, and only so.
fn safe_argument(
    variable: VariableRecord,
    slot: u32,
    deep: VarSafetyStatus,
    context: GenContext,
) -> MarkedSafe
    ensures { result ≡ safe_argument variable slot deep context }
{
    match context {
        GenContext::Head => MarkedSafe::Safe(variable.allocated(VarAlloc::Perm(
            slot,
            PermVarAllocation::Done {
                shallow_safety: VarSafetyStatus::GloballyUnneeded,
                deep_safety: deep,
            },
        ))),
        GenContext::Mid(_) | GenContext::Last(_) => MarkedSafe::FromTemporary,
    }
}

// The record of a variable that is said to be safe from here on; none where the original stops.
pub fn mark_safe_var_unconditionally(
    variable: VariableRecord,
    branch: Branch,
) -> Option<VariableRecord>
    ensures { result ≡ marked_unconditionally variable branch }
{
    match variable.allocation {
        VarAlloc::Temp {
            term_loc,
            temp_reg,
            to_perm_var_num,
            ..
        } => Some(variable.allocated(VarAlloc::Temp {
            term_loc,
            temp_reg,
            safety: variable_records::unneeded(branch),
            to_perm_var_num,
        })),
        VarAlloc::Perm(_, PermVarAllocation::Pending) => None,
        VarAlloc::Perm(slot, PermVarAllocation::Done { .. }) => {
            Some(safe_in(variable, slot, branch))
        }
    }
}

// Whether the variable's stored register is the argument's.
fn stored_in_place(variable: VariableRecord, r: u32, k: u32) -> bool
    ensures { result ≡ stored_in_place variable.allocation r k }
{
    match variable.allocation {
        VarAlloc::Temp { temp_reg, .. } => r == k && temp_reg == k,
        VarAlloc::Perm(..) => false,
    }
}

// Whether an argument stands in its place already. The stored register of a new temporary is not yet the chosen one, so
// outside the head a new temporary never does.
pub fn in_place(variable: VariableRecord, context: GenContext, place: RegType, k: u32) -> bool
    ensures { result ≡ in_place variable context place k }
{
    match place {
        RegType::Perm(r) => stored_in_place(variable, r, k),
        RegType::Temp(r) => match context {
            GenContext::Head => r == k,
            GenContext::Mid(_) | GenContext::Last(_) => stored_in_place(variable, r, k),
        },
    }
}

// A temporary remembers the permanent variable that it is moved to; at any other variable the original stops.
pub fn remember_perm(variable: VariableRecord, v: u32) -> Option<VariableRecord>
    ensures { result ≡ remembered_perm variable v }
{
    match variable.allocation {
        VarAlloc::Temp {
            term_loc,
            temp_reg,
            safety,
            ..
        } => Some(variable.allocated(VarAlloc::Temp {
            term_loc,
            temp_reg,
            safety,
            to_perm_var_num: v,
        })),
        VarAlloc::Perm(..) => None,
    }
}

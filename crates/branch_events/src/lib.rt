// The events of branches: the counters afterwards, or the refusal.
#![tactic(auto)]

ghost use Rattle.std.specs.Prelude.{◌≡◌};
ghost use Rattle.branch_events.specs.BranchEvents.{stack_of, branch_of, left_open, opened, armed, stock_taken, closed};

use allocator_state::Counters;
use branch_stack::BranchStack;
use branches::BranchError;
use forms::Branch;
use freeing::Released;
use refusals::Refusal;
use variable_records::Records;

// The counters with so many branches open, or the refusal.
fn left_open(counters: Counters, outcome: Result<u32, BranchError>) -> Released
    ensures { result ≡ left_open counters outcome }
{
    match outcome {
        Ok(open_branches) => Released {
            counters: Counters {
                open_branches,
                ..counters
            },
            refusal: None,
        },
        Err(error) => Released {
            counters,
            refusal: Some(error.refusal()),
        },
    }
}

// `open`: a branch of so many arms.
pub fn open(
    counters: Counters,
    stack: &mut BranchStack,
    start: u32,
    span: u32,
    arms: u32,
) -> Released
    ensures { stack_of stack.new.rows stack.new.sets result ≡ opened counters stack.old.rows stack.old.sets start span arms }
{
    let branch = Branch { start, span };
    let opened = branches::add_branch_stack(stack, counters.open_branches, branch, arms);
    left_open(counters, opened)
}

// `arm`: the innermost branch goes on to its next arm.
pub fn arm(counters: Counters, stack: &mut BranchStack, start: u32, span: u32) -> Released
    ensures { stack_of stack.new.rows stack.new.sets result ≡ armed counters stack.old.rows stack.old.sets start span }
{
    let branch = Branch { start, span };
    let advanced = branches::incr_current_branch(stack, counters.open_branches, branch);
    Released {
        counters,
        refusal: branches::refusal_of(advanced),
    }
}

// `take`: stock is taken of what the innermost branch recorded.
pub fn take(counters: Counters, records: &mut Records, stack: &mut BranchStack) -> Released
    ensures { branch_of records.new stack.new.rows stack.new.sets result ≡ stock_taken counters records.old stack.old.rows stack.old.sets }
{
    let taken = branches::add_branch(records, stack, counters.open_branches);
    Released {
        counters,
        refusal: branches::refusal_of(taken),
    }
}

// `close`: so many branches are removed, and the variables are given out again.
pub fn close(
    counters: Counters,
    records: &mut Records,
    stack: &mut BranchStack,
    depth: u32,
    variables: &[u32],
) -> Released
    ensures { branch_of records.new stack.new.rows stack.new.sets result ≡ closed counters records.old stack.old.rows stack.old.sets depth variables.now }
{
    let popped = branches::pop_branch(records, stack, counters.open_branches, depth, variables);
    left_open(counters, popped)
}

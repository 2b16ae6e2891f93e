// The events that only set numbers: a head's arguments, the argument counter, resets, freed registers, counts, the tail
// position, and a variable said to be safe.
#![tactic(auto)]

ghost use Rattle.std.specs.Prelude.{◌≡◌, length};
ghost use Rattle.freeing.specs.Freeing.{release};
ghost use Rattle.resets.specs.Resets.{
  head_arguments,
  arg_reset,
  awaits_register,
  heading,
  argument_placed,
  head_reset,
  arg_advanced,
  clearing,
  contents_reset,
  whole_reset,
  free_list_reset,
  tail_set,
  register_freed,
  answer,
  running_incremented,
  safe_marked,
};

use allocation::TempFreeList;
use allocator_state::Counters;
use branch_stack::BranchStack;
use freeing::Released;
use refusals::Refusal;
use registers::RegType;
use shallow_temp_mappings::Mappings;
use sizes::{FREED_REGISTERS, LAST_COUNT, LAST_REGISTER, VARIABLES};
use variable_records::{Records, VariableRecord};

// The arguments of a goal are to be marked from the first on; registers are searched for behind them.
pub fn reset_arg(counters: Counters, arity: u32) -> Counters
    ensures { result ≡ arg_reset counters arity }
{
    Counters {
        arity: 0,
        arg_c: 1,
        temp_lb: allocator_state::counter_after(arity),
        ..counters
    }
}

// How many arguments a head has; none counts past the last register.
fn argument_count(arguments: &[u32]) -> usize
    ensures { result ≡ length (head_arguments arguments.now) }
{
    arguments.len().min(LAST_REGISTER as usize)
}

// Whether an argument is a temporary variable that has no register yet.
#[tactic(auto, unfolding(crate::specs::Resets::awaits_register))]
fn awaits_register(records: &Records, v: u32) -> bool
    ensures { result ≡ awaits_register records.now v }
{
    if VARIABLES as u32 <= v {
        return false;
    }
    let variable = variable_records::load(records, v);
    match variable.as_reg_type() {
        RegType::Temp(r) => r == 0,
        RegType::Perm(_) => false,
    }
}

// Argument k of a head: a temporary variable that has no register yet is in register k.
fn place_argument(
    counters: Counters,
    records: &mut Records,
    mappings: &mut Mappings,
    k: u32,
    v: u32,
) -> Counters
    ensures { heading records.new mappings.new result ≡ argument_placed (heading records.old mappings.old counters) k v }
{
    if awaits_register(records, v) {
        shallow_temp_mappings::insert(mappings, k, v);
        let variable = variable_records::load(records, v);
        variable_records::store(records, v, variable.set_register(k));
        return Counters {
            in_use: bit_set::insert(counters.in_use, k),
            ..counters
        };
    }
    counters
}

// A head: each argument, a variable or a number of none, stands in the register of its number.
pub fn reset_at_head(
    counters: Counters,
    records: &mut Records,
    mappings: &mut Mappings,
    arguments: &[u32],
) -> Counters
    ensures { heading records.new mappings.new result ≡ head_reset counters records.old mappings.old arguments.now }
{
    let count = argument_count(arguments);
    let mut headed = Counters {
        arity: count as u32,
        ..reset_arg(counters, count as u32)
    };
    for (i, v) in arguments[..count].iter().enumerate() {
        headed = place_argument(headed, records, mappings, i as u32 + 1, *v);
    }
    headed
}

// On to the next argument.
pub fn advance_arg(counters: Counters) -> Counters
    ensures { result ≡ arg_advanced counters }
{
    Counters {
        arg_c: allocator_state::counter_after(counters.arg_c),
        ..counters
    }
}

// From here on no register is in use, mapped to a variable or freed.
#[tactic(auto, unfolding(crate::specs::Resets::contents_reset))]
pub fn reset_contents(counters: Counters, mappings: &mut Mappings) -> Counters
    ensures { clearing mappings.new result ≡ contents_reset counters }
{
    *mappings = [VARIABLES as u32; LAST_REGISTER as usize + 1];
    Counters {
        in_use: bit_set::empty(),
        freed_registers: 0,
        ..counters
    }
}

// The same, and slots are given out from the first on.
pub fn reset(counters: Counters, mappings: &mut Mappings) -> Counters
    ensures { clearing mappings.new result ≡ whole_reset counters }
{
    Counters {
        perm_lb: 1,
        ..reset_contents(counters, mappings)
    }
}

// From here on no register is freed.
pub fn reset_free_list(counters: Counters) -> Counters
    ensures { result ≡ free_list_reset counters }
{
    Counters {
        freed_registers: 0,
        ..counters
    }
}

// Sets whether the goal at hand is in the tail position, 1 or 0.
pub fn set_tail_position(counters: Counters, tail: u32) -> Counters
    ensures { result ≡ tail_set counters tail }
{
    Counters {
        in_tail_position: tail,
        ..counters
    }
}

// Frees a register: it is no longer in use, and joins the list of freed registers, unless that is full.
pub fn add_reg_to_free_list(counters: Counters, list: &mut TempFreeList, r: u32) -> Released
    ensures { release list.new result ≡ register_freed counters list.old r }
{
    let count = counters.freed_registers;
    if FREED_REGISTERS as u32 <= count {
        return Released {
            counters,
            refusal: Some(Refusal::Full),
        };
    }
    list[count as usize] = r;
    Released {
        counters: Counters {
            in_use: bit_set::remove(counters.in_use, r),
            freed_registers: count + 1,
            ..counters
        },
        refusal: None,
    }
}

// Counts an occurrence of a variable, unless its count is at its last number.
pub fn increment_running_count(records: &mut Records, v: u32) -> Option<Refusal>
    ensures { answer records.new result ≡ running_incremented records.old v }
{
    let variable = variable_records::load(records, v);
    if LAST_COUNT <= variable.running_count {
        return Some(Refusal::Full);
    }
    let counted = VariableRecord {
        running_count: variable.running_count + 1,
        ..variable
    };
    variable_records::store(records, v, counted);
    None
}

// A variable is said to be safe from here on; one that waits for its slot cannot be.
#[tactic(auto, unfolding(crate::specs::Resets::safe_marked))]
pub fn mark_safe_var_unconditionally(
    records: &mut Records,
    stack: &BranchStack,
    open_branches: u32,
    v: u32,
) -> Option<Refusal>
    ensures { answer records.new result ≡ safe_marked records.old stack.now.rows open_branches v }
{
    let branch = stack.current_branch_designator(open_branches);
    let variable = variable_records::load(records, v);
    match record_marks::mark_safe_var_unconditionally(variable, branch) {
        Some(safe) => {
            variable_records::store(records, v, safe);
            None
        }
        None => Some(Refusal::Stop),
    }
}

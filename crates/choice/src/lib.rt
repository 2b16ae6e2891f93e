// The choice of a register: for a variable, one of its use set that is not in use, or else the least that is free; for
// another term, the least that is not in the set.
#![tactic(auto)]

ghost use Rattle.std.specs.Prelude.{◌≡◌};
ghost use Rattle.choice.specs.Choice.{in_use, is_free, first_unused, least_free, least_outside, chosen};

use allocator_state::Counters;
use bit_set::BitSet;
use sizes::LAST_REGISTER;

// Whether a register is in use: an argument of the head that is yet to come, or one of the set.
#[tactic(auto, unfolding(crate::specs::Choice::in_use))]
pub fn is_in_use(counters: Counters, r: u32) -> bool
    ensures { result ≡ in_use counters r }
{
    counters.arg_c <= r && r <= counters.arity || bit_set::contains(counters.in_use, r)
}

// The first register of a use set that is not in use.
pub fn first_unused(counters: Counters, use_set: &[u32]) -> Option<u32>
    ensures { result ≡ first_unused counters use_set.now }
{
    use_set
        .iter()
        .map(|code| temp_var_data::register_of(*code))
        .find(|r| !is_in_use(counters, *r))
}

// Whether a register is neither in use nor in `avoided`.
#[tactic(auto, unfolding(crate::specs::Choice::is_free))]
fn is_free(counters: Counters, avoided: BitSet, r: u32) -> bool
    ensures { result ≡ is_free counters avoided r }
{
    !is_in_use(counters, r) && !bit_set::contains(avoided, r)
}

// The least register from `temp_lb` that is neither in use nor in `avoided`.
pub fn least_free(counters: Counters, avoided: BitSet) -> Option<u32>
    ensures { result ≡ least_free counters avoided }
{
    (counters.temp_lb..LAST_REGISTER + 1).find(|r| is_free(counters, avoided, *r))
}

// The least register from `temp_lb` that is not in the set: with no argument to come, only the set bars a register.
pub fn least_outside(counters: Counters) -> Option<u32>
    ensures { result ≡ least_outside counters }
{
    let no_arguments = Counters {
        arg_c: 1,
        arity: 0,
        ..counters
    };
    least_free(no_arguments, bit_set::empty())
}

// The register for a variable with that use set: one of the set, or else the least that it need not avoid.
pub fn choose(counters: Counters, use_set: &[u32], avoided: BitSet) -> Option<u32>
    ensures { result ≡ chosen counters use_set.now avoided }
{
    first_unused(counters, use_set).or_else(|| least_free(counters, avoided))
}

// Sets of numbers from 0 to 63, registers or variables: one 64-bit word, a bit a member.
#![tactic(auto)]

ghost use Rattle.std.specs.Prelude.{◌≡◌, ◌^◌, ◌≤◌};
ghost use Rattle.bit_set.specs.BitSet.{last_member, has, empty_set, inserted, removed, union};
ghost use Rattle.bit_set.specs.Collected.{less};
ghost use Rattle.bit_set.specs.Search.{numbers_below, numbers_between, first_clear};

// A word and no struct, since a C host lends tables of them.
pub type BitSet = u64;

// The last number that the word has a bit for.
const LAST_MEMBER: u32 = 63;

// The set with no member.
pub fn empty() -> BitSet
    ensures { result ≡ empty_set }
{
    0
}

// The word whose one member is `n`.
fn single(n: u32) -> BitSet
    requires { n ≤ last_member }
    ensures { result ≡ 2 ^ n }
{
    1u64 << n
}

// Whether `n` is a member of `s`; no set has a member above 63.
pub fn contains(s: BitSet, n: u32) -> bool
    ensures { result ≡ has s n }
{
    if n <= LAST_MEMBER {
        s & single(n) != 0
    } else {
        false
    }
}

// `s` with `n`; a number above 63 is left out.
pub fn insert(s: BitSet, n: u32) -> BitSet
    ensures { result ≡ inserted s n }
{
    if n <= LAST_MEMBER { s | single(n) } else { s }
}

// `s` without `n`.
pub fn remove(s: BitSet, n: u32) -> BitSet
    ensures { result ≡ removed s n }
{
    if n <= LAST_MEMBER { s & !single(n) } else { s }
}

// The members of `s` and those of `t`.
pub fn union_with(s: BitSet, t: BitSet) -> BitSet
    ensures { result ≡ union s t }
{
    s | t
}

// The members of `s` that are none of `t`.
pub fn without(s: BitSet, t: BitSet) -> BitSet
    ensures { result ≡ less s t }
{
    s & !t
}

// The numbers below `n`.
fn below(n: u32) -> BitSet
    ensures { result ≡ numbers_below n }
{
    if n <= LAST_MEMBER {
        single(n) - 1
    } else {
        !empty()
    }
}

// The numbers from `first` to `last`, both included: none where `last` is before `first`, and none above 63.
pub fn between(first: u32, last: u32) -> BitSet
    ensures { result ≡ numbers_between first last }
{
    without(insert(below(last), last), below(first))
}

// The first number of all that is no member of `s`: the lowest 1 of the complement, found by counting the zeros below it.
fn least_clear(s: BitSet) -> u32
    ensures { result ≡ first_clear s 0 }
{
    u64::trailing_zeros(!s)
}

// The first number from `from` on that is no member of `s`: above 63 that is `from` itself.
pub fn first_clear(s: BitSet, from: u32) -> u32
    ensures { result ≡ first_clear s from }
{
    if from <= LAST_MEMBER {
        from + least_clear(s >> from)
    } else {
        from
    }
}

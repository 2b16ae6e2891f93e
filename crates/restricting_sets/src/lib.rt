// The sets of all variables, and the restricting sets among them: which registers the uses of others keep from each
// temporary, and its conflict set.
#![tactic(auto)]

ghost use Rattle.std.specs.Prelude.{◌≡◌};
ghost use Rattle.temp_var_data.specs.Uses.{last_context, uses_of};
ghost use Rattle.restricting_sets.specs.Restricting.{chunk_of, is_temporary, no_use_of, conflict_at, Populated};
ghost use Rattle.restricting_sets.specs.StepLaws.{with_use, last_uses, with_last};

use bit_set::BitSet;
use register_sets::RegisterSets;
use sizes::VARIABLES;
use temp_var_data::{UseCounts, UseSets};

// The uses of each variable, how many of them count, and the registers that it should not take and those of its conflicts,
// which follow from them.
#[repr(C)]
#[derive(Clone, Copy)]
pub struct VariableSets {
    pub use_sets: UseSets,
    pub use_counts: UseCounts,
    pub no_use: RegisterSets,
    pub conflict: RegisterSets,
}

// Of each variable its chunk, where it is a temporary.
pub type Chunks = [Option<u32>; VARIABLES];

// The chunk of `v`, where it is a temporary. A number past the last chunk is none.
fn chunk_of(chunks: &Chunks, v: u32) -> Option<u32>
    ensures { result ≡ chunk_of chunks.now v }
{
    let row = v as usize;
    if VARIABLES <= row {
        return None;
    }
    chunks[row].filter(|chunk| sizes::is_chunk(*chunk))
}

// Whether `v` is a temporary.
#[tactic(auto, unfolding(crate::specs::Restricting::is_temporary))]
fn is_temporary(chunks: &Chunks, v: u32) -> bool
    ensures { result ≡ is_temporary chunks.now v }
{
    chunk_of(chunks, v).is_some()
}

// `registers` with that of a use, if it is one in the last goal of `chunk`.
fn with_use(registers: BitSet, chunk: u32, code: u32) -> BitSet
    ensures { result ≡ with_use (last_context chunk) registers code }
{
    let reg = temp_var_data::register_of(code);
    if temp_var_data::last_use(chunk, reg) != code {
        return registers;
    }
    bit_set::insert(registers, reg)
}

// The registers that `u` uses in the last goal of `chunk`.
fn last_uses(sets: &VariableSets, u: u32, chunk: u32) -> BitSet
    ensures { result ≡ last_uses (uses_of sets.now.use_sets sets.now.use_counts u) chunk }
{
    let use_set = temp_var_data::uses_of(&sets.use_sets, &sets.use_counts, u);
    let mut registers = bit_set::empty();
    for code in use_set {
        registers = with_use(registers, chunk, *code);
    }
    registers
}

// The no-use set of `v`, which uses the registers `own`, after those that `u` uses in the last goal. The Rust puts all use
// sets aside and each back after its turn, so that at the turn of `u` nothing is seen of what a later `v` uses.
fn with_uses(no_use_set: BitSet, last: BitSet, own: BitSet, u: u32, v: u32) -> BitSet
    ensures { result ≡ with_last no_use_set last own u v }
{
    if u == v {
        return no_use_set;
    }
    if u < v {
        return bit_set::union_with(no_use_set, last);
    }
    bit_set::union_with(no_use_set, bit_set::without(last, own))
}

// The no-use set of `v` after the uses of all; what it was where `v` is no temporary.
fn no_use_of(no_use_set: BitSet, sets: &VariableSets, chunks: &Chunks, v: u32) -> BitSet
    ensures { result ≡ no_use_of sets.now.use_sets sets.now.use_counts chunks.now no_use_set v }
{
    let Some(chunk) = chunk_of(chunks, v) else {
        return no_use_set;
    };
    let own = temp_var_data::used_registers(&sets.use_sets, &sets.use_counts, v);
    let mut set = no_use_set;
    for u in 0..VARIABLES as u32 {
        if let Some(_) = chunk_of(chunks, u) {
            let last = last_uses(sets, u, chunk);
            set = with_uses(set, last, own, u, v);
        }
    }
    set
}

// The conflict set of `v`; what it was where `v` is no temporary.
fn conflict_of(conflict_set: BitSet, sets: &VariableSets, chunks: &Chunks, v: u32) -> BitSet
    ensures { result ≡ conflict_at sets.now.use_sets sets.now.use_counts chunks.now conflict_set v }
{
    if !is_temporary(chunks, v) {
        return conflict_set;
    }
    temp_var_data::populate_conflict_set(&sets.use_sets, &sets.use_counts, v)
}

// The no-use and the conflict sets of all temporaries; those of other variables stay.
pub fn populate_restricting_sets(sets: &mut VariableSets, chunks: &Chunks)
    ensures { Populated chunks.now sets.old sets.new }
{
    for v in 0..VARIABLES as u32 {
        let no_use_set = register_sets::load(&sets.no_use, v);
        let restricted = no_use_of(no_use_set, sets, chunks, v);
        register_sets::store(&mut sets.no_use, v, restricted);
        let conflict_set = register_sets::load(&sets.conflict, v);
        let conflicting = conflict_of(conflict_set, sets, chunks, v);
        register_sets::store(&mut sets.conflict, v, conflicting);
    }
}

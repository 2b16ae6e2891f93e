// Use sets, and the conflict sets that follow from them. They stand beside the records: a table with a row a variable,
// and beside it how many entries of each row count. Arrays with counts, since a C host lends them and their memory is fixed.
#![tactic(auto)]

ghost use Rattle.std.specs.Prelude.{◌≡◌, min};
ghost use Rattle.sizes.specs.Sizes.{uses};
ghost use Rattle.bit_set.specs.Collected.{collected};
ghost use Rattle.temp_var_data.specs.Uses.{head_context, mid_context, last_context, use_code, context_of, register_of};
ghost use Rattle.temp_var_data.specs.Uses.{uses_of, uses_register, contains_use, up_to, conflict_of, UseAdded};

use bit_set::BitSet;
use sizes::{USES, VARIABLES};

// Entries of all rows.
pub const ENTRIES: usize = VARIABLES * USES;

pub type UseSets = [u32; ENTRIES];

pub type UseCounts = [u32; VARIABLES];

// A use is one number: a register takes its lowest byte and a chunk the next. A larger number is cut to its lowest byte.
const BYTE: u32 = 256;
// The contexts of chunk 0, in its middle and in its last goal; the head's is 0.
const MID: u32 = 256;

const LAST: u32 = 512;

// The use of a register in the head.
pub fn head_use(register: u32) -> u32
    ensures { result ≡ use_code head_context register }
{
    register % BYTE
}

// The use of a register in the middle of a chunk.
pub fn mid_use(chunk: u32, register: u32) -> u32
    ensures { result ≡ use_code (mid_context chunk) register }
{
    BYTE * (MID + chunk % BYTE) + register % BYTE
}

// The use of a register in the last goal of a chunk.
pub fn last_use(chunk: u32, register: u32) -> u32
    ensures { result ≡ use_code (last_context chunk) register }
{
    BYTE * (LAST + chunk % BYTE) + register % BYTE
}

// The context of a use, as a number.
pub fn context_of(code: u32) -> u32
    ensures { result ≡ context_of code }
{
    code / BYTE
}

// The register of a use.
pub fn register_of(code: u32) -> u32
    ensures { result ≡ register_of code }
{
    code % BYTE
}

// How many entries of a row count where `count` is written: no more than a row has.
fn counted(count: u32) -> usize
    ensures { result ≡ min count uses }
{
    count.min(USES as u32) as usize
}

// The use set of `v`, a part of the table; it is empty where there is no such variable.
pub fn uses_of<'a>(use_sets: &'a UseSets, use_counts: &UseCounts, v: u32) -> &'a [u32]
    ensures { result.now ≡ uses_of use_sets.now use_counts.now v }
{
    let entries = &use_sets[..];
    let counts = &use_counts[..];
    let row = v as usize;
    if counts.len() <= row {
        return &entries[0..0];
    }
    let first = row * USES;
    &entries[first..first + counted(counts[row])]
}

// The registers that `v` uses.
pub fn used_registers(use_sets: &UseSets, use_counts: &UseCounts, v: u32) -> BitSet
    ensures { result ≡ collected (uses_register (uses_of use_sets.now use_counts.now v)) }
{
    let use_set = uses_of(use_sets, use_counts, v);
    let mut registers = bit_set::empty();
    for code in use_set {
        registers = bit_set::insert(registers, register_of(*code));
    }
    registers
}

// Whether the use `code` stands in the use set of `v`.
pub fn contains_use(use_sets: &UseSets, use_counts: &UseCounts, v: u32, code: u32) -> bool
    ensures { result ≡ contains_use (uses_of use_sets.now use_counts.now v) code }
{
    uses_of(use_sets, use_counts, v).contains(&code)
}

// Puts the use `code` behind those of `v`. A repeat is ignored, and so is a use for which the row has no room.
pub fn add_use(use_sets: &mut UseSets, use_counts: &mut UseCounts, v: u32, code: u32)
    ensures { UseAdded use_sets.old use_counts.old v code use_sets.new use_counts.new }
{
    let row = v as usize;
    if VARIABLES <= row {
        return;
    }
    let count = use_counts[row];
    if USES as u32 <= count {
        return;
    }
    if contains_use(use_sets, use_counts, v, code) {
        return;
    }
    use_sets[row * USES + count as usize] = code;
    use_counts[row] = count + 1;
}

// The numbers 1 up to `end`, upper end excluded.
fn up_to(end: u32) -> BitSet
    ensures { result ≡ up_to end }
{
    let mut numbers = bit_set::empty();
    for n in 1..end {
        numbers = bit_set::insert(numbers, n);
    }
    numbers
}

// The conflict set of `v`: 1 up to the use set's size, upper end excluded, less every used register.
pub fn populate_conflict_set(use_sets: &UseSets, use_counts: &UseCounts, v: u32) -> BitSet
    ensures { result ≡ conflict_of (uses_of use_sets.now use_counts.now v) }
{
    let use_set = uses_of(use_sets, use_counts, v);
    let mut conflict_set = up_to(use_set.len() as u32);
    for code in use_set {
        conflict_set = bit_set::remove(conflict_set, register_of(*code));
    }
    conflict_set
}

// The sizes of sheets, tables and numbers, each named once, and the tests of a number against its size.
#![tactic(auto)]

ghost use Rattle.std.specs.Prelude.{◌≡◌, ◌&&◌};
ghost use Rattle.sizes.specs.Sizes.{is_register, is_argument, is_chunk, is_count};

// Variables of a clause, numbered from 0.
pub const VARIABLES: usize = 64;
// Uses of one variable.
pub const USES: usize = 16;
// Registers and slots are 1 to this; arguments and cells 0 to this.
pub const LAST_REGISTER: u32 = 63;
// `temp_lb`, `perm_lb` and the argument counter run from 1 to this.
pub const LAST_COUNTER: u32 = 64;
// Chunks are 0 to this.
pub const LAST_CHUNK: u32 = 255;
// Occurrences, running counts, arms and arm indices are 0 to this.
pub const LAST_COUNT: u32 = 65535;
// Branches open at a time.
pub const OPEN_BRANCHES: usize = 16;
// Entries of the list of freed registers.
pub const FREED_REGISTERS: usize = 64;
// Entries of the queue of freed slots.
pub const FREED_SLOTS: usize = 128;
// Bytes of a sheet, and bytes that the programs lend for the answer.
pub const SHEET_BYTES: usize = 65536;
// Step lines of a check sheet, `call` counted.
pub const STEPS: usize = 256;
// Instructions of one step.
pub const INSTRUCTIONS: usize = 4;
// The largest number that a sheet can hold.
pub const LAST_NUMBER: u32 = 4294967295;

// Whether `n` is the number of a register or a slot.
pub fn is_register(n: u32) -> bool
    ensures { result ≡ is_register n }
{
    1 <= n && n <= LAST_REGISTER
}

// Whether `n` is a number of arguments, or a cell.
pub fn is_argument(n: u32) -> bool
    ensures { result ≡ is_argument n }
{
    n <= LAST_REGISTER
}

// Whether `n` is a chunk's number.
pub fn is_chunk(n: u32) -> bool
    ensures { result ≡ is_chunk n }
{
    n <= LAST_CHUNK
}

// Whether `n` is a count of occurrences or of arms.
pub fn is_count(n: u32) -> bool
    ensures { result ≡ is_count n }
{
    n <= LAST_COUNT
}

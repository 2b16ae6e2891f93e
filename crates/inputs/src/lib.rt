// Whether the whole input of a program came.
#![tactic(auto)]

ghost use Rattle.std.specs.Prelude.{◌≡◌};
ghost use Rattle.inputs.specs.Inputs.{is_whole, number_of, read_answer};

use sizes::SHEET_BYTES;
use std::io;

// As many bytes as a program reads: with one more than a sheet may have, a sheet is too long, whatever follows.
pub const INPUT_BYTES: usize = SHEET_BYTES + 1;

// The number of a read where the input ends; where it fails its number is less.
pub const AT_THE_END: isize = 0;
// The number of a read that brought bytes, however many came.
const BYTES_CAME: isize = 1;
// The number of a read that failed.
const FAILED: isize = -1;

// What a read answered. How many bytes came does not matter, but whether any did.
#[derive(Clone, Copy, PartialEq, Eq)]
pub enum ReadAnswer {
    AtTheEnd,
    BytesCame,
    Failed,
}

impl ReadAnswer {
    // The answer as one number.
    pub fn number(self) -> isize
        ensures { result ≡ number_of self }
    {
        match self {
            ReadAnswer::AtTheEnd => AT_THE_END,
            ReadAnswer::BytesCame => BYTES_CAME,
            ReadAnswer::Failed => FAILED,
        }
    }
}

// What a read answered: no bytes came where the input ends.
pub fn answer_of(read: &io::Result<usize>) -> ReadAnswer
    ensures { result ≡ read_answer read.now }
{
    match read {
        Ok(0) => ReadAnswer::AtTheEnd,
        Ok(_) => ReadAnswer::BytesCame,
        Err(_) => ReadAnswer::Failed,
    }
}

// Whether so many bytes are the whole input, or enough of it to know that it is too long. That a read gave fewer bytes than it
// might says nothing: the next part may not have come yet. The number of the read behind them tells.
pub fn is_whole(came: usize, further: isize) -> bool
    ensures { result ≡ is_whole came further }
{
    INPUT_BYTES <= came || further == AT_THE_END
}

// What a whole sheet is answered with.
#![tactic(auto)]

ghost use Rattle.printing.specs.Printing.{Put};
ghost use Rattle.answered.specs.Answered.{refusal_text};

use refusals::Refusal;
use split::{LINE_FEED, TAB};

// The line that is refused, where 0 is the whole sheet, and its refusal.
#[derive(Clone, Copy, PartialEq, Eq)]
pub struct Refused {
    pub line: usize,
    pub refusal: Refusal,
}

// The count of bytes written, or what refuses the sheet.
pub type Answered = Result<usize, Refused>;

// The line of a refusal: `no`, the line and the refusal's number.
pub fn put_refusal(out: &mut [u8], at: usize, line: u32, refusal: u32) -> usize
    ensures { Put out.old at (refusal_text line refusal) result out.new }
{
    let named = printing::put_word(out, at, b"no\t");
    let numbered = printing::put_number(out, named, line);
    let parted = printing::put_byte(out, numbered, TAB);
    let refused = printing::put_number(out, parted, refusal);
    printing::put_byte(out, refused, LINE_FEED)
}

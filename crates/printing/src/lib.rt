// Bytes, words and numbers put into lent bytes at a place.
//
// Each answers the place after what it put. Where the room ends, what fits is put, the rest is left out, and the answer
// is one past the room: a place from which nothing more is put, so that a run of these says at its end whether all fit.
// Functions and no Display, since there is no heap and no formatter that counts on past its room.
#![tactic(auto)]

ghost use Rattle.std.specs.Prelude.{[], ◌∷◌};
ghost use Rattle.numbers.specs.Numbers.{decimal};
ghost use Rattle.printing.specs.Printing.{Put};

// One byte.
pub fn put_byte(out: &mut [u8], at: usize, byte: u8) -> usize
    ensures { Put out.old at (byte ∷ []) result out.new }
{
    if at < out.len() {
        out[at] = byte;
        return at + 1;
    }
    out.len() + 1
}

// The bytes of a word.
pub fn put_word(out: &mut [u8], at: usize, word: &[u8]) -> usize
    ensures { Put out.old at word.now result out.new }
{
    if out.len() < at {
        return out.len() + 1;
    }
    let mut next = at;
    for &byte in word {
        next = put_byte(out, next, byte);
    }
    next
}

// The decimal digits of a number.
pub fn put_number(out: &mut [u8], at: usize, n: u32) -> usize
    ensures { Put out.old at (decimal n) result out.new }
{
    let last = b'0' + (n % 10) as u8;
    if n < 10 {
        return put_byte(out, at, last);
    }
    let next = put_number(out, at, n / 10);
    put_byte(out, next, last)
}

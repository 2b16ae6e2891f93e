// Numbers as text: decimal, at most 4,294,967,295, with no needless leading zero.
#![tactic(auto)]

ghost use Rattle.std.specs.Prelude.{◌≡◌};
ghost use Rattle.numbers.specs.Numbers.{number_of};
ghost use Rattle.numbers.specs.ReadLaws.{read_from};

use sizes::LAST_NUMBER;

const ZERO: u8 = b'0';

// The number that the field writes; none where it writes no number.
pub fn read(field: &[u8]) -> Option<u32>
    ensures { result ≡ number_of field.now }
{
    match field {
        [] => None,
        [ZERO] => Some(0),
        [ZERO, ..] => None,
        _ => digits(field),
    }
}

// The number that the digits write, however many zeros stand in front.
fn digits(field: &[u8]) -> Option<u32>
    ensures { result ≡ read_from 0 field.now }
{
    let mut value: u64 = 0;
    for &c in field {
        if !c.is_ascii_digit() {
            return None;
        }
        value = value * 10 + u64::from(c - ZERO);
        if (LAST_NUMBER as u64) < value {
            return None;
        }
    }
    Some(value as u32)
}

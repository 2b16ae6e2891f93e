// The refusals, and the number by which each is told.
#![tactic(auto)]

ghost use Rattle.std.specs.Prelude.{◌≡◌};
ghost use Rattle.refusals.specs.Refusals.{number_of};

// Why a line or a sheet is refused.
#[derive(Clone, Copy, PartialEq, Eq)]
pub enum Refusal {
    // A line's word, field count or field form is unknown, or it has no LF.
    Form,
    // Lines stand in a forbidden order.
    Order,
    // A number is outside its size or names no variable.
    Size,
    // The original would stop.
    Stop,
    // No register up to the last meets the search rule.
    Register,
    // No freed slot qualifies and the next new slot is past the last.
    Slot,
    // A table, list, queue, count or sheet is full.
    Full,
    // Any other arm of a mark that the original holds for unreachable is met.
    Unreachable,
    // The output is longer than the lent part.
    Room,
}

impl Refusal {
    // The refusal's number.
    pub fn number(self) -> u32
        ensures { result ≡ number_of self }
    {
        match self {
            Refusal::Form => 1,
            Refusal::Order => 2,
            Refusal::Size => 3,
            Refusal::Stop => 4,
            Refusal::Register => 5,
            Refusal::Slot => 6,
            Refusal::Full => 7,
            Refusal::Unreachable => 8,
            Refusal::Room => 9,
        }
    }
}

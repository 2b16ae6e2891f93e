// Places of a variable: a register `x`, for a temporary, or a slot of the stack `y`, for a permanent variable.
#![tactic(auto)]

ghost use Rattle.std.specs.Prelude.{◌≡◌, ◌∷◌};
ghost use Rattle.numbers.specs.Numbers.{decimal};
ghost use Rattle.printing.specs.Printing.{Put};
ghost use Rattle.registers.specs.Registers.{number_of_place, register_text};

#[derive(Clone, Copy)]
pub enum RegType {
    Temp(u32),
    Perm(u32),
}

impl RegType {
    // The number of the register or the slot.
    pub fn number(self) -> u32
        ensures { result ≡ number_of_place self }
    {
        match self {
            RegType::Temp(r) => r,
            RegType::Perm(slot) => slot,
        }
    }
}

// The place as it is printed, `x3` or `y1`.
pub fn put_register(out: &mut [u8], at: usize, place: RegType) -> usize
    ensures { Put out.old at (register_text place) result out.new }
{
    match place {
        RegType::Temp(r) => put_lettered(out, at, b'x', r),
        RegType::Perm(r) => put_lettered(out, at, b'y', r),
    }
}

// A letter and a number behind it.
fn put_lettered(out: &mut [u8], at: usize, letter: u8, n: u32) -> usize
    ensures { Put out.old at (letter ∷ decimal n) result out.new }
{
    let next = printing::put_byte(out, at, letter);
    printing::put_number(out, next, n)
}

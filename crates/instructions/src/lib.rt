// The instructions, and the lines that they are printed as.
#![tactic(auto)]

ghost use Rattle.std.specs.Prelude.{◌<◌, ◌≡◌, [], ◌∷◌, ◌++◌, length};
ghost use Rattle.split.specs.Split.{tab, line_feed};
ghost use Rattle.numbers.specs.Numbers.{decimal};
ghost use Rattle.printing.specs.Printing.{Put};
ghost use Rattle.registers.specs.Registers.{register_text};
ghost use Rattle.instructions.specs.Instructions.{instruction_text, at_text};
ghost use Rattle.instructions.specs.Codes.{numbered, code_of, words, word_of};

use registers::RegType;
use split::{LINE_FEED, TAB};

#[derive(Clone, Copy)]
pub enum Instruction {
    GetVariable(RegType, u32),
    GetValue(RegType, u32),
    PutVariable(RegType, u32),
    PutValue(RegType, u32),
    PutUnsafeValue(u32, u32),
    SetVariable(RegType),
    SetValue(RegType),
    SetLocalValue(RegType),
    UnifyVariable(RegType),
    UnifyValue(RegType),
    UnifyLocalValue(RegType),
}

// An instruction as its number, its place and its argument. Those from 5 to 10 have no argument, and 0 stands for it: what is
// printed behind the place is chosen by ranges of the number.
#[derive(Clone, Copy)]
pub struct Code {
    pub number: u32,
    pub place: RegType,
    pub argument: u32,
}

impl Instruction {
    // The instruction's number, place and argument.
    pub fn code(self) -> Code
        ensures { result ≡ code_of self }
    {
        match self {
            Instruction::GetVariable(place, k) => numbered(0, place, k),
            Instruction::GetValue(place, k) => numbered(1, place, k),
            Instruction::PutVariable(place, k) => numbered(2, place, k),
            Instruction::PutValue(place, k) => numbered(3, place, k),
            Instruction::PutUnsafeValue(slot, k) => numbered(4, RegType::Perm(slot), k),
            Instruction::SetVariable(place) => numbered(5, place, 0),
            Instruction::SetValue(place) => numbered(6, place, 0),
            Instruction::SetLocalValue(place) => numbered(7, place, 0),
            Instruction::UnifyVariable(place) => numbered(8, place, 0),
            Instruction::UnifyValue(place) => numbered(9, place, 0),
            Instruction::UnifyLocalValue(place) => numbered(10, place, 0),
        }
    }
}

// A number, a place and an argument as one code: so each row above stays one line.
fn numbered(number: u32, place: RegType, argument: u32) -> Code
    ensures { result ≡ numbered number place argument }
{
    Code {
        number,
        place,
        argument,
    }
}

// The instruction's line: its word, its place and, where it has one, its argument.
pub fn put_instruction(out: &mut [u8], at: usize, instruction: Instruction) -> usize
    ensures { Put out.old at (instruction_text instruction) result out.new }
{
    let code = instruction.code();
    let number = code.number;
    let place = code.place;
    let named = put_name(out, at, number);
    let placed = put_place(out, named, place);
    match number {
        0..=4 => put_argument(out, placed, code.argument),
        5..=10 => printing::put_byte(out, placed, LINE_FEED),
        _ => unreachable!(),
    }
}

// The line that follows the instructions of an event: `at` and a place.
pub fn put_at_line(out: &mut [u8], at: usize, place: RegType) -> usize
    ensures { Put out.old at (at_text place) result out.new }
{
    let named = printing::put_word(out, at, b"at");
    let placed = put_place(out, named, place);
    printing::put_byte(out, placed, LINE_FEED)
}

// The word of an instruction's number, chosen by `match`.
fn put_name(out: &mut [u8], at: usize, number: u32) -> usize
    requires { number < length words }
    ensures { Put out.old at (word_of number) result out.new }
{
    match number {
        0 => printing::put_word(out, at, b"get_variable"),
        1 => printing::put_word(out, at, b"get_value"),
        2 => printing::put_word(out, at, b"put_variable"),
        3 => printing::put_word(out, at, b"put_value"),
        4 => printing::put_word(out, at, b"put_unsafe_value"),
        5 => printing::put_word(out, at, b"set_variable"),
        6 => printing::put_word(out, at, b"set_value"),
        7 => printing::put_word(out, at, b"set_local_value"),
        8 => printing::put_word(out, at, b"unify_variable"),
        9 => printing::put_word(out, at, b"unify_value"),
        10 => printing::put_word(out, at, b"unify_local_value"),
        _ => unreachable!(),
    }
}

// The place, behind a tab.
fn put_place(out: &mut [u8], at: usize, place: RegType) -> usize
    ensures { Put out.old at (tab ∷ register_text place) result out.new }
{
    let next = printing::put_byte(out, at, TAB);
    registers::put_register(out, next, place)
}

// The argument, behind a tab, and the line's end.
fn put_argument(out: &mut [u8], at: usize, argument: u32) -> usize
    ensures { Put out.old at (tab ∷ decimal argument ++ line_feed ∷ []) result out.new }
{
    let next = printing::put_byte(out, at, TAB);
    let end = printing::put_number(out, next, argument);
    printing::put_byte(out, end, LINE_FEED)
}

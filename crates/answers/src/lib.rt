// What the answer to an event sheet is made of: the instructions and the place of an event, and the last line.
#![tactic(auto)]

ghost use Rattle.std.specs.Prelude.{◌≡◌, ◌++◌, take};
ghost use Rattle.printing.specs.Printing.{Put};
ghost use Rattle.answers.specs.Answers.{code_text, place_text, answer_text, end_text};
ghost use Rattle.answers.specs.Adding.{Added};

use code_deque::CodeDeque;
use registers::RegType;
use split::{LINE_FEED, TAB};

// Room for what one event prints.
pub const LONGEST: usize = 256;

pub type Scratch = [u8; LONGEST];

// The place after a text that was added, and the text's length, which counts also where the room has ended.
#[derive(Clone, Copy)]
pub struct Adding {
    pub place: usize,
    pub length: usize,
}

// The instructions, in order.
fn put_code(out: &mut [u8], at: usize, code: CodeDeque) -> usize
    ensures { Put out.old at (code_text code) result out.new }
{
    match code {
        CodeDeque::Empty => printing::put_word(out, at, b""),
        CodeDeque::One(first) => instructions::put_instruction(out, at, first),
        CodeDeque::Two(first, second) => {
            let next = instructions::put_instruction(out, at, first);
            instructions::put_instruction(out, next, second)
        }
        CodeDeque::Three(first, second, third) => {
            let next = instructions::put_instruction(out, at, first);
            let last = instructions::put_instruction(out, next, second);
            instructions::put_instruction(out, last, third)
        }
    }
}

// The line that tells the place, where there is one.
fn put_place(out: &mut [u8], at: usize, place: Option<RegType>) -> usize
    ensures { Put out.old at (place_text place) result out.new }
{
    match place {
        None => printing::put_word(out, at, b""),
        Some(place) => instructions::put_at_line(out, at, place),
    }
}

// What an event prints.
pub fn put_answer(out: &mut [u8], at: usize, code: CodeDeque, place: Option<RegType>) -> usize
    ensures { Put out.old at (answer_text code place) result out.new }
{
    let next = put_code(out, at, code);
    put_place(out, next, place)
}

// The last line: `end`, the highest register allocated and the number of permanent variables.
pub fn put_end(out: &mut [u8], at: usize, max_reg_allocated: u32, num_perm_vars: u32) -> usize
    ensures { Put out.old at (end_text max_reg_allocated num_perm_vars) result out.new }
{
    let named = printing::put_word(out, at, b"end\t");
    let registers = printing::put_number(out, named, max_reg_allocated);
    let parted = printing::put_byte(out, registers, TAB);
    let slots = printing::put_number(out, parted, num_perm_vars);
    printing::put_byte(out, slots, LINE_FEED)
}

// Adds so many bytes of the scratch to an answer.
fn add(scratch: &Scratch, out: &mut [u8], at: usize, length: usize) -> Adding
    ensures { Put out.old at (take length scratch.now) result.place out.new × (result.length ≡ length) }
{
    let place = printing::put_word(out, at, split::part_before(&scratch[..], length));
    Adding { place, length }
}

// Adds what an event prints to an answer.
pub fn add_answer(
    scratch: &mut Scratch,
    out: &mut [u8],
    at: usize,
    code: CodeDeque,
    place: Option<RegType>,
) -> Adding
    ensures { Added scratch.old out.old at (answer_text code place) result scratch.new out.new }
{
    let length = put_answer(&mut scratch[..], 0, code, place);
    add(scratch, out, at, length)
}

// Adds the last line to an answer.
pub fn add_end(
    scratch: &mut Scratch,
    out: &mut [u8],
    at: usize,
    max_reg_allocated: u32,
    num_perm_vars: u32,
) -> Adding
    ensures { Added scratch.old out.old at (end_text max_reg_allocated num_perm_vars) result scratch.new out.new }
{
    let length = put_end(&mut scratch[..], 0, max_reg_allocated, num_perm_vars);
    add(scratch, out, at, length)
}

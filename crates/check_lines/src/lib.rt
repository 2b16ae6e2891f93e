// A line of a check sheet, read into a step or an instruction. Only the form is judged here; order, sizes and what is full
// are judged with the lines before it (`steps::judge`).
#![tactic(auto)]

ghost use Rattle.std.specs.Prelude.{◌≡◌};
ghost use Rattle.split.specs.Split.{tab};
ghost use Rattle.words.specs.Words.{code_among};
ghost use Rattle.fields.specs.Fields.{fields_left};
ghost use Rattle.check_lines.specs.CheckLines.{line_says};
ghost use Rattle.check_lines.specs.Reading.{
  word_code,
  instruction_words,
  place_words,
  field_of,
  no_field,
  deep_step,
  argument_step,
  unsafe_line,
  argument_instruction,
  place_instruction,
  one_field,
  two_fields,
  said_by,
};

use instructions::Instruction;
use registers::RegType;
use split::TAB;
use steps::{CheckLine, Step};

// What a field behind the word says.
#[derive(Clone, Copy)]
enum Field {
    Number(u32),
    Place(RegType),
}

// ---- Words

// The number of a line's word, its place in the table: 1 stands alone, 2 and 3 have one number behind them, 4 and 5 two, 6 to
// 10 a place and an argument, and 11 to 16 a place; 0 is none of them.
// A number, so that ranges of a `match` say how a line goes on. Word after word: the proof of a `match` on bytes does not close.
fn word_code(word: &[u8]) -> u32
    ensures { result ≡ word_code word.now }
{
    if words::is(word, b"call") {
        return 1;
    }
    if words::is(word, b"hd") {
        return 2;
    }
    if words::is(word, b"gd") {
        return 3;
    }
    if words::is(word, b"h") {
        return 4;
    }
    if words::is(word, b"g") {
        return 5;
    }
    instruction_word_code(word)
}

// The number of an instruction's word.
fn instruction_word_code(word: &[u8]) -> u32
    ensures { result ≡ code_among 6 instruction_words word.now }
{
    if words::is(word, b"get_variable") {
        return 6;
    }
    if words::is(word, b"get_value") {
        return 7;
    }
    if words::is(word, b"put_variable") {
        return 8;
    }
    if words::is(word, b"put_value") {
        return 9;
    }
    if words::is(word, b"put_unsafe_value") {
        return 10;
    }
    place_word_code(word)
}

// The number of the word of an instruction without an argument.
fn place_word_code(word: &[u8]) -> u32
    ensures { result ≡ code_among 11 place_words word.now }
{
    if words::is(word, b"set_variable") {
        return 11;
    }
    if words::is(word, b"set_value") {
        return 12;
    }
    if words::is(word, b"set_local_value") {
        return 13;
    }
    if words::is(word, b"unify_variable") {
        return 14;
    }
    if words::is(word, b"unify_value") {
        return 15;
    }
    if words::is(word, b"unify_local_value") {
        return 16;
    }
    0
}

// ---- Fields

// The field: a number, or a place, `x` or `y` with a number.
fn field_of(field: &[u8]) -> Option<Field>
    ensures { result ≡ field_of field.now }
{
    match field {
        [b'x', behind @ ..] => numbers::read(behind).map(|r| Field::Place(RegType::Temp(r))),
        [b'y', behind @ ..] => numbers::read(behind).map(|slot| Field::Place(RegType::Perm(slot))),
        _ => numbers::read(field).map(Field::Number),
    }
}

// ---- Lines by the word's number: a number that a function does not name has no line of its form

// No field: `call`.
fn no_field(code: u32) -> Option<CheckLine>
    ensures { result ≡ no_field code }
{
    match code {
        1 => Some(CheckLine::Begins(Step::Call)),
        _ => None,
    }
}

// A variable: the step of a deep subterm.
fn deep_step(code: u32, v: u32) -> Option<CheckLine>
    ensures { result ≡ deep_step code v }
{
    match code {
        2 => Some(CheckLine::Begins(Step::HeadDeep(v))),
        3 => Some(CheckLine::Begins(Step::GoalDeep(v))),
        _ => None,
    }
}

// An argument and a variable: the step of an argument.
fn argument_step(code: u32, k: u32, v: u32) -> Option<CheckLine>
    ensures { result ≡ argument_step code k v }
{
    match code {
        4 => Some(CheckLine::Begins(Step::Head(k, v))),
        5 => Some(CheckLine::Begins(Step::Goal(k, v))),
        _ => None,
    }
}

// The line of `put_unsafe_value`, which takes a slot only.
fn unsafe_line(place: RegType, k: u32) -> Option<CheckLine>
    ensures { result ≡ unsafe_line place k }
{
    match place {
        RegType::Perm(slot) => Some(CheckLine::Does(Instruction::PutUnsafeValue(slot, k))),
        RegType::Temp(_) => None,
    }
}

// A place and an argument: the instruction that has both.
fn argument_instruction(code: u32, place: RegType, k: u32) -> Option<CheckLine>
    ensures { result ≡ argument_instruction code place k }
{
    match code {
        6 => Some(CheckLine::Does(Instruction::GetVariable(place, k))),
        7 => Some(CheckLine::Does(Instruction::GetValue(place, k))),
        8 => Some(CheckLine::Does(Instruction::PutVariable(place, k))),
        9 => Some(CheckLine::Does(Instruction::PutValue(place, k))),
        10 => unsafe_line(place, k),
        _ => None,
    }
}

// A place: the instruction that has nothing else.
fn place_instruction(code: u32, place: RegType) -> Option<CheckLine>
    ensures { result ≡ place_instruction code place }
{
    match code {
        11 => Some(CheckLine::Does(Instruction::SetVariable(place))),
        12 => Some(CheckLine::Does(Instruction::SetValue(place))),
        13 => Some(CheckLine::Does(Instruction::SetLocalValue(place))),
        14 => Some(CheckLine::Does(Instruction::UnifyVariable(place))),
        15 => Some(CheckLine::Does(Instruction::UnifyValue(place))),
        16 => Some(CheckLine::Does(Instruction::UnifyLocalValue(place))),
        _ => None,
    }
}

// ---- All lines

// The line of a word with one field.
fn one_field(code: u32, field: Field) -> Option<CheckLine>
    ensures { result ≡ one_field code (Some field) }
{
    match field {
        Field::Number(v) => deep_step(code, v),
        Field::Place(place) => place_instruction(code, place),
    }
}

// The line of a word with two fields, the second of which is a number.
fn two_fields(code: u32, first: Field, n: u32) -> Option<CheckLine>
    ensures { result ≡ two_fields code (Some first) (Some n) }
{
    match first {
        Field::Number(k) => argument_step(code, k, n),
        Field::Place(place) => argument_instruction(code, place, n),
    }
}

// What the word's number and what is left behind the word say.
fn line_of(code: u32, rest: &[u8]) -> Option<CheckLine>
    ensures { result ≡ said_by code (fields_left tab rest.now) }
{
    if rest.is_empty() {
        return no_field(code);
    }
    let end = fields::end_of_field(rest, TAB);
    let first = field_of(fields::field(rest, end))?;
    if end == rest.len() {
        return one_field(code, first);
    }
    let behind = fields::rest_after(rest, end);
    let last = fields::end_of_field(behind, TAB);
    if last != behind.len() {
        return None;
    }
    let second = numbers::read(fields::field(behind, last))?;
    two_fields(code, first, second)
}

// What a line says.
pub fn read_line(line: &[u8]) -> Option<CheckLine>
    ensures { result ≡ line_says line.now }
{
    let end = split::end_of(line, TAB);
    let word = split::part_before(line, end);
    let rest = fields::rest_after(line, end);
    let code = word_code(word);
    line_of(code, rest)
}

// A line of an event sheet, read into an event. Only the form is judged here; order, sizes and the lengths of lists are
// judged with the event (`events::refusal_before`).
#![tactic(auto)]

ghost use Rattle.std.specs.Prelude.{◌≡◌, set};
ghost use Rattle.split.specs.Split.{tab};
ghost use Rattle.words.specs.Words.{code_among};
ghost use Rattle.fields.specs.Fields.{fields_left};
ghost use Rattle.printing.specs.Printing.{printed};
ghost use Rattle.events.specs.declared.Entries.TheVariants.{Arguments};
ghost use Rattle.event_lines.specs.LineForms.{saying, leading, uses_list};
ghost use Rattle.event_lines.specs.Reading.{
  word_code,
  number_words,
  other_words,
  one_number,
  two_numbers,
  three_numbers,
  bare_said,
  bare_line,
  one_said,
  two_said,
  with_three,
  anon_line,
  mark_of,
  mark_line,
  counted,
  uses_count,
  temp_line,
  temp_list,
  headed,
  close_line,
  close_list,
  list_line,
  said_by,
  entries_by,
};
ghost use Rattle.event_lines.specs.EventLines.{line_says, line_list};

use events::{Entries, Event};
use forms::{GenContext, Level};
use split::TAB;
use targets::Target;

// The mark between two uses.
const COMMA: u8 = b',';

// What a line says: its event, and how many entries its list has.
#[derive(Clone, Copy)]
pub struct Said {
    pub event: Event,
    pub entries: usize,
}

// ---- Words

// The number of a line's word, its place in the table of words: 1 to 6 stand alone, 7 to 16 have numbers behind them, 17 to 19
// a term's place, and 20 to 22 a list; 0 is none of them.
// A number, so that ranges of a `match` say how a line goes on. Word after word: the proof of a `match` on bytes does not close.
fn word_code(word: &[u8]) -> u32
    ensures { result ≡ word_code word.now }
{
    if words::is(word, b"sets") {
        return 1;
    }
    if words::is(word, b"next") {
        return 2;
    }
    if words::is(word, b"take") {
        return 3;
    }
    if words::is(word, b"reset") {
        return 4;
    }
    if words::is(word, b"contents") {
        return 5;
    }
    if words::is(word, b"clearfree") {
        return 6;
    }
    number_word_code(word)
}

// The number of a word with numbers behind it: one up to 12, two up to 15, and three; or of a later word.
fn number_word_code(word: &[u8]) -> u32
    ensures { result ≡ code_among 7 number_words word.now }
{
    if words::is(word, b"perm") {
        return 7;
    }
    if words::is(word, b"args") {
        return 8;
    }
    if words::is(word, b"incr") {
        return 9;
    }
    if words::is(word, b"safe") {
        return 10;
    }
    if words::is(word, b"give") {
        return 11;
    }
    if words::is(word, b"tail") {
        return 12;
    }
    if words::is(word, b"cut") {
        return 13;
    }
    if words::is(word, b"free") {
        return 14;
    }
    if words::is(word, b"arm") {
        return 15;
    }
    other_word_code(word)
}

// The number of one of the other words.
fn other_word_code(word: &[u8]) -> u32
    ensures { result ≡ code_among 16 other_words word.now }
{
    if words::is(word, b"open") {
        return 16;
    }
    if words::is(word, b"var") {
        return 17;
    }
    if words::is(word, b"anon") {
        return 18;
    }
    if words::is(word, b"nonvar") {
        return 19;
    }
    if words::is(word, b"temp") {
        return 20;
    }
    if words::is(word, b"head") {
        return 21;
    }
    if words::is(word, b"close") {
        return 22;
    }
    0
}

// ---- Lines of numbers

// The one number that is left of a line.
fn one_number(rest: &[u8]) -> Option<u32>
    ensures { result ≡ one_number (fields_left tab rest.now) }
{
    let end = fields::end_of_field(rest, TAB);
    if end < rest.len() {
        return None;
    }
    numbers::read(fields::field(rest, end))
}

// The two numbers that are left of a line.
fn two_numbers(rest: &[u8]) -> Option<(u32, u32)>
    ensures { result ≡ two_numbers (fields_left tab rest.now) }
{
    let end = fields::end_of_field(rest, TAB);
    let first = numbers::read(fields::field(rest, end))?;
    let second = one_number(fields::rest_after(rest, end))?;
    Some((first, second))
}

// The three numbers that are left of a line.
fn three_numbers(rest: &[u8]) -> Option<(u32, u32, u32)>
    ensures { result ≡ three_numbers (fields_left tab rest.now) }
{
    let end = fields::end_of_field(rest, TAB);
    let first = numbers::read(fields::field(rest, end))?;
    let (second, third) = two_numbers(fields::rest_after(rest, end))?;
    Some((first, second, third))
}

// What a line without a list says.
fn alone(event: Event) -> Option<Said>
    ensures { result ≡ saying event 0 }
{
    Some(Said { event, entries: 0 })
}

// What a word that stands alone says.
fn bare_said(code: u32) -> Option<Said>
    ensures { result ≡ bare_said code }
{
    match code {
        1 => alone(Event::Sets),
        2 => alone(Event::Next),
        3 => alone(Event::Take),
        4 => alone(Event::Reset),
        5 => alone(Event::Contents),
        6 => alone(Event::ClearFree),
        _ => None,
    }
}

// The line of a word that stands alone.
fn bare_line(code: u32, rest: &[u8]) -> Option<Said>
    ensures { result ≡ bare_line code (fields_left tab rest.now) }
{
    if rest.is_empty() {
        return bare_said(code);
    }
    None
}

// What a word with one number says.
fn one_said(code: u32, n: u32) -> Option<Said>
    ensures { result ≡ one_said code n }
{
    match code {
        7 => alone(Event::Perm(n)),
        8 => alone(Event::Args(n)),
        9 => alone(Event::Incr(n)),
        10 => alone(Event::Safe(n)),
        11 => alone(Event::Give(n)),
        12 => alone(Event::Tail(n)),
        _ => None,
    }
}

// What a word with two numbers says: `cut` v chunk, `free` chunk v, `arm` start span.
fn two_said(code: u32, a: u32, b: u32) -> Option<Said>
    ensures { result ≡ two_said code a b }
{
    match code {
        13 => alone(Event::Cut(a, b)),
        14 => alone(Event::Free(a, b)),
        15 => alone(Event::Arm(a, b)),
        _ => None,
    }
}

// The line of `open`.
fn open_line(rest: &[u8]) -> Option<Said>
    ensures { result ≡ with_three (three_numbers (fields_left tab rest.now)) }
{
    let (start, span, arms) = three_numbers(rest)?;
    alone(Event::Open(start, span, arms))
}

// ---- Lines of terms

// The line of `anon`: nothing is left behind the context.
fn anon_line(target: Target, level: Level, context: GenContext, rest: &[u8]) -> Option<Said>
    ensures { result ≡ anon_line target level context (fields_left tab rest.now) }
{
    if rest.is_empty() {
        return alone(Event::Anon(target, level, context));
    }
    None
}

// The line of a term whose place is read; the target of `nonvar` is not kept.
fn mark_of(
    code: u32,
    target: Target,
    level: Level,
    context: GenContext,
    rest: &[u8],
) -> Option<Said>
    ensures { result ≡ mark_of code target level context (fields_left tab rest.now) }
{
    match code {
        17 => alone(Event::Var(target, level, context, one_number(rest)?)),
        18 => anon_line(target, level, context, rest),
        19 => alone(Event::NonVar(level, context, one_number(rest)?)),
        _ => None,
    }
}

// The line of a term: target, level, context, and what its word asks for.
fn mark_line(code: u32, rest: &[u8]) -> Option<Said>
    ensures { result ≡ mark_line code (fields_left tab rest.now) }
{
    let target_end = fields::end_of_field(rest, TAB);
    let target = event_fields::target_of(fields::field(rest, target_end))?;
    let from_level = fields::rest_after(rest, target_end);
    let level_end = fields::end_of_field(from_level, TAB);
    let level = event_fields::level_of(fields::field(from_level, level_end))?;
    let from_context = fields::rest_after(from_level, level_end);
    let context_end = fields::end_of_field(from_context, TAB);
    let context = event_fields::context_of(fields::field(from_context, context_end))?;
    let behind = fields::rest_after(from_context, context_end);
    mark_of(code, target, level, context, behind)
}

// ---- Lines with a list

// Puts an entry into its cell, where there is one.
fn put_entry(list: &mut [u32], at: usize, n: u32)
    ensures { list.new ≡ set list.old at n }
{
    if at < list.len() {
        list[at] = n;
    }
}

// Reads what is left of a line as the entries of a list, up to the first that has no form.
fn read_list(entries: Entries, rest: &[u8], mark: u8, list: &mut [u32]) -> Option<usize>
    ensures value { result ≡ counted entries (fields_left mark rest.now) }
    ensures list_after { list.new ≡ printed list.old 0 (leading entries (fields_left mark rest.now)) }
{
    let mut left = rest;
    let mut count = 0;
    // (A split of what is left finds an empty field where none is left, so it needs a case of its own.)
    while !left.is_empty() {
        let end = fields::end_of_field(left, mark);
        let entry = event_fields::entry_of(entries, fields::field(left, end))?;
        put_entry(list, count, entry);
        count += 1;
        left = fields::rest_after(left, end);
    }
    Some(count)
}

// Reads the one field that is left as `-` or as uses.
fn read_uses(rest: &[u8], list: &mut [u32]) -> Option<usize>
    ensures value { result ≡ uses_count (fields_left tab rest.now) }
    ensures list_after { list.new ≡ printed list.old 0 (uses_list (fields_left tab rest.now)) }
{
    let end = fields::end_of_field(rest, TAB);
    if end != rest.len() {
        return None;
    }
    if words::is(fields::field(rest, end), b"-") {
        return Some(0);
    }
    read_list(Entries::Uses, rest, COMMA, list)
}

// The line of `temp`: context, occurrences and uses. The uses are read whether or not the fields before them have a form.
fn temp_line(rest: &[u8], list: &mut [u32]) -> Option<Said>
    ensures value { result ≡ temp_line (fields_left tab rest.now) }
    ensures list_after { list.new ≡ printed list.old 0 (temp_list (fields_left tab rest.now)) }
{
    let context_end = fields::end_of_field(rest, TAB);
    let from_count = fields::rest_after(rest, context_end);
    let count_end = fields::end_of_field(from_count, TAB);
    let uses = read_uses(fields::rest_after(from_count, count_end), list);
    let context = event_fields::context_of(fields::field(rest, context_end))?;
    let occurrences = numbers::read(fields::field(from_count, count_end))?;
    let event = Event::Temp(context, occurrences);
    uses.map(|entries| Said { event, entries })
}

// The line of `head`: arguments.
fn head_line(rest: &[u8], list: &mut [u32]) -> Option<Said>
    ensures value { result ≡ headed (counted Arguments (fields_left tab rest.now)) }
    ensures list_after { list.new ≡ printed list.old 0 (leading Arguments (fields_left tab rest.now)) }
{
    let arguments = read_list(Entries::Arguments, rest, TAB, list);
    arguments.map(|entries| Said {
        event: Event::Head,
        entries,
    })
}

// The line of `close`: a depth and variables. These are read whether or not the depth has a form.
fn close_line(rest: &[u8], list: &mut [u32]) -> Option<Said>
    ensures value { result ≡ close_line (fields_left tab rest.now) }
    ensures list_after { list.new ≡ printed list.old 0 (close_list (fields_left tab rest.now)) }
{
    let end = fields::end_of_field(rest, TAB);
    let variables = read_list(Entries::Variables, fields::rest_after(rest, end), TAB, list);
    let depth = numbers::read(fields::field(rest, end))?;
    variables.map(|entries| Said {
        event: Event::Close(depth),
        entries,
    })
}

// The line of a word with a list.
fn list_line(code: u32, rest: &[u8], list: &mut [u32]) -> Option<Said>
    ensures value { result ≡ list_line code (fields_left tab rest.now) }
    ensures list_after { list.new ≡ printed list.old 0 (entries_by code (fields_left tab rest.now)) }
{
    match code {
        20 => temp_line(rest, list),
        21 => head_line(rest, list),
        22 => close_line(rest, list),
        _ => None,
    }
}

// ---- All lines

// What the word's number and what is left behind the word say.
fn line_of(code: u32, rest: &[u8], list: &mut [u32]) -> Option<Said>
    ensures value { result ≡ said_by code (fields_left tab rest.now) }
    ensures list_after { list.new ≡ printed list.old 0 (entries_by code (fields_left tab rest.now)) }
{
    match code {
        1..=6 => bare_line(code, rest),
        7..=12 => one_said(code, one_number(rest)?),
        13..=15 => {
            let (a, b) = two_numbers(rest)?;
            two_said(code, a, b)
        }
        16 => open_line(rest),
        17..=19 => mark_line(code, rest),
        20..=22 => list_line(code, rest, list),
        _ => None,
    }
}

// What a line says. The entries of its list are put into `list`, from the first cell on, as far as there are cells.
pub fn read_line(line: &[u8], list: &mut [u32]) -> Option<Said>
    ensures value { result ≡ line_says line.now }
    ensures list_after { list.new ≡ printed list.old 0 (line_list line.now) }
{
    let end = split::end_of(line, TAB);
    let word = split::part_before(line, end);
    let rest = fields::rest_after(line, end);
    let code = word_code(word);
    line_of(code, rest, list)
}

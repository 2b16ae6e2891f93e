// What one field of an event's line says, or one entry of its list. Only the form is judged here: a number outside its
// size is read all the same, and the entry that it makes is one that is refused by its size.
#![tactic(auto)]

ghost use Rattle.std.specs.Prelude.{◌≡◌};
ghost use Rattle.event_fields.specs.EventFields.{
  target_of,
  level_of,
  context_of,
  code_in,
  use_in,
  use_of,
  variable_entry,
  argument_of,
  entry_of,
};

use events::{Entries, NO_VARIABLE};
use forms::{GenContext, Level};
use sizes::VARIABLES;
use targets::Target;

// The mark between a use's context and its register.
const COLON: u8 = b':';
// In the place of a head's variable: a number that names none. What is outside its size stays a number outside, to be refused.
const NO_SUCH_VARIABLE: u32 = NO_VARIABLE + 1;
// In the place of a use: a register or a chunk that there is not, for the same reason.
const NO_USE: u32 = 0;

// The target: `f` or `q`.
pub fn target_of(field: &[u8]) -> Option<Target>
    ensures { result ≡ target_of field.now }
{
    match field {
        b"f" => Some(Target::Fact),
        b"q" => Some(Target::Query),
        _ => None,
    }
}

// The level: `r`, `s` or `d`.
pub fn level_of(field: &[u8]) -> Option<Level>
    ensures { result ≡ level_of field.now }
{
    match field {
        b"r" => Some(Level::Root),
        b"s" => Some(Level::Shallow),
        b"d" => Some(Level::Deep),
        _ => None,
    }
}

// The context: `h`, or `m` or `l` with a chunk's number.
pub fn context_of(field: &[u8]) -> Option<GenContext>
    ensures { result ≡ context_of field.now }
{
    match field {
        b"h" => Some(GenContext::Head),
        [b'm', chunk @ ..] => numbers::read(chunk).map(GenContext::Mid),
        [b'l', chunk @ ..] => numbers::read(chunk).map(GenContext::Last),
        _ => None,
    }
}

// The use of a register in a context, as one number.
fn code_in(context: GenContext, register: u32) -> u32
    ensures { result ≡ code_in context register }
{
    match context {
        GenContext::Head => temp_var_data::head_use(register),
        GenContext::Mid(chunk) => temp_var_data::mid_use(chunk, register),
        GenContext::Last(chunk) => temp_var_data::last_use(chunk, register),
    }
}

// The same where there is such a register and such a chunk: the code would cut their numbers to a byte.
fn use_in(context: GenContext, register: u32) -> u32
    ensures { result ≡ use_in context register }
{
    if sizes::is_register(register) && sizes::is_chunk(forms::chunk_num(context)) {
        return code_in(context, register);
    }
    NO_USE
}

// A use: a context, a colon and a register.
fn use_of(part: &[u8]) -> Option<u32>
    ensures { result ≡ use_of part.now }
{
    let end = split::end_of(part, COLON);
    let context = context_of(split::part_before(part, end))?;
    let register = numbers::read(split::part_after(part, end))?;
    Some(use_in(context, register))
}

// The entry for a variable of a head. One that there cannot be must not be taken for none.
fn variable_entry(v: u32) -> u32
    ensures { result ≡ variable_entry v }
{
    if v < VARIABLES as u32 {
        return v;
    }
    NO_SUCH_VARIABLE
}

// An argument of a head: a variable or `-`.
fn argument_of(field: &[u8]) -> Option<u32>
    ensures { result ≡ argument_of field.now }
{
    if words::is(field, b"-") {
        return Some(NO_VARIABLE);
    }
    numbers::read(field).map(variable_entry)
}

// An entry of a list.
pub fn entry_of(entries: Entries, part: &[u8]) -> Option<u32>
    ensures { result ≡ entry_of entries part.now }
{
    match entries {
        Entries::Uses => use_of(part),
        Entries::Arguments => argument_of(part),
        Entries::Variables => numbers::read(part),
    }
}

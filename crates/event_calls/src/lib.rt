// One line of an event sheet, given to a state by value.
#![tactic(auto)]

ghost use Rattle.std.specs.Prelude.{◌≡◌, length, ◌≤◌};
ghost use Rattle.event_lines.specs.EventLines.{line_list};
ghost use Rattle.refusals.specs.Refusals.{refused_form};
ghost use Rattle.sizes.specs.Sizes.{sheet_bytes};
ghost use Rattle.debray_allocator.specs.DebrayAllocator.{refused_with};
ghost use Rattle.event_sheets.specs.EventSheets.{line_answer};
ghost use Rattle.event_calls.specs.EventCalls.{
  bytes_answer,
  refused_call,
  called,
  call_filled,
  last_answered,
  last_filled,
};

use answered::{Answered, Refused};
use answers::LONGEST;
use code_deque::CodeDeque;
use debray_allocator::{Answer, State};
use refusals::Refusal;
use sizes::SHEET_BYTES;
use split::LINE_FEED;

// A line of at most so many bytes is short.
const SHORT_LINE: usize = 1_024;

// The state after a call, and what the call is answered with.
#[derive(Clone, Copy)]
pub struct Called {
    pub state: State,
    pub answered: Answered,
}

// A line that has no form changes nothing.
fn malformed(state: State) -> Answer
    ensures { result ≡ refused_with state refused_form }
{
    Answer {
        state,
        code: CodeDeque::Empty,
        at: None,
        refusal: Some(Refusal::Form),
    }
}

// Reads a line and carries it out, with a list that has room for its entries.
fn step_read(state: State, line: &[u8], list: &mut [u32]) -> Answer
    requires { length (line_list line.now) ≤ length list.old }
    ensures { result ≡ line_answer state line.now }
{
    match event_lines::read_line(line, list) {
        None => malformed(state),
        Some(said) => state_step::step(state, said.event, &list[0..said.entries]),
    }
}

// Reads a line and carries it out. A short line is given a short list, since clearing a long one takes longer than the line.
fn step_line(state: State, line: &[u8]) -> Answer
    requires { length line.now ≤ sheet_bytes }
    ensures { result ≡ line_answer state line.now }
{
    if line.len() <= SHORT_LINE {
        let mut list = [0; SHORT_LINE];
        return step_read(state, line, &mut list[..]);
    }
    let mut list = [0; SHEET_BYTES];
    step_read(state, line, &mut list[..])
}

// A line is bytes with one line feed, which stands behind all others.
fn step_bytes(state: State, bytes: &[u8]) -> Answer
    requires { length bytes.now ≤ sheet_bytes }
    ensures { result ≡ bytes_answer state bytes.now }
{
    let end = split::end_of(bytes, LINE_FEED);
    if bytes.len() <= end {
        return malformed(state);
    }
    if end + 1 < bytes.len() {
        return malformed(state);
    }
    step_line(state, split::part_before(bytes, end))
}

// A refusal leaves the state as it was.
fn refused(state: State, line: usize, refusal: Refusal) -> Called
    ensures { result ≡ refused_call state line refusal }
{
    Called {
        state,
        answered: Err(Refused { line, refusal }),
    }
}

// The answer to one line: the state is tested first, then the length, which is that of a sheet at most, then the line, and
// the room last. The text is made aside, so that a refusal leaves the lent bytes as they were.
pub fn call(state: State, line: &[u8], out: &mut [u8]) -> Called
    ensures value { result ≡ called state line.now (length out.old) }
    ensures out_after { out.new ≡ call_filled state line.now out.old }
{
    if !valid_states::is_valid_state(state) {
        return refused(state, 0, Refusal::Size);
    }
    if SHEET_BYTES < line.len() {
        return refused(state, 0, Refusal::Full);
    }
    let answer = step_bytes(state, line);
    if let Some(refusal) = answer.refusal {
        return refused(state, 1, refusal);
    }
    let after = answer.state;
    let code = answer.code;
    let at = answer.at;
    let mut text = [0; LONGEST];
    let length = answers::put_answer(&mut text[..], 0, code, at);
    if out.len() < length {
        return refused(state, 0, Refusal::Room);
    }
    printing::put_word(out, 0, split::part_before(&text[..], length));
    Called {
        state: after,
        answered: Ok(length),
    }
}

// What a sheet ends with: the state is tested first, and the room last.
pub fn put_last(state: State, out: &mut [u8]) -> Answered
    ensures value { result ≡ last_answered state (length out.old) }
    ensures out_after { out.new ≡ last_filled state out.old }
{
    if !valid_states::is_valid_state(state) {
        return Err(Refused {
            line: 0,
            refusal: Refusal::Size,
        });
    }
    let counters = state.counters;
    let registers = event_sheets::max_reg_allocated(counters);
    let slots = event_sheets::num_perm_vars(counters);
    let mut text = [0; LONGEST];
    let count = answers::put_end(&mut text[..], 0, registers, slots);
    if out.len() < count {
        return Err(Refused {
            line: 0,
            refusal: Refusal::Room,
        });
    }
    printing::put_word(out, 0, split::part_before(&text[..], count));
    Ok(count)
}

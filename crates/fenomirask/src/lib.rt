// What a C host calls: the answer to a sheet, or to one line with a state that the host lends, as one number.
#![tactic(auto)]

ghost use Rattle.std.specs.Prelude.{◌+◌, ◌*◌, ◌^◌, ◌<◌, ◌≤◌, ◌≡◌, pos, neg_ℤ, length};
ghost use Rattle.sizes.specs.Sizes.{sheet_bytes};
ghost use Rattle.refusals.specs.Refusals.{number_of as refusal_number};
ghost use Rattle.answered.specs.Answered.{number_of};
ghost use Rattle.debray_allocator.specs.State.{fresh_state};
ghost use Rattle.event_calls.specs.EventCalls.{called, call_filled, last_answered, last_filled};
ghost use Rattle.event_sheets.specs.EventSheets.{answered as answered_events, filled as filled_events};
ghost use Rattle.bundles.specs.Bundles.{answered as answered_bundle, filled as filled_bundle};
ghost use Rattle.check_sheets.specs.CheckSheets.{answered as answered_check, filled as filled_check, ByVerdict};
ghost use Rattle.fenomirask.specs.Numbers.{Fits};

use answered::{Answered, Refused};
use debray_allocator::State;

// The state after a call, and the number for the host.
#[derive(Clone, Copy)]
pub struct Stepped {
    pub state: State,
    pub number: i64,
}

// A count as a signed number.
fn signed(count: usize) -> i64
    requires { count < 2 ^ 63 }
    ensures { result ≡ pos count }
{
    count as i64
}

// A refusal as a signed number, −(16·line + refusal).
fn signed_refusal(refused: Refused) -> i64
    requires { refused.line ≤ sheet_bytes + 1 }
    ensures { result ≡ neg_ℤ (pos (16 * refused.line + refusal_number refused.refusal)) }
{
    let told = signed(16 * refused.line + (refused.refusal.number() as usize));
    -told
}

// An answer as a signed number.
fn number_of(answered: Answered) -> i64
    requires { Fits answered }
    ensures { result ≡ number_of answered }
{
    match answered {
        Ok(count) => signed(count),
        Err(refused) => signed_refusal(refused),
    }
}

// The answer to an event sheet.
pub fn fenomirask_events(sheet: &[u8], out: &mut [u8]) -> i64
    ensures value { result ≡ number_of (answered_events sheet.now (length out.old)) }
    ensures out_after { out.new ≡ filled_events sheet.now out.old }
{
    let answered = event_sheets::answer(sheet, out);
    number_of(answered)
}

// The answer to a bundle.
pub fn fenomirask_bundle(sheet: &[u8], out: &mut [u8]) -> i64
    ensures value { result ≡ number_of (answered_bundle sheet.now (length out.old)) }
    ensures out_after { out.new ≡ filled_bundle sheet.now out.old }
{
    let answered = bundles::answer(sheet, out);
    number_of(answered)
}

// The answer to a check sheet.
pub fn fenomirask_check(sheet: &[u8], out: &mut [u8]) -> i64
    ensures { ByVerdict sheet.now (λ right.
        (result ≡ number_of (answered_check right sheet.now (length out.old)))
        × (out.new ≡ filled_check right sheet.now out.old)) }
{
    let answered = check_sheets::answer(sheet, out);
    number_of(answered)
}

// The answer to one line of an event sheet, with the state by value.
fn step(state: State, line: &[u8], out: &mut [u8]) -> Stepped
    ensures { (result.number ≡ number_of (called state line.now (length out.old)).answered)
        × (result.state ≡ (called state line.now (length out.old)).state)
        × (out.new ≡ call_filled state line.now out.old) }
{
    let called = event_calls::call(state, line, out);
    let answered = called.answered;
    let after = called.state;
    let number = number_of(answered);
    Stepped {
        state: after,
        number,
    }
}

// The answer to one line of an event sheet, given to a state that the host lends.
pub fn fenomirask_event(state: &mut State, line: &[u8], out: &mut [u8]) -> i64
    ensures { (result ≡ number_of (called state.old line.now (length out.old)).answered)
        × (state.new ≡ (called state.old line.now (length out.old)).state)
        × (out.new ≡ call_filled state.old line.now out.old) }
{
    let stepped = step(*state, line, out);
    *state = stepped.state;
    stepped.number
}

// A fresh clause, over whatever the host's state was.
pub fn fenomirask_fresh(state: &mut State)
    ensures { state.new ≡ fresh_state }
{
    let fresh = debray_allocator::fresh();
    *state = fresh;
}

// What a sheet ends with, with the state by value.
fn last(state: State, out: &mut [u8]) -> i64
    ensures { (result ≡ number_of (last_answered state (length out.old)))
        × (out.new ≡ last_filled state out.old) }
{
    let answered = event_calls::put_last(state, out);
    number_of(answered)
}

// What a sheet ends with, of a state that the host lends and that stays as it was.
pub fn fenomirask_end(state: &State, out: &mut [u8]) -> i64
    ensures { (result ≡ number_of (last_answered state.now (length out.old)))
        × (out.new ≡ last_filled state.now out.old) }
{
    last(*state, out)
}

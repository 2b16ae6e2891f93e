// The functions of `fenomirask` under the names by which a C host calls them, each with the promises of the function it calls.
// A function for each, since a C host calls it by its name.
#![tactic(auto)]

ghost use Rattle.std.specs.Prelude.{◌≡◌, length};
ghost use Rattle.answered.specs.Answered.{number_of};
ghost use Rattle.debray_allocator.specs.State.{fresh_state};
ghost use Rattle.event_calls.specs.EventCalls.{called, call_filled, last_answered, last_filled};
ghost use Rattle.event_sheets.specs.EventSheets.{answered as answered_events, filled as filled_events};
ghost use Rattle.bundles.specs.Bundles.{answered as answered_bundle, filled as filled_bundle};
ghost use Rattle.check_sheets.specs.CheckSheets.{answered as answered_check, filled as filled_check, ByVerdict};

use debray_allocator::State;

// The answer to an event sheet.
#[unsafe(no_mangle)]
pub extern "C" fn fenomirask_events(sheet: &[u8], out: &mut [u8]) -> i64
    ensures value { result ≡ number_of (answered_events sheet.now (length out.old)) }
    ensures out_after { out.new ≡ filled_events sheet.now out.old }
{
    fenomirask::fenomirask_events(sheet, out)
}

// The answer to a bundle.
#[unsafe(no_mangle)]
pub extern "C" fn fenomirask_bundle(sheet: &[u8], out: &mut [u8]) -> i64
    ensures value { result ≡ number_of (answered_bundle sheet.now (length out.old)) }
    ensures out_after { out.new ≡ filled_bundle sheet.now out.old }
{
    fenomirask::fenomirask_bundle(sheet, out)
}

// The answer to a check sheet.
#[unsafe(no_mangle)]
pub extern "C" fn fenomirask_check(sheet: &[u8], out: &mut [u8]) -> i64
    ensures { ByVerdict sheet.now (λ right.
        (result ≡ number_of (answered_check right sheet.now (length out.old)))
        × (out.new ≡ filled_check right sheet.now out.old)) }
{
    fenomirask::fenomirask_check(sheet, out)
}

// The answer to one line of an event sheet, given to a state that the host lends.
#[unsafe(no_mangle)]
pub extern "C" fn fenomirask_event(state: &mut State, line: &[u8], out: &mut [u8]) -> i64
    ensures { (result ≡ number_of (called state.old line.now (length out.old)).answered)
        × (state.new ≡ (called state.old line.now (length out.old)).state)
        × (out.new ≡ call_filled state.old line.now out.old) }
{
    fenomirask::fenomirask_event(state, line, out)
}

// A fresh clause, over whatever the host's state was.
#[unsafe(no_mangle)]
pub extern "C" fn fenomirask_fresh(state: &mut State)
    ensures { state.new ≡ fresh_state }
{
    fenomirask::fenomirask_fresh(state)
}

// What a sheet ends with, of a state that the host lends and that stays as it was.
#[unsafe(no_mangle)]
pub extern "C" fn fenomirask_end(state: &State, out: &mut [u8]) -> i64
    ensures { (result ≡ number_of (last_answered state.now (length out.old)))
        × (out.new ≡ last_filled state.now out.old) }
{
    fenomirask::fenomirask_end(state, out)
}

// The whole answer to a bundle: clauses, each answered as an event sheet of its lines alone.
#![tactic(auto)]

ghost use Rattle.std.specs.Prelude.{◌+◌, ◌≤◌, false, ◌≡◌, ◌++◌, length, take};
ghost use Rattle.sizes.specs.Sizes.{sheet_bytes};
ghost use Rattle.printing.specs.Printing.{printed};
ghost use Rattle.answered.specs.Answered.{refusal_text};
ghost use Rattle.event_sheets.specs.EventSheets.{sheet_ran};
ghost use Rattle.event_sheets.specs.Running.{told};
ghost use Rattle.bundles.specs.Bundles.{
  is_clause,
  is_unended,
  is_stray,
  lines_of,
  until_clause,
  sheet_of,
  ran_text,
  answered,
  filled,
};
ghost use Rattle.refusals.specs.Refusals.{number_of as refusal_number, accepted};
ghost use Rattle.bundles.specs.Running.{refusal_before, clauses_ran, Fronts};

use answered::{Answered, Refused};
use event_sheets::Run;
use refusals::Refusal;
use sizes::SHEET_BYTES;
use split::{LINE_FEED, TAB};

// Room for the line of a refusal.
const REFUSAL_BYTES: usize = 32;

// Whether a line's word is `clause`.
fn is_clause(line: &[u8]) -> bool
    ensures { result ≡ is_clause line.now }
{
    let end = split::end_of(line, TAB);
    words::is(split::part_before(line, end), b"clause")
}

// How many bytes the lines before the next `clause` have.
fn end_of_clause(rest: &[u8]) -> usize
    ensures { result ≡ length (sheet_of (until_clause (lines_of rest.now))) }
{
    let mut bytes = 0;
    let mut left = rest;
    let mut end = split::end_of(left, LINE_FEED);
    // What is left behind a line is handed on as a part that starts in the middle.
    while end < left.len() {
        if is_clause(split::part_before(left, end)) {
            return bytes;
        }
        bytes += end + 1;
        let next = split::part_after(left, end);
        left = next;
        end = split::end_of(left, LINE_FEED);
    }
    bytes
}

// Puts the line of a refusal at a place; its length, which counts also where the room has ended.
fn add_refusal(out: &mut [u8], at: usize, line: u32, refusal: Refusal) -> usize
    ensures value { result ≡ length (refusal_text line (refusal_number refusal)) }
    ensures out_after { out.new ≡ printed out.old at (refusal_text line (refusal_number refusal)) }
{
    let mut scratch = [0; REFUSAL_BYTES];
    let length = answered::put_refusal(&mut scratch[..], 0, line, refusal.number());
    printing::put_word(out, at, split::part_before(&scratch, length));
    length
}

// Puts what a clause prints at a place; its length. Of a refused clause only the line of its refusal counts: what its first
// lines printed stands there before, and may stand behind that line afterwards.
fn add_clause(sheet: &[u8], out: &mut [u8], at: usize) -> usize
    requires { length sheet.now ≤ sheet_bytes }
    ensures value { result ≡ length (ran_text (sheet_ran sheet.now)) }
    ensures fronts { Fronts out.old at (ran_text (sheet_ran sheet.now)) out.new }
{
    let run = event_sheets::run_sheet(sheet, out, at);
    match run.refusal {
        Some(refusal) => add_refusal(out, at, run.line as u32, refusal),
        None => run.length,
    }
}

// The clauses of a bundle that begins with one, each with a fresh state and its own line numbers. Their texts are put one
// behind another as far as there is room; what lies past them there is not looked at.
fn run_clauses(bundle: &[u8], out: &mut [u8]) -> Run
    requires fits_a_sheet { length bundle.now ≤ sheet_bytes }
    requires ends_a_line { is_unended bundle.now ≡ false }
    requires begins_a_clause { is_stray (lines_of bundle.now) ≡ false }
    ensures value { result ≡ told (clauses_ran (lines_of bundle.now)) }
    ensures fronts { result.refusal ≡ accepted → Fronts out.old 0 (clauses_ran (lines_of bundle.now)).text out.new }
{
    let mut length = 0;
    let mut rest = bundle;
    // What is left behind a clause is handed on as a part that starts in the middle.
    while 0 < rest.len() {
        let end = split::end_of(rest, LINE_FEED);
        if !words::is(split::part_before(rest, end), b"clause") {
            return Run {
                line: 0,
                refusal: Some(Refusal::Form),
                length: 0,
            };
        }
        let behind = split::part_after(rest, end);
        let end_of_lines = end_of_clause(behind);
        length += add_clause(split::part_before(behind, end_of_lines), out, length);
        let next = fields::rest_after(behind, end_of_lines);
        rest = next;
    }
    Run {
        line: 0,
        refusal: None,
        length,
    }
}

// What refuses a bundle before its clauses are looked at: its length, a last line without LF, a line before the first `clause`.
fn refusal_before(bundle: &[u8]) -> Option<Refusal>
    ensures { result ≡ refusal_before bundle.now }
{
    if SHEET_BYTES < bundle.len() {
        return Some(Refusal::Full);
    }
    match bundle {
        [] => None,
        [.., LINE_FEED] => {
            let end = split::end_of(bundle, LINE_FEED);
            if is_clause(split::part_before(bundle, end)) {
                return None;
            }
            Some(Refusal::Order)
        }
        _ => Some(Refusal::Form),
    }
}

// The answer to a bundle. The clauses are run aside, so that a refusal leaves the lent bytes as they were; an answer too long
// to be kept there is made again in them: in as many bytes as it has, so that none past it is touched.
pub fn answer(bundle: &[u8], out: &mut [u8]) -> Answered
    ensures value { result ≡ answered bundle.now (length out.old) }
    ensures out_after { out.new ≡ filled bundle.now out.old }
{
    if let Some(refusal) = refusal_before(bundle) {
        return Err(Refused { line: 0, refusal });
    }
    let mut text = [0; SHEET_BYTES];
    let run = run_clauses(bundle, &mut text[..]);
    if let Some(refusal) = run.refusal {
        return Err(Refused {
            line: run.line,
            refusal,
        });
    }
    let length = run.length;
    if out.len() < length {
        return Err(Refused {
            line: 0,
            refusal: Refusal::Room,
        });
    }
    if length <= SHEET_BYTES {
        printing::put_word(out, 0, split::part_before(&text, length));
        return Ok(length);
    }
    run_clauses(bundle, &mut out[0..length]);
    Ok(length)
}

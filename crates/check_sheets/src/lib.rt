// The whole answer to a check sheet.
#![tactic(auto)]

ghost use Rattle.std.specs.Prelude.{◌≤◌, ◌≡◌, length};
ghost use Rattle.sizes.specs.Sizes.{sheet_bytes};
ghost use Rattle.refusals.specs.Refusals.{refused_form};
ghost use Rattle.steps.specs.Order.{with_refusal};
ghost use Rattle.symbolic.specs.Symbolic.{taking_of};
ghost use Rattle.verdict.specs.Verdict.{decided};
ghost use Rattle.printing.specs.Printing.{Put};
ghost use Rattle.answered.specs.Answered.{filled_by};
ghost use Rattle.check_sheets.specs.CheckSheets.{
  word_of,
  roomed,
  reading,
  answered,
  filled,
  ByVerdict,
};
ghost use Rattle.check_sheets.specs.Running.{line_taken, last_run, run_of};

use answered::{Answered, Refused};
use refusals::Refusal;
use sizes::SHEET_BYTES;
use split::LINE_FEED;
use steps::{Judged, Order};
use symbolic::Symbols;

// The bytes of a verdict.
pub const VERDICT_BYTES: usize = 9;

// A line that is refused before it is judged.
fn malformed(order: Order) -> Judged
    ensures { result ≡ with_refusal order refused_form }
{
    Judged {
        order,
        refusal: Some(Refusal::Form),
    }
}

// A line read, judged and, where it is accepted, carried out.
fn carry_line(order: Order, symbols: &mut Symbols, line: &[u8]) -> Judged
    ensures { taking_of symbols.new result ≡ line_taken order symbols.old line.now }
{
    match check_lines::read_line(line) {
        None => malformed(order),
        Some(said) => symbolic::take_line(order, symbols, said),
    }
}

// What stands behind the last LF is a line that has none, and goal steps with no `call` after them are reported at the last line;
// otherwise it is told whether the instructions are right.
fn finish(order: Order, symbols: &Symbols, number: usize, left: &[u8]) -> Result<bool, Refused>
    ensures { result ≡ last_run order number left.now (decided symbols.now) }
{
    if 0 < left.len() {
        return Err(Refused {
            line: number,
            refusal: Refusal::Form,
        });
    }
    match steps::refusal_at_end(order) {
        Some(refusal) => Err(Refused {
            line: number.saturating_sub(1),
            refusal,
        }),
        None => Ok(verdict::is_right(symbols)),
    }
}

// The lines of a sheet, one after the other: the first bad one, or whether the instructions are right.
fn run_lines(sheet: &[u8]) -> Result<bool, Refused>
    requires { length sheet.now ≤ sheet_bytes }
    ensures { result ≡ run_of (reading sheet.now) }
{
    let mut symbols = symbolic::nothing();
    symbols.doing.places = symbolic::fresh_places();
    let mut order = steps::fresh_order();
    let mut number = 1;
    let mut rest = sheet;
    let mut end = split::end_of(rest, LINE_FEED);
    // What is left behind a line is handed on as a part that starts in the middle.
    while end < rest.len() {
        let judged = carry_line(order, &mut symbols, split::part_before(rest, end));
        if let Some(refusal) = judged.refusal {
            return Err(Refused {
                line: number,
                refusal,
            });
        }
        order = judged.order;
        let next = split::part_after(rest, end);
        rest = next;
        number += 1;
        end = split::end_of(rest, LINE_FEED);
    }
    finish(order, &symbols, number, rest)
}

// The verdict's word.
fn put_verdict(out: &mut [u8], right: bool) -> usize
    ensures { Put out.old 0 (word_of right) result out.new }
{
    if right {
        return printing::put_word(out, 0, b"accepted\n");
    }
    printing::put_word(out, 0, b"rejected\n")
}

// The verdict written into `out`, where there is room.
fn write_verdict(out: &mut [u8], right: bool) -> Answered
    ensures value { result ≡ roomed right (length out.old) }
    ensures out_after { out.new ≡ filled_by (roomed right (length out.old)) (word_of right) out.old }
{
    if out.len() < VERDICT_BYTES {
        return Err(Refused {
            line: 0,
            refusal: Refusal::Room,
        });
    }
    Ok(put_verdict(out, right))
}

// The answer to a check sheet: its length is tested first, then its lines, and the room last.
pub fn answer(sheet: &[u8], out: &mut [u8]) -> Answered
    ensures { ByVerdict sheet.now (λ right.
        (result ≡ answered right sheet.now (length out.old))
        × (out.new ≡ filled right sheet.now out.old)) }
{
    if SHEET_BYTES < sheet.len() {
        return Err(Refused {
            line: 0,
            refusal: Refusal::Full,
        });
    }
    let right = run_lines(sheet)?;
    write_verdict(out, right)
}

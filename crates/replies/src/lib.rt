// What is printed of a sheet: its answer, or only the line of its refusal.
#![tactic(auto)]

ghost use Rattle.std.specs.Prelude.{length};
ghost use Rattle.printing.specs.Printing.{Put};
ghost use Rattle.check_sheets.specs.CheckSheets.{ByVerdict};
ghost use Rattle.replies.specs.Replies.{
  event_reply,
  bundle_reply,
  check_reply,
  Printable,
  Told,
};

use answered::Answered;

// An answer that was written stays as it is; of a refusal its line is put.
fn put_told(answered: Answered, out: &mut [u8]) -> usize
    requires { Printable answered }
    ensures { Told answered out.old result out.new }
{
    match answered {
        Ok(count) => count,
        Err(refused) => answered::put_refusal(
            out,
            0,
            refused.line as u32,
            refused.refusal.number(),
        ),
    }
}

// Three functions, since each promises the answer to another kind of sheet.
// What is printed of an event sheet. The lent bytes are the room of its answer.
pub fn put_event_reply(sheet: &[u8], out: &mut [u8]) -> usize
    ensures { Put out.old 0 (event_reply sheet.now (length out.old)) result out.new }
{
    let answered = event_sheets::answer(sheet, out);
    put_told(answered, out)
}

// What is printed of a bundle. The lent bytes are the room of its answer.
pub fn put_bundle_reply(bundle: &[u8], out: &mut [u8]) -> usize
    ensures { Put out.old 0 (bundle_reply bundle.now (length out.old)) result out.new }
{
    let answered = bundles::answer(bundle, out);
    put_told(answered, out)
}

// What is printed of a check sheet. The lent bytes are the room of its answer.
pub fn put_check_reply(sheet: &[u8], out: &mut [u8]) -> usize
    ensures { ByVerdict sheet.now (λ right.
        Put out.old 0 (check_reply right sheet.now (length out.old)) result out.new) }
{
    let answered = check_sheets::answer(sheet, out);
    put_told(answered, out)
}

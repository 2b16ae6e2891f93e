// Lines and fields, each handed back as a part of the caller's bytes.
//
// A sheet is cut at its line feeds and a line at its tabs in the same three steps: `end_of` finds where the first part
// ends, `part_before` is that part, and `part_after` is what follows its mark, a part that starts in the middle. The end
// is found once and handed to both.
#![tactic(auto)]

ghost use Rattle.std.specs.Prelude.{◌≡◌, ◌+◌, length, take, drop};
ghost use Rattle.split.specs.Split.{before};

// The mark between two fields.
pub const TAB: u8 = b'\t';
// The mark at the end of a line.
pub const LINE_FEED: u8 = b'\n';

// How many bytes stand before the first mark: all of them where there is none.
pub fn end_of(bytes: &[u8], mark: u8) -> usize
    ensures { result ≡ length (before mark bytes.now) }
{
    bytes
        .iter()
        .position(|&byte| byte == mark)
        .unwrap_or(bytes.len())
}

// The first `end` bytes: the line, or the field, that ends there.
pub fn part_before(bytes: &[u8], end: usize) -> &[u8]
    ensures { result.now ≡ take end bytes.now }
{
    if end <= bytes.len() {
        return &bytes[0..end];
    }
    bytes
}

// What follows the mark at `end`: the rest of the sheet, or of the line; nothing where no mark stands there.
pub fn part_after(bytes: &[u8], end: usize) -> &[u8]
    ensures { result.now ≡ drop (end + 1) bytes.now }
{
    if end < bytes.len() {
        return &bytes[end + 1..];
    }
    &bytes[0..0]
}

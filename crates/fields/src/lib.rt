// The fields of a line, one by one, each a part of it.
//
// What is left of a line begins with the mark before its next field; where it is empty, no field is left. The byte at its
// start is skipped whatever it is: a list may start behind a tab and go on with commas. The end of a field is found once
// and handed to both functions that cut there.
#![tactic(auto)]

ghost use Rattle.std.specs.Prelude.{◌≡◌, ◌-◌, take, drop};
ghost use Rattle.fields.specs.Fields.{field_end};

// Where the next field ends, counted from the mark before it.
pub fn end_of_field(rest: &[u8], mark: u8) -> usize
    ensures { result ≡ field_end mark rest.now }
{
    let fields = split::part_after(rest, 0);
    1 + split::end_of(fields, mark)
}

// The next field, which ends there.
pub fn field(rest: &[u8], end: usize) -> &[u8]
    ensures { result.now ≡ take (end - 1) (drop 1 rest.now) }
{
    let marked = split::part_before(rest, end);
    split::part_after(marked, 0)
}

// What is left behind it.
pub fn rest_after(rest: &[u8], end: usize) -> &[u8]
    ensures { result.now ≡ drop end rest.now }
{
    if end <= rest.len() {
        return &rest[end..];
    }
    &rest[0..0]
}

// Replays sheets whose answers are known, and says which are answered otherwise.
//
// Standard input holds for each sheet a line of three fields: its kind, `events`, `check` or `bundle`, the bytes of the
// sheet and those of its answer; behind it the sheet; behind that the answer, as the program for this kind prints it.
// Printed are the numbers of the sheets that differ, from 1, and at the end how many sheets there were and how many differ.
// An input that is not of this form is given up at the first sheet that shows it.
#![tactic(auto)]

use inputs::ReadAnswer;
use sizes::{LAST_NUMBER, SHEET_BYTES};
use split::{LINE_FEED, TAB};
use std::io::{self, Read};

// The longest sheet: some are longer than a sheet may be.
const INPUT_BYTES: usize = 2 * SHEET_BYTES;
// Room for a kind, two numbers and the tabs between them.
const LEAD_BYTES: usize = 32;
// Stands in the lent bytes before a sheet is answered. No answer has this byte.
const UNTOUCHED: u8 = 255;

// A kind of sheet.
#[derive(Clone, Copy)]
enum Kind {
    Events,
    Check,
    Bundle,
}

// What leads a sheet: its kind, the bytes of the sheet and of its answer.
#[derive(Clone, Copy)]
struct Lead {
    kind: Kind,
    sheet: usize,
    answer: usize,
}

// Why no sheet is replayed: there is none, what there is did not come whole, or it is no sheet.
#[derive(Clone, Copy)]
enum Stop {
    End,
    Unread,
    Malformed,
}

fn next_byte(from: &mut impl Read) -> Option<u8> {
    let mut byte = [0u8; 1];
    from.read_exact(&mut byte).ok()?;
    Some(byte[0])
}

// Whether the input ended where no byte came: only a further read says so.
fn is_ended(from: &mut impl Read) -> bool {
    let mut byte = [0u8; 1];
    inputs::answer_of(&from.read(&mut byte)) == ReadAnswer::AtTheEnd
}

// Where no byte came in a line, after so many bytes of it.
fn ended_after(from: &mut impl Read, bytes: usize) -> Stop {
    if !is_ended(from) {
        return Stop::Unread;
    }
    if bytes == 0 {
        return Stop::End;
    }
    Stop::Malformed
}

// Where fewer bytes came than a sheet and its answer have.
fn cut_short(from: &mut impl Read) -> Stop {
    if is_ended(from) {
        return Stop::Malformed;
    }
    Stop::Unread
}

// A number of bytes.
fn size_of(field: &[u8]) -> Result<usize, Stop> {
    numbers::read(field)
        .map(|n| n as usize)
        .ok_or(Stop::Malformed)
}

fn kind_of(word: &[u8]) -> Result<Kind, Stop> {
    match word {
        b"events" => Ok(Kind::Events),
        b"check" => Ok(Kind::Check),
        b"bundle" => Ok(Kind::Bundle),
        _ => Err(Stop::Malformed),
    }
}

// What a line says.
fn lead_of(line: &[u8]) -> Result<Lead, Stop> {
    let end_of_kind = split::end_of(line, TAB);
    let sizes = split::part_after(line, end_of_kind);
    let end_of_size = split::end_of(sizes, TAB);
    Ok(Lead {
        kind: kind_of(split::part_before(line, end_of_kind))?,
        sheet: size_of(split::part_before(sizes, end_of_size))?,
        answer: size_of(split::part_after(sizes, end_of_size))?,
    })
}

// Reads the line that leads a sheet.
fn read_lead(from: &mut impl Read) -> Result<Lead, Stop> {
    let mut line = [0u8; LEAD_BYTES];
    for i in 0..LEAD_BYTES {
        let Some(byte) = next_byte(from) else {
            return Err(ended_after(from, i));
        };
        if byte == LINE_FEED {
            return lead_of(split::part_before(&line, i));
        }
        line[i] = byte;
    }
    Err(Stop::Malformed)
}

// Reads exactly so many bytes, for which there is room.
fn read_exactly(from: &mut impl Read, bytes: &mut [u8], size: usize) -> Result<(), Stop> {
    if size <= bytes.len() && from.read_exact(&mut bytes[..size]).is_ok() {
        return Ok(());
    }
    Err(cut_short(from))
}

// Whether bytes are as they were before. All are looked at, since a walk that ends at the first other one takes longer where
// there is none.
fn is_untouched(bytes: &[u8]) -> bool {
    let mut changed = 0;
    for byte in bytes {
        changed |= *byte ^ UNTOUCHED;
    }
    changed == 0
}

// Whether a reply that ends at `end` is the one that is wanted, and what is behind it was there before.
fn is_wanted(out: &[u8], end: usize, wanted: &[u8]) -> bool {
    let Some((reply, behind)) = out.split_at_checked(end) else {
        return false;
    };
    words::is(reply, wanted) && is_untouched(behind)
}

fn put_reply(kind: Kind, sheet: &[u8], out: &mut [u8]) -> usize {
    match kind {
        Kind::Events => replies::put_event_reply(sheet, out),
        Kind::Check => replies::put_check_reply(sheet, out),
        Kind::Bundle => replies::put_bundle_reply(sheet, out),
    }
}

// Reads a sheet and its answer, and answers the sheet; whether the reply is that answer.
fn replay(from: &mut impl Read, lead: Lead) -> Result<bool, Stop> {
    let mut sheet = [0u8; INPUT_BYTES];
    let mut wanted = [0u8; SHEET_BYTES];
    let mut out = [UNTOUCHED; SHEET_BYTES];
    if INPUT_BYTES < lead.sheet || SHEET_BYTES < lead.answer {
        return Err(Stop::Malformed);
    }
    read_exactly(from, &mut sheet, lead.sheet)?;
    read_exactly(from, &mut wanted, lead.answer)?;
    let end = put_reply(lead.kind, split::part_before(&sheet, lead.sheet), &mut out);
    Ok(is_wanted(&out, end, split::part_before(&wanted, lead.answer)))
}

// Replays the next sheet of the input.
fn replay_next(from: &mut impl Read) -> Result<bool, Stop> {
    let lead = read_lead(from)?;
    replay(from, lead)
}

// Says where a line was not written.
fn told(rt: &impl Eprint, written: io::Result<()>) {
    if written.is_err() {
        let _ = rt.eprintln("replays: an answer was not written whole");
    }
}

fn write_differs(rt: &impl Print, number: u32) -> io::Result<()> {
    rt.print(number)?;
    rt.write_all(b"\n")
}

// Says that a sheet differs.
fn say_differs(rt: &(impl Print + Eprint), number: u32) {
    told(rt, write_differs(rt, number));
}

fn write_malformed(rt: &impl Print, number: u32) -> io::Result<()> {
    rt.write_all(b"malformed: sheet ")?;
    rt.print(number)?;
    rt.write_all(b"\n")
}

// Says that a sheet is none.
fn say_malformed(rt: &(impl Print + Eprint), number: u32) {
    told(rt, write_malformed(rt, number));
}

// Says that the input did not come whole.
fn say_unread(rt: &impl Eprint) {
    let _ = rt.eprintln("replays: no answer, since the input did not come whole");
}

fn write_counts(rt: &impl Print, sheets: u32, differ: u32) -> io::Result<()> {
    rt.print(sheets)?;
    rt.write_all(b" sheets, ")?;
    rt.print(differ)?;
    rt.write_all(b" differ\n")
}

// Says how many sheets there were and how many differ.
fn say_counts(rt: &(impl Print + Eprint), sheets: u32, differ: u32) {
    told(rt, write_counts(rt, sheets, differ));
}

fn main(rt: HostRuntime) {
    let mut from = rt.stdin();
    let mut differ = 0;
    for sheets in 0..LAST_NUMBER {
        match replay_next(&mut from) {
            Ok(true) => {}
            Ok(false) => {
                say_differs(&rt, sheets + 1);
                differ = std::num::wrapping_add_u32(differ, 1);
            }
            Err(Stop::End) => {
                say_counts(&rt, sheets, differ);
                return;
            }
            Err(Stop::Unread) => {
                say_unread(&rt);
                return;
            }
            Err(Stop::Malformed) => {
                say_malformed(&rt, sheets + 1);
                return;
            }
        }
    }
}

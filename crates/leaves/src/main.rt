// Shows what the leaves make of the lines on standard input. For each line: the word `end` where it is that word, else
// for each field its number, or `-` where it is none; then, each behind a tab, the registers among the numbers, least
// first. A line whose answer finds no room in 4,096 bytes is answered `full`.
#![tactic(auto)]

use bit_set::BitSet;
use inputs::ReadAnswer;
use registers::RegType;
use sizes::{LAST_REGISTER, SHEET_BYTES};
use split::{LINE_FEED, TAB};
use std::io::Read;

// An answer so far: the place after it, and the numbers that are registers.
#[derive(Clone, Copy)]
struct Shown {
    at: usize,
    found: BitSet,
}

// One field's answer.
fn show_field(out: &mut [u8], shown: Shown, field: &[u8]) -> Shown {
    match numbers::read(field) {
        None => Shown {
            at: printing::put_byte(out, shown.at, b'-'),
            found: shown.found,
        },
        Some(n) => Shown {
            at: printing::put_number(out, shown.at, n),
            found: with_register(shown.found, n),
        },
    }
}

// The set with n, if n is a register's number.
fn with_register(found: BitSet, n: u32) -> BitSet {
    if sizes::is_register(n) {
        return bit_set::insert(found, n);
    }
    found
}

// The fields' answers, with a tab between each two.
fn show_fields(out: &mut [u8], line: &[u8]) -> Shown {
    let mut shown = Shown {
        at: 0,
        found: bit_set::empty(),
    };
    for (i, field) in line.split(|&byte| byte == TAB).enumerate() {
        if 0 < i {
            shown.at = printing::put_byte(out, shown.at, TAB);
        }
        shown = show_field(out, shown, field);
    }
    shown
}

// A tab and the register `r`, if it is a member.
fn show_member(out: &mut [u8], at: usize, found: BitSet, r: u32) -> usize {
    if bit_set::contains(found, r) {
        let next = printing::put_byte(out, at, TAB);
        return registers::put_register(out, next, RegType::Temp(r));
    }
    at
}

// The members of the set, least first.
fn show_set(out: &mut [u8], at: usize, found: BitSet) -> usize {
    let mut next = at;
    for r in 1..=LAST_REGISTER {
        next = show_member(out, next, found, r);
    }
    next
}

// A line's whole answer; the place after it.
fn show_line(out: &mut [u8], line: &[u8]) -> usize {
    if words::is(line, b"end") {
        return printing::put_word(out, 0, b"end\n");
    }
    let shown = show_fields(out, line);
    let next = show_set(out, shown.at, shown.found);
    printing::put_byte(out, next, LINE_FEED)
}

// Writes a text to standard output; standard error says where that failed.
fn write(rt: &(impl Print + Eprint), text: &[u8]) {
    if rt.write_all(text).is_err() {
        let _ = rt.eprintln("leaves: an answer was not written whole");
    }
}

// Writes the answer that ends at `end`, or `full` where it found no room.
fn say(rt: &(impl Print + Eprint), answer: &[u8], end: usize) {
    if end <= answer.len() {
        write(rt, &answer[0..end]);
    } else {
        write(rt, b"full\n");
    }
}

// Each line that ends in a line feed.
fn show_lines(rt: &HostRuntime, sheet: &[u8]) {
    let mut out = [0u8; 4096];
    for part in sheet.split_inclusive(|&byte| byte == LINE_FEED) {
        if let [line @ .., LINE_FEED] = part {
            let end = show_line(&mut out, line);
            say(rt, &out, end);
        }
    }
}

// Reads until the room is full, the input ends or a read fails; how many bytes came.
// A loop with no count: how many reads it takes, the input alone says.
fn read_input(from: &mut impl Read, input: &mut [u8]) -> usize {
    let mut came = 0;
    // A read says how far it came, so nothing is counted.
    while came < input.len() {
        let more = from.read(&mut input[came..]).unwrap_or(0);
        if more == 0 {
            return came;
        }
        came += more;
    }
    came
}

fn main(rt: HostRuntime) {
    let mut from = rt.stdin();
    let mut input = [0u8; SHEET_BYTES];
    let came = read_input(&mut from, &mut input);
    let mut byte = [0u8; 1];
    let further = inputs::answer_of(&from.read(&mut byte));
    if further == ReadAnswer::AtTheEnd {
        show_lines(&rt, split::part_before(&input, came));
    } else {
        let _ = rt.eprintln("leaves: no answer, since the input did not come whole");
    }
}

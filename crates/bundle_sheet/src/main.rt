// Answers the bundle on standard input: prints the answers to its clauses, one behind another, or only `no`, line 0 and the
// refusal's number. A bundle that did not come whole is not answered, and standard error says so. Standard output alone cannot
// tell: an empty bundle prints nothing, too.
#![tactic(auto)]

use inputs::{INPUT_BYTES, ReadAnswer};
use sizes::SHEET_BYTES;
use std::io::Read;

// Prints the answer to a bundle. Where it cannot be written, what was written of it is no answer.
fn answer(rt: &(impl Print + Eprint), bundle: &[u8]) {
    let mut out = [0u8; SHEET_BYTES];
    let end = replies::put_bundle_reply(bundle, &mut out);
    if rt.write_all(split::part_before(&out, end)).is_err() {
        let _ = rt.eprintln("bundle_sheet: the answer was not written whole");
    }
}

// In each program for sheets, since no contract tells what a stream gives, and a public function has a whole one.
// Reads until the room is full, the input ends or a read fails; what the last read answered. A failure is reported once by some
// inputs, and then an end that is none: so nothing is read behind one. Each turn but the last brings a byte.
fn read_input(from: &mut impl Read, input: &mut [u8], came: &mut usize) -> ReadAnswer {
    let mut last = ReadAnswer::AtTheEnd;
    for _ in 0..INPUT_BYTES {
        if INPUT_BYTES <= *came {
            return last;
        }
        let mut part = [0u8; 4096];
        let read = from.read(&mut part);
        last = inputs::answer_of(&read);
        let more = read.unwrap_or(0);
        if more == 0 {
            return last;
        }
        *came = printing::put_word(input, *came, split::part_before(&part, more));
    }
    last
}

fn main(rt: HostRuntime) {
    let mut from = rt.stdin();
    let mut input = [0u8; INPUT_BYTES];
    let mut came = 0;
    let mut further = read_input(&mut from, &mut input, &mut came);
    if further == ReadAnswer::AtTheEnd {
        let mut byte = [0u8; 1];
        further = inputs::answer_of(&from.read(&mut byte));
    }
    if inputs::is_whole(came, further.number()) {
        answer(&rt, split::part_before(&input, came));
    } else {
        let _ = rt.eprintln("bundle_sheet: no answer, since the bundle did not come whole");
    }
}

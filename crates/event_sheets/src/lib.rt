// The whole answer to an event sheet.
#![tactic(auto)]

ghost use Rattle.std.specs.Prelude.{◌≡◌, ◌+◌, ◌*◌, ◌≤◌, length, take};
ghost use Rattle.refusals.specs.Refusals.{refused_form};
ghost use Rattle.sizes.specs.Sizes.{sheet_bytes};
ghost use Rattle.printing.specs.Printing.{printed};
ghost use Rattle.debray_allocator.specs.State.{state_of};
ghost use Rattle.debray_allocator.specs.DebrayAllocator.{answer_of, by_refusal};
ghost use Rattle.answers.specs.AnswersLaws.{longest};
ghost use Rattle.event_sheets.specs.EventSheets.{
  max_reg_allocated,
  num_perm_vars,
  last_ran,
  sheet_ran,
  answered,
  filled,
};
ghost use Rattle.event_sheets.specs.Running.{line_acted, whole_ran, told, told_behind};

use allocation::TempFreeList;
use allocator_state::Counters;
use answered::{Answered, Refused};
use answers::LONGEST;
use branch_stack::BranchStack;
use code_deque::CodeDeque;
use debray_allocator::Acted;
use perm_free_list::PermFreeList;
use refusals::Refusal;
use restricting_sets::VariableSets;
use shallow_temp_mappings::Mappings;
use sizes::SHEET_BYTES;
use split::LINE_FEED;
use variable_records::Records;

// A sheet of at most so many bytes is small, and the list of its lines' entries is as long.
const SMALL_SHEET: usize = 512;

// A sheet of at most so many bytes is short, and so many bytes of answer are kept aside for it.
const SHORT_SHEET: usize = 2_048;

const SHORT_TEXT: usize = 8_192;

// A run over the lines of a sheet: where it was refused and why, and the length of its text, which counts also where the
// room has ended. A struct and no Result, since the length is told of a refused run too.
#[derive(Clone, Copy)]
pub struct Run {
    pub line: usize,
    pub refusal: Option<Refusal>,
    pub length: usize,
}

// A line that has no form changes nothing.
fn malformed(counters: Counters) -> Acted
    ensures { result ≡ by_refusal counters refused_form }
{
    Acted {
        counters,
        code: CodeDeque::Empty,
        at: None,
        refusal: Some(Refusal::Form),
    }
}

// The entries of a list of which so many were read.
fn entries_of(list: &[u32], count: usize) -> &[u32]
    ensures { result.now ≡ take count list.now }
{
    if count <= list.len() {
        return &list[0..count];
    }
    list
}

// Reads a line and carries it out. A line has no more entries than bytes, so that a list as long as the line has room.
fn carry_line(
    counters: Counters,
    records: &mut Records,
    sets: &mut VariableSets,
    mappings: &mut Mappings,
    freed_registers: &mut TempFreeList,
    freed_slots: &mut PermFreeList,
    branches: &mut BranchStack,
    list: &mut [u32],
    line: &[u8],
) -> Acted
    requires { length line.now ≤ length list.old }
    ensures { answer_of records.new sets.new mappings.new freed_registers.new freed_slots.new branches.new result ≡ line_acted (state_of counters records.old sets.old mappings.old freed_registers.old freed_slots.old branches.old) line.now }
{
    match event_lines::read_line(line, list) {
        None => malformed(counters),
        Some(said) => debray_allocator::act(
            counters,
            records,
            sets,
            mappings,
            freed_registers,
            freed_slots,
            branches,
            said.event,
            entries_of(list, said.entries),
        ),
    }
}

// The highest register allocated.
pub fn max_reg_allocated(counters: Counters) -> u32
    ensures { result ≡ max_reg_allocated counters }
{
    counters.arg_c.max(counters.temp_lb)
}

// The number of permanent variables.
pub fn num_perm_vars(counters: Counters) -> u32
    ensures { result ≡ num_perm_vars counters }
{
    counters.perm_lb.saturating_sub(1)
}

// What stands behind the last line feed: nothing, and the last line is added; or a line that has none.
fn finish(
    counters: Counters,
    out: &mut [u8],
    at: usize,
    length: usize,
    number: usize,
    left: &[u8],
) -> Run
    requires { length ≤ longest * (sheet_bytes + 1) }
    ensures value { result ≡ told_behind length (last_ran counters number left.now) }
    ensures out_after { out.new ≡ printed out.old at (last_ran counters number left.now).text }
{
    if 0 < left.len() {
        return Run {
            line: number,
            refusal: Some(Refusal::Form),
            length,
        };
    }
    let mut scratch = [0; LONGEST];
    let registers = max_reg_allocated(counters);
    let slots = num_perm_vars(counters);
    let adding = answers::add_end(&mut scratch, out, at, registers, slots);
    Run {
        line: 0,
        refusal: None,
        length: length + adding.length,
    }
}

// Runs over the lines of a sheet, the first bad one deciding. Their text is put at a place, as far as there is room.
fn run_lines(sheet: &[u8], list: &mut [u32], out: &mut [u8], from: usize) -> Run
    requires sheet_len_bound { length sheet.now ≤ sheet_bytes }
    requires sheet_in_bounds { length sheet.now ≤ length list.old }
    ensures value { result ≡ told (sheet_ran sheet.now) }
    ensures out_after { out.new ≡ printed out.old from (sheet_ran sheet.now).text }
{
    let mut state = debray_allocator::fresh();
    let mut scratch = [0; LONGEST];
    let mut number = 1;
    let mut length = 0;
    let mut at = from;
    let mut rest = sheet;
    let mut end = split::end_of(rest, LINE_FEED);
    // What is left behind a line is handed on as a part that starts in the middle.
    while end < rest.len() {
        let acted = carry_line(
            state.counters,
            &mut state.records,
            &mut state.sets,
            &mut state.mappings,
            &mut state.freed_registers,
            &mut state.freed_slots,
            &mut state.branches,
            list,
            split::part_before(rest, end),
        );
        if acted.refusal.is_some() {
            return Run {
                line: number,
                refusal: acted.refusal,
                length,
            };
        }
        state.counters = acted.counters;
        let code = acted.code;
        let place = acted.at;
        let adding = answers::add_answer(&mut scratch, out, at, code, place);
        at = adding.place;
        length += adding.length;
        let next = split::part_after(rest, end);
        rest = next;
        number += 1;
        end = split::end_of(rest, LINE_FEED);
    }
    finish(state.counters, out, at, length, number, rest)
}

// Runs over a sheet, whose text is put at a place. The list of a small or a short one is no longer than such a sheet, since
// clearing it takes longer than running. Inlined, so that a bundle takes the room of the longest list once, and not for each
// clause.
#[inline(always)]
pub fn run_sheet(sheet: &[u8], out: &mut [u8], at: usize) -> Run
    ensures value { result ≡ told (whole_ran sheet.now) }
    ensures out_after { out.new ≡ printed out.old at (whole_ran sheet.now).text }
{
    if SHEET_BYTES < sheet.len() {
        return Run {
            line: 0,
            refusal: Some(Refusal::Full),
            length: 0,
        };
    }
    if sheet.len() <= SMALL_SHEET {
        let mut list = [0; SMALL_SHEET];
        return run_lines(sheet, &mut list[..], out, at);
    }
    if sheet.len() <= SHORT_SHEET {
        let mut list = [0; SHORT_SHEET];
        return run_lines(sheet, &mut list[..], out, at);
    }
    let mut list = [0; SHEET_BYTES];
    run_lines(sheet, &mut list[..], out, at)
}

// The answer to a sheet. The first run is made aside, so that a refusal leaves the lent bytes as they were; an answer too long
// to be kept there is made again in them.
fn answer_aside(sheet: &[u8], text: &mut [u8], out: &mut [u8]) -> Answered
    ensures value { result ≡ answered sheet.now (length out.old) }
    ensures out_after { out.new ≡ filled sheet.now out.old }
{
    let run = run_sheet(sheet, text, 0);
    if let Some(refusal) = run.refusal {
        return Err(Refused {
            line: run.line,
            refusal,
        });
    }
    if out.len() < run.length {
        return Err(Refused {
            line: 0,
            refusal: Refusal::Room,
        });
    }
    if run.length <= text.len() {
        printing::put_word(out, 0, split::part_before(text, run.length));
        return Ok(run.length);
    }
    run_sheet(sheet, out, 0);
    Ok(run.length)
}

// The answer to an event sheet: its length decides first, then its lines, and the room last. A short sheet is given a short
// text, since clearing it takes longer than answering.
pub fn answer(sheet: &[u8], out: &mut [u8]) -> Answered
    ensures value { result ≡ answered sheet.now (length out.old) }
    ensures out_after { out.new ≡ filled sheet.now out.old }
{
    if sheet.len() <= SHORT_SHEET {
        let mut text = [0; SHORT_TEXT];
        return answer_aside(sheet, &mut text[..], out);
    }
    let mut text = [0; SHEET_BYTES];
    answer_aside(sheet, &mut text[..], out)
}

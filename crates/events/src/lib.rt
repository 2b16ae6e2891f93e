// What a line of an event sheet says, and what refuses it before it is carried out: order, sizes, and lists and counters
// that are full.
#![tactic(auto)]

ghost use Rattle.std.specs.Prelude.{◌≡◌};
ghost use Rattle.events.specs.Events.{
  is_context,
  is_use,
  entry_fits,
  all_fit,
  context_fits,
  in_size,
  takes_argument,
  is_shallow,
  is_full,
  is_record,
  refusal_by_size,
  refusal_before,
};

use allocator_state::Counters;
use forms::{GenContext, Level};
use refusals::Refusal;
use sizes::{LAST_CHUNK, LAST_COUNTER, LAST_REGISTER, USES, VARIABLES};
use targets::Target;

// In the place of a head's variable: the argument is none. A number, since an event's list is numbers, by the core's form.
pub const NO_VARIABLE: u32 = VARIABLES as u32;

// A record or an event. The uses of `Temp`, the arguments of `Head` and the variables of `Close` are lent beside it, as a
// list of numbers.
#[derive(Clone, Copy)]
pub enum Event {
    Temp(GenContext, u32),
    Perm(u32),
    Sets,
    Head,
    Args(u32),
    Var(Target, Level, GenContext, u32),
    Anon(Target, Level, GenContext),
    NonVar(Level, GenContext, u32),
    Cut(u32, u32),
    Incr(u32),
    Free(u32, u32),
    Safe(u32),
    Give(u32),
    Tail(u32),
    Next,
    Open(u32, u32, u32),
    Arm(u32, u32),
    Take,
    Close(u32),
    Reset,
    Contents,
    ClearFree,
}

// What the entries of a list are. An enum and no function handed in, since the definition `entry_fits` speaks of each.
#[derive(Clone, Copy)]
pub enum Entries {
    Uses,
    Arguments,
    Variables,
}

// Whether a number stands for the head, or for a context of a chunk that there is.
#[tactic(auto, unfolding(crate::specs::Events::is_context))]
fn is_context(context: u32) -> bool
    ensures { result ≡ is_context context }
{
    let first = temp_var_data::context_of(temp_var_data::mid_use(0, 0));
    let last = temp_var_data::context_of(temp_var_data::last_use(LAST_CHUNK, 0));
    context == 0 || first <= context && context <= last
}

// Whether a number stands for a use of a register that there is, in a chunk that there is.
#[tactic(auto, unfolding(crate::specs::Events::is_use))]
pub fn is_use(code: u32) -> bool
    ensures { result ≡ is_use code }
{
    let register = temp_var_data::register_of(code);
    let context = temp_var_data::context_of(code);
    sizes::is_register(register) && is_context(context)
}

// Whether an entry of a list is inside its size, or names one of so many variables.
fn entry_fits(entries: Entries, records: u32, n: u32) -> bool
    ensures { result ≡ entry_fits entries records n }
{
    match entries {
        Entries::Uses => is_use(n),
        Entries::Arguments => n == NO_VARIABLE || n < records,
        Entries::Variables => n < records,
    }
}

// Whether every entry of a list is.
fn all_fit(entries: Entries, records: u32, list: &[u32]) -> bool
    ensures { result ≡ all_fit entries records list.now }
{
    list.iter().all(|n| entry_fits(entries, records, *n))
}

// Whether a context's chunk is inside its size.
fn context_fits(context: GenContext) -> bool
    ensures { result ≡ context_fits context }
{
    sizes::is_chunk(forms::chunk_num(context))
}

// Whether every number of a line is inside its size or names one of so many variables.
fn is_in_size(records: u32, event: Event, list: &[u32]) -> bool
    ensures { result ≡ in_size records event list.now }
{
    match event {
        Event::Temp(context, occurrences) => {
            context_fits(context)
                && sizes::is_count(occurrences)
                && all_fit(Entries::Uses, records, list)
        }
        Event::Perm(occurrences) => sizes::is_count(occurrences),
        Event::Head => all_fit(Entries::Arguments, records, list),
        Event::Args(count) => sizes::is_argument(count),
        Event::Var(_, _, context, v) => context_fits(context) && v < records,
        Event::Anon(_, _, context) => context_fits(context),
        Event::NonVar(_, context, cell) => context_fits(context) && sizes::is_argument(cell),
        Event::Cut(v, chunk) => v < records && sizes::is_chunk(chunk),
        Event::Free(chunk, v) => sizes::is_chunk(chunk) && v < records,
        Event::Incr(v) | Event::Safe(v) => v < records,
        Event::Give(r) => sizes::is_register(r),
        Event::Tail(tail) => tail <= 1,
        Event::Open(_, _, arms) => sizes::is_count(arms),
        Event::Close(_) => all_fit(Entries::Variables, records, list),
        Event::Sets
        | Event::Next
        | Event::Arm(_, _)
        | Event::Take
        | Event::Reset
        | Event::Contents
        | Event::ClearFree => true,
    }
}

// Whether a term at a level is an argument.
fn takes_argument(level: Level) -> bool
    ensures { result ≡ takes_argument level }
{
    matches!(level, Level::Root | Level::Shallow)
}

// Whether a term at a level is an argument of a goal or of the head.
fn is_shallow(level: Level) -> bool
    ensures { result ≡ is_shallow level }
{
    matches!(level, Level::Shallow)
}

// Whether a line has a list too long, is one record too many, or
// needs an argument where the counter stands at its last.
fn is_full(counters: Counters, event: Event, entries: usize) -> bool
    ensures { result ≡ is_full counters event entries }
{
    let last = LAST_COUNTER <= counters.arg_c;
    match event {
        Event::Temp(_, _) => USES < entries || VARIABLES as u32 <= counters.records,
        Event::Perm(_) => VARIABLES as u32 <= counters.records,
        Event::Head => (LAST_REGISTER as usize) < entries,
        Event::Close(_) => VARIABLES < entries,
        Event::Var(_, level, _, _) | Event::Anon(_, level, _) => takes_argument(level) && last,
        Event::NonVar(level, _, _) => is_shallow(level) && last,
        Event::Next => last,
        Event::Sets
        | Event::Args(_)
        | Event::Cut(_, _)
        | Event::Incr(_)
        | Event::Free(_, _)
        | Event::Safe(_)
        | Event::Give(_)
        | Event::Tail(_)
        | Event::Open(_, _, _)
        | Event::Arm(_, _)
        | Event::Take
        | Event::Reset
        | Event::Contents
        | Event::ClearFree => false,
    }
}

// Whether a line is a record.
pub fn is_record(event: Event) -> bool
    ensures { result ≡ is_record event }
{
    matches!(event, Event::Temp(_, _) | Event::Perm(_))
}

// The refusal by a number outside its size, and then by what is full.
fn refusal_by_size(counters: Counters, event: Event, list: &[u32]) -> Option<Refusal>
    ensures { result ≡ refusal_by_size counters event list.now }
{
    match is_in_size(counters.records, event, list) {
        true => match is_full(counters, event, list.len()) {
            true => Some(Refusal::Full),
            false => None,
        },
        false => Some(Refusal::Size),
    }
}

// The refusal of a line before it is carried out: a record after an event, then the sizes, then what is full.
pub fn refusal_before(counters: Counters, event: Event, list: &[u32]) -> Option<Refusal>
    ensures { result ≡ refusal_before counters event list.now }
{
    let too_late = is_record(event) && 0 < counters.events_seen;
    match too_late {
        true => Some(Refusal::Order),
        false => refusal_by_size(counters, event, list),
    }
}

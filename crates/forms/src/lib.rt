// Where a term stands: its context and its level; and branches of a clause, each a start and a span.
#![tactic(auto)]

ghost use Rattle.std.specs.Prelude.{◌≡◌};
ghost use Rattle.forms.specs.Forms.{chunk_num, has_as_subbranch};

// The head, or a goal with its chunk: one in the middle of a chunk or the chunk's last.
#[derive(Clone, Copy)]
pub enum GenContext {
    Head,
    Mid(u32),
    Last(u32),
}

// The term itself, an argument of a head or goal, or a subterm of one.
#[derive(Clone, Copy)]
pub enum Level {
    Root,
    Shallow,
    Deep,
}

// A branch.
#[derive(Clone, Copy)]
pub struct Branch {
    pub start: u32,
    pub span: u32,
}

// The chunk of a context.
pub fn chunk_num(context: GenContext) -> u32
    ensures { result ≡ chunk_num context }
{
    match context {
        GenContext::Head => 0,
        GenContext::Mid(chunk) | GenContext::Last(chunk) => chunk,
    }
}

// Whether `inner` is a subbranch of `outer`.
pub fn has_as_subbranch(outer: Branch, inner: Branch) -> bool
    ensures { result ≡ has_as_subbranch outer inner }
{
    outer.start <= inner.start && (inner.start as u64) < (outer.start as u64) + (outer.span as u64)
}

// Fixed words: byte strings that a field is compared with.
#![tactic(auto)]

ghost use Rattle.std.specs.Prelude.{◌≡◌};
ghost use Rattle.words.specs.Words.{same};

// Whether the two hold the same bytes.
pub fn is(field: &[u8], word: &[u8]) -> bool
    ensures { result ≡ same field.now word.now }
{
    field == word
}

//! What the texts of operations are made of.
ghost use Rattle.std.specs.Prelude.{◌≡◌, ◌≢◌, true, ◌&&◌, List, ℕ, ◌++◌, IfSome, IsNone, OnOk, codes};
ghost use Rattle.std.specs.Option.{MatchOption};
ghost use Rattle.lr_words.specs.Word.{is_word};

use crate::word::Word;
use lr_base::{NoMemory, Text};

/// What stands behind the verb that the text begins with.
pub fn behind<'a>(text: &'a [u8], verb: &[u8]) -> Option<&'a [u8]>
    ensures { MatchOption result ((rest : List ℕ) → text.now ≢ verb.now ++ rest)
        (λ rest. text.now ≡ verb.now ++ rest.now) }
{
    text.strip_prefix(verb)
}

/// Two words with a space between them.
pub fn read_two_words(text: &[u8]) -> Option<(Word, Word)>
    ensures written { IfSome result (λ words. words.0 ++ (codes " " ++ words.1) ≡ text.now) }
    ensures real { IfSome result (λ words. (is_word words.0 && is_word words.1) ≡ true) }
    ensures none { IsNone result → (first second : List ℕ) → (is_word first && is_word second) ≡ true
        → first ++ (codes " " ++ second) ≢ text.now }
{
    let (first, rest) = Word::read_front(text)?;
    let second = Word::read(rest)?;
    Some((first, second))
}

/// Adds two words with a space between them behind `out`.
pub fn put_two_words(first: &Word, second: &Word, out: &mut Text) -> Result<(), NoMemory>
    ensures ok { OnOk result (out.new ≡ out.old ++ (first.now ++ (codes " " ++ second.now))) }
    ensures real { OnOk result ((is_word first.now && is_word second.now) ≡ true) }
{
    put_word(first, out)?;
    out.extend(b" ")?;
    put_word(second, out)
}

/// Adds a word behind `out`.
pub fn put_word(word: &Word, out: &mut Text) -> Result<(), NoMemory>
    ensures ok { OnOk result (out.new ≡ out.old ++ word.now) }
    ensures real { OnOk result (is_word word.now ≡ true) }
{
    out.extend(word.as_slice())
}

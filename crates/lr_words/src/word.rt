//! Words: the names in operations.
ghost use Rattle.std.specs.Prelude.{◌≡◌, ◌≢◌, ◌<◌, ◌≤◌, ◌↔◌, ℕ, nat_eq, true, refl};
ghost use Rattle.std.specs.Prelude.{List, ◌∷◌, ◌++◌, length, Some, IsSome, IsNone, IfSome};
ghost use Rattle.std.specs.List.{list_all};
ghost use Rattle.std.specs.Cmp.{partial_equiv_from_equiv};
ghost use Rattle.std.specs.Cmp.Lexicographic.{pointwise, slice_cmp, texts_po, texts_ties};
ghost use Rattle.std.specs.Cmp.Lexicographic.{nat_list_eq_equiv, nat_list_cmp_total};
ghost use Rattle.std.specs.Ordering.{nat_cmp};
ghost use Rattle.lr_words.specs.Word.{is_word, is_word_byte};
ghost use Rattle.lr_words.specs.WordTexts.{HasNoSpace};

use arrayvec::ArrayVec;
use std::alloc::AllocError;
use std::cmp::Ordering;
use std::marker::Model;

// The most bytes that a word has.
const MOST_BYTES: usize = 16;

/// 1 to 16 bytes of `a` to `z` and `0` to `9`, in the order of their bytes. No call takes memory.
#[derive(Drop)]
pub struct Word {
    bytes: ArrayVec<u8, MOST_BYTES>,
}

impl Model for Word {
    ghost use Rattle.std.specs.Prelude.{◌≡◌, List, ℕ, true};
    ghost use Rattle.lr_words.specs.Word.{is_word};

    ghost Value = { List ℕ };

    ghost view = { λ word. word.bytes.items };

    ghost invariant = { λ word. is_word word.bytes.items ≡ true };
}

impl Word {
    /// The word that the text is.
    pub fn read(text: &[u8]) -> Option<Word>
        ensures word { IsSome result ↔ (is_word text.now ≡ true) }
        ensures same { IfSome result (λ word. word ≡ text.now) }
    {
        if !is_word(text) {
            return None;
        }
        Some(Word {
            bytes: stored(text),
        })
    }

    /// The word before the first space, and the bytes behind that space.
    pub fn read_front(text: &[u8]) -> Option<(Word, &[u8])>
        ensures word { IfSome result (λ parts. is_word parts.0 ≡ true) }
        ensures parts { IfSome result (λ parts. text.now ≡ parts.0 ++ 32 ∷ parts.1.now) }
        ensures none { IsNone result → (word rest : List ℕ) → is_word word ≡ true
            → text.now ≢ word ++ 32 ∷ rest }
    {
        let (front, rest) = split_at_space(text)?;
        let word = Word::read(front)?;
        Some((word, rest))
    }

    /// A word equal to this one.
    pub fn copy(&self) -> Word
        ensures { result ≡ self.now }
    {
        Word {
            bytes: stored(self.bytes.as_slice()),
        }
    }

    /// How many bytes it has.
    pub fn size(&self) -> u8
        ensures { result ≡ length self.now }
    {
        self.bytes.len() as u8
    }

    /// Its bytes.
    pub fn as_slice(&self) -> &[u8]
        ensures same { result.now ≡ self.now }
        ensures word { is_word self.now ≡ true }
    {
        self.bytes.as_slice()
    }
}

impl Clone for Word {
    ghost is_clone = { λ word copied. copied ≡ word };

    fn clone(&self) -> Result<Word, AllocError> {
        Ok(self.copy())
    }
}

impl PartialEq for Word {
    ghost eq = { pointwise nat_eq };

    ghost laws = { partial_equiv_from_equiv nat_list_eq_equiv };

    fn eq(&self, other: &Word) -> bool {
        self.as_slice() == other.as_slice()
    }
}

impl Eq for Word {
    ghost laws = { nat_list_eq_equiv };
}

impl PartialOrd for Word {
    ghost partial_cmp = { λ a b. Some (slice_cmp nat_cmp a b) };

    ghost laws = { texts_po };

    fn partial_cmp(&self, other: &Word) -> Option<Ordering> {
        Some(self.cmp(other))
    }
}

impl Ord for Word {
    ghost cmp = { slice_cmp nat_cmp };

    ghost total = { nat_list_cmp_total };

    ghost matches_partial_cmp = { λ a b. refl };

    ghost matches_eq = { texts_ties };

    fn cmp(&self, other: &Word) -> Ordering {
        self.as_slice().cmp(other.as_slice())
    }
}

fn is_word(text: &[u8]) -> bool
    ensures { result ≡ is_word text.now }
{
    1 <= text.len() && text.len() <= MOST_BYTES && has_word_bytes(text)
}

fn has_word_bytes(text: &[u8]) -> bool
    ensures { result ≡ list_all is_word_byte text.now }
{
    text.iter().all(|byte| is_word_byte(*byte))
}

fn is_word_byte(byte: u8) -> bool
    ensures { result ≡ is_word_byte byte }
{
    (b'a' <= byte && byte <= b'z') || (b'0' <= byte && byte <= b'9')
}

fn stored(text: &[u8]) -> ArrayVec<u8, MOST_BYTES>
    requires { length text.now ≤ 16 }
    ensures { result.items ≡ text.now }
{
    let mut bytes = ArrayVec::new();
    let _all_fit = bytes.try_extend_from_slice(text);
    bytes
}

// The bytes before the first space, and those behind it.
fn split_at_space(text: &[u8]) -> Option<(&[u8], &[u8])>
    ensures parts { IfSome result (λ parts. text.now ≡ parts.0.now ++ 32 ∷ parts.1.now) }
    ensures first { IfSome result (λ parts. HasNoSpace parts.0.now) }
    ensures none { IsNone result → HasNoSpace text.now }
{
    for i in 0..text.len() {
        if text[i] == b' ' {
            return Some((&text[..i], &text[i + 1..]));
        }
    }
    None
}

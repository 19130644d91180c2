//! Words in order, as they stand behind one name.
ghost use Rattle.std.specs.Prelude.{◌≡◌, ◌≤◌, ◌<◌, ℕ, true, None, IfOk, OnOk, OnErr};
ghost use Rattle.std.specs.Prelude.{List, [], ◌∷◌, ◌++◌, length, flat_map};
ghost use Rattle.std.specs.List.{insert, list_all};
ghost use Rattle.lr_base.specs.Bytes.{Reads, times};
ghost use Rattle.lr_words.specs.Tables.{word_bytes};
ghost use Rattle.lr_words.specs.Word.{is_word};
ghost use Rattle.lr_words.specs.Formats.{are_in_order, follows, next_word_field, insert_word, words_format, words_text};
ghost use Rattle.lr_words.specs.TableLaws.{words-exact};
ghost use Rattle.lr_base.specs.Lasts.{ReadsRows, last_of};

use crate::stored::Stored;
use crate::word::Word;
use lr_base::{
    BadWhat, FieldFault, NoMemory, Text, count_field, fault_at, put_count_field, put_number,
};
use std::alloc::{AllocError, Global};
use std::marker::Model;

/// Words in the order of their bytes, at least one, each as often as it was added.
#[derive(Drop)]
pub struct WordList {
    words: Vec<Word>,
}

impl Model for WordList {
    ghost use Rattle.std.specs.Prelude.{◌≡◌, ◌<◌, List, ℕ, true, length};
    ghost use Rattle.std.specs.Coded.{coded_ℕ, coded_list};
    ghost use Rattle.lr_words.specs.Formats.{are_in_order};

    ghost Value = { List (List ℕ) };

    ghost coded = { coded_list (coded_list coded_ℕ) };

    ghost view = { λ list. list.words.items };

    ghost invariant = { λ list. (0 < length list.words.items) × (are_in_order list.words.items ≡ true) };
}

impl WordList {
    /// One word.
    pub fn of(alloc: Global, word: Word) -> Result<WordList, NoMemory>
        ensures { IfOk result (λ list. list ≡ word ∷ []) }
    {
        let mut words = Vec::new(alloc);
        words.push(word)?;
        Ok(WordList { words })
    }

    /// Adds a word.
    pub fn add(&mut self, word: Word) -> Result<(), NoMemory>
        ensures ok { OnOk result (self.new ≡ insert_word word self.old) }
        ensures err { OnErr result (self.new ≡ self.old) }
    {
        let place = place_of(&self.words, &word);
        self.words.insert(place, word)?;
        Ok(())
    }

    /// How many words there are, each as often as it was added.
    pub fn len(&self) -> usize
        ensures { result ≡ length self.now }
    {
        self.words.len()
    }

    /// Adds the count of the words behind `out`, and then each with a space before it.
    pub fn put_text(&self, out: &mut Text) -> Result<(), NoMemory>
        ensures ok { OnOk result (out.new ≡ out.old ++ words_text self.now) }
        ensures real { OnOk result (list_all is_word self.now ≡ true) }
    {
        put_number(self.words.len() as u64, out)?;
        put_spaced(&self.words, out)
    }
}

// The place before the first word that the new one is up to.
fn place_of(words: &[Word], word: &Word) -> usize
    ensures within { result ≤ length words.now }
    ensures place { insert words.now result word.now ≡ insert_word word.now words.now }
{
    for (place, known) in words.iter().enumerate() {
        if word <= known {
            return place;
        }
    }
    words.len()
}

// Adds each word behind `out`, with a space before it.
fn put_spaced(words: &[Word], out: &mut Text) -> Result<(), NoMemory>
    ensures ok { OnOk result (out.new ≡ out.old ++ flat_map (λ word. 32 ∷ word) words.now) }
    ensures real { OnOk result (list_all is_word words.now ≡ true) }
{
    for word in words {
        put_behind_space(word, out)?;
    }
    Ok(())
}

fn put_behind_space(word: &Word, out: &mut Text) -> Result<(), NoMemory>
    ensures ok { OnOk result (out.new ≡ out.old ++ 32 ∷ word.now) }
    ensures real { OnOk result (is_word word.now ≡ true) }
{
    out.push(b' ')?;
    out.extend(word.as_slice())
}

impl Clone for WordList {
    ghost is_clone = { λ list copied. copied ≡ list };

    fn clone(&self) -> Result<WordList, AllocError> {
        let words = self.words.clone()?;
        Ok(WordList { words })
    }
}

impl Stored for WordList {
    ghost format = { words_format };

    fn put(&self, out: &mut Text) -> Result<(), NoMemory> {
        put_count_field(self.words.len() as u64, out)?;
        put_each(&self.words, out)
    }

    fn field(alloc: Global, bytes: &[u8]) -> Result<(WordList, &[u8]), FieldFault> {
        let (count, rest) = count_field(bytes)?;
        if count == 0 {
            return Err(fault_at(bytes, BadWhat::Range));
        }
        match words_field(alloc, count, rest) {
            Ok((words, end)) => Ok((WordList { words }, end)),
            Err(fault) => Err(fault),
        }
    }

    ghost exact = { words-exact };

    ghost cloned = { λ value copied same. same };
}

// Adds the bytes of each word behind `out`.
fn put_each(words: &[Word], out: &mut Text) -> Result<(), NoMemory>
    ensures ok { OnOk result (out.new ≡ out.old ++ flat_map word_bytes words.now) }
    ensures real { OnOk result (list_all is_word words.now ≡ true) }
{
    for word in words {
        word.put(out)?;
    }
    Ok(())
}

// So many words in order, and the bytes behind them.
fn words_field(alloc: Global, count: u64, bytes: &[u8]) -> Result<(Vec<Word>, &[u8]), FieldFault>
    ensures reads { ReadsRows (λ words. words.items) (times next_word_field count None bytes.now) result }
    ensures count { IfOk result (λ parts. length parts.0.items ≡ count) }
    ensures order { IfOk result (λ parts. are_in_order parts.0.items ≡ true) }
{
    let mut words = Vec::new(alloc);
    let mut rest = bytes;
    for _ in 0..count {
        let (word, end) = next_field(alloc, &words, rest)?;
        push(&mut words, word)?;
        rest = end;
    }
    Ok((words, rest))
}

fn push(words: &mut Vec<Word>, word: Word) -> Result<(), NoMemory>
    ensures { OnOk result (words.new.items ≡ words.old.items ++ word ∷ []) }
{
    words.push(word)?;
    Ok(())
}

// A word that may come behind these.
fn next_field<'a>(
    alloc: Global,
    words: &[Word],
    bytes: &'a [u8],
) -> Result<(Word, &'a [u8]), FieldFault>
    ensures reads { Reads (next_word_field (last_of words.now) bytes.now) result }
    ensures order { IfOk result (λ parts. follows (last_of words.now) parts.0 ≡ true) }
{
    let (word, rest) = Word::field(alloc, bytes)?;
    if !follows(words, &word) {
        return Err(fault_at(bytes, BadWhat::Order));
    }
    Ok((word, rest))
}

// Whether the last of these, if there is one, is up to the word.
fn follows(words: &[Word], word: &Word) -> bool
    ensures { result ≡ follows (last_of words.now) word.now }
{
    match words.last() {
        Some(last) => last <= word,
        None => true,
    }
}

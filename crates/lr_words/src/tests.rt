//! Tables in bytes: examples, what is cut off, and what is no table.
use crate::{Stored, Table, Word, WordList};
use lr_base::{BadWhat, GetFault, NoMemory, Rows, Text, decoded};
use std::alloc::Global;
use std::test::Fail;

// a is 1, b0 is 258.
const NUMBERS: &[u8] = b"\0\0\0\x02\x01a\0\0\0\0\0\0\0\x01\x02b0\0\0\0\0\0\0\x01\x02";

// At each offset of these, where the field begins that a cut there would break.
const BEGINS: [u64; 25] = [
    0, 0, 0, 0, 4, 5, 6, 6, 6, 6, 6, 6, 6, 6, 14, 15, 15, 17, 17, 17, 17, 17, 17, 17, 17,
];

// in has a, b and b, and out has z9.
const LISTS: &[u8] = b"\0\0\0\x02\x02in\0\0\0\x03\x01a\x01b\x01b\x03out\0\0\0\x01\x02z9";

// x is a word of 16 bytes.
const WORDS: &[u8] = b"\0\0\0\x01\x01x\x10abcdefghijklmno0";

// (case, bytes, offset of the first wrong field, what is wrong there)
const BAD_NUMBERS: [(&str, &[u8], u64, BadWhat); 9] = [
    ("no_bytes", b"", 0, BadWhat::Short),
    ("empty_name", b"\0\0\0\x01\0", 4, BadWhat::Range),
    ("name_of_17", b"\0\0\0\x01\x11", 4, BadWhat::Range),
    (
        "small_count_in_8_bytes",
        b"\xff\xff\xff\xff\0\0\0\0\xff\xff\xff\xfe",
        4,
        BadWhat::Range,
    ),
    (
        "name_twice",
        b"\0\0\0\x02\x01a\0\0\0\0\0\0\0\x01\x01a\0\0\0\0\0\0\0\x01",
        14,
        BadWhat::Order,
    ),
    (
        "names_out_of_order",
        b"\0\0\0\x02\x01b\0\0\0\0\0\0\0\x01\x01a",
        14,
        BadWhat::Order,
    ),
    (
        "capital_in_name",
        b"\0\0\0\x01\x02aA\0\0\0\0\0\0\0\x01",
        5,
        BadWhat::Value,
    ),
    (
        "count_too_great",
        b"\0\0\0\x02\x01a\0\0\0\0\0\0\0\x01",
        14,
        BadWhat::Short,
    ),
    (
        "byte_behind",
        b"\0\0\0\x01\x01a\0\0\0\0\0\0\0\x01\0",
        14,
        BadWhat::Trailing,
    ),
];

const BAD_LISTS: [(&str, &[u8], u64, BadWhat); 4] = [
    ("no_words", b"\0\0\0\x01\x01a\0\0\0\0", 6, BadWhat::Range),
    (
        "words_out_of_order",
        b"\0\0\0\x01\x01a\0\0\0\x02\x01b\x01a",
        12,
        BadWhat::Order,
    ),
    (
        "space_in_word",
        b"\0\0\0\x01\x01a\0\0\0\x01\x03b c",
        11,
        BadWhat::Value,
    ),
    (
        "word_cut_off",
        b"\0\0\0\x01\x01a\0\0\0\x01\x03bc",
        11,
        BadWhat::Short,
    ),
];

fn word(text: &str) -> Result<Word, Fail> {
    match Word::read(text.as_bytes()) {
        Some(word) => Ok(word),
        None => Err(Fail::new("no word")),
    }
}

// The bytes of a table.
fn bytes_of<V: Stored>(alloc: Global, table: &Table<V>) -> Result<Text, NoMemory> {
    let mut out = Rows::new(alloc);
    table.put(&mut out)?;
    Ok(out)
}

// The bytes of the table that was read of bytes.
fn again<V: Stored>(alloc: Global, bytes: &[u8]) -> Result<Text, GetFault> {
    let table = decoded(bytes, Table::<V>::field(alloc, bytes))?;
    match bytes_of(alloc, &table) {
        Ok(out) => Ok(out),
        Err(_) => Err(GetFault::NoMemory),
    }
}

// What stands in a table once numbers were set and added to, and one name was taken out.
fn numbers_table(alloc: Global) -> Result<Table<u64>, Fail> {
    let mut table = Table::new(alloc);
    for (name, number) in [("b0", 7), ("c", 3), ("b0", 250)] {
        table.insert(word(name)?, number)?;
    }
    for (name, amount) in [("b0", 9), ("a", u64::MAX), ("b0", u64::MAX), ("a", 2)] {
        table.add(&word(name)?, amount)?;
    }
    table.remove(&word("c")?);
    Ok(table)
}

fn words_table(alloc: Global) -> Result<Table<WordList>, Fail> {
    let mut table = Table::new(alloc);
    for (name, text) in [("out", "z9"), ("in", "b"), ("in", "a"), ("in", "b")] {
        table.add_word(&word(name)?, word(text)?)?;
    }
    Ok(table.copy()?)
}

// Whether the table is put to these bytes, and is read of them.
fn stands_so<V: Stored>(alloc: Global, table: &Table<V>, bytes: &[u8]) -> Result<bool, Fail> {
    let put = bytes_of(alloc, table)?;
    let read = again::<V>(alloc, bytes)?;
    Ok(put.as_slice() == bytes && read.as_slice() == bytes)
}

// The text of a name's words.
fn text_of(alloc: Global, table: &Table<WordList>, name: &str) -> Result<Text, Fail> {
    let mut out = Rows::new(alloc);
    table.put_words(&word(name)?, &mut out)?;
    Ok(out)
}

#[test]
fn tables_in_bytes(rt: HostRuntime) -> Result<(), Fail> {
    let numbers = numbers_table(rt.alloc())?;
    assert!(rt; stands_so(rt.alloc(), &numbers, NUMBERS)?, "numbers");
    let lists = words_table(rt.alloc())?;
    assert!(rt; stands_so(rt.alloc(), &lists, LISTS)?, "lists");
    let mut words = Table::new(rt.alloc());
    words.insert(word("x")?, word("abcdefghijklmno0")?)?;
    assert!(rt; stands_so(rt.alloc(), &words, WORDS)?, "words");
    Ok(())
}

#[test]
fn words_in_texts(rt: HostRuntime) -> Result<(), Fail> {
    let table = words_table(rt.alloc())?;
    for (name, want) in [("in", "3 a b b"), ("out", "1 z9"), ("no", "0")] {
        let text = text_of(rt.alloc(), &table, name)?;
        assert!(rt; text.as_slice() == want.as_bytes(), "words of {name}");
    }
    Ok(())
}

#[test]
fn what_is_cut_off_is_short(rt: HostRuntime) {
    for (cut, at) in BEGINS.iter().enumerate() {
        let at = *at;
        let what = BadWhat::Short;
        match again::<u64>(rt.alloc(), &NUMBERS[..cut]) {
            Ok(_) => assert!(rt; false, "{cut} bytes were read"),
            Err(fault) => assert_eq!(rt; fault, GetFault::Bad { at, what }, "at {cut} bytes"),
        }
    }
}

#[test]
fn what_is_no_table(rt: HostRuntime) {
    for (case, bytes, at, what) in BAD_NUMBERS {
        match again::<u64>(rt.alloc(), bytes) {
            Ok(_) => assert!(rt; false, "{case} was read"),
            Err(fault) => assert_eq!(rt; fault, GetFault::Bad { at, what }, "in {case}"),
        }
    }
    for (case, bytes, at, what) in BAD_LISTS {
        match again::<WordList>(rt.alloc(), bytes) {
            Ok(_) => assert!(rt; false, "{case} was read"),
            Err(fault) => assert_eq!(rt; fault, GetFault::Bad { at, what }, "in {case}"),
        }
    }
}

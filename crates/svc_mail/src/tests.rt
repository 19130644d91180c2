//! What operations in a row answer, which texts are operations, and the bytes of values.
use crate::Mail;
use lr_base::lr_service::{Kind, OpFault, Operation, Service};
use lr_base::{BadWhat, GetFault, Rows, Text};
use std::alloc::Global;
use std::test::Fail;

// Applies what is written, or gives its answer.
fn told(alloc: Global, value: &mut Mail, text: &str) -> Result<Text, Fail> {
    let op = Mail::read_op(alloc, text.as_bytes())?;
    match Mail::kind(&op) {
        Kind::Query => Ok(value.read(&op)?),
        Kind::Causal | Kind::Forced | Kind::Immediate => {
            value.apply(&op)?;
            Ok(Rows::new(alloc))
        }
    }
}

// The place of the first operation that answers otherwise, if one does.
fn first_wrong(
    alloc: Global,
    value: &mut Mail,
    story: &[(&str, &str)],
) -> Result<Option<usize>, Fail> {
    for (place, (text, want)) in story.iter().enumerate() {
        let answer = told(alloc, value, text)?;
        if answer.as_slice() != want.as_bytes() {
            return Ok(Some(place));
        }
    }
    Ok(None)
}

// (operation, answer): updates answer nothing
const STORY: [(&str, &str); 30] = [
    ("read x", "- 0"),
    ("send x b", ""),
    ("read x", "- 1 b"),
    ("send x a", ""),
    ("send x b", ""),
    ("read x", "- 3 a b b"),
    ("add x", ""),
    ("read x", "1 3 a b b"),
    ("add x", ""),
    ("read x", "1 3 a b b"),
    ("add y", ""),
    ("read y", "2 0"),
    ("send y a10", ""),
    ("send y a2", ""),
    ("send y 9", ""),
    ("read y", "2 3 9 a10 a2"),
    ("delete x", ""),
    ("read x", "- 0"),
    ("read y", "2 3 9 a10 a2"),
    ("add x", ""),
    ("read x", "3 0"),
    ("delete z", ""),
    ("read z", "- 0"),
    ("send abcdefghijklmno9 0123456789abcdef", ""),
    ("send abcdefghijklmno9 0", ""),
    ("read abcdefghijklmno9", "- 2 0 0123456789abcdef"),
    ("add abcdefghijklmno9", ""),
    ("read abcdefghijklmno9", "4 2 0 0123456789abcdef"),
    ("read y", "2 3 9 a10 a2"),
    ("read x", "3 0"),
];

// the last number, and that of z, is the greatest below 2^64
const LAST: &[u8] =
    b"\xff\xff\xff\xff\xff\xff\xff\xff\0\0\0\x01\x01z\xff\xff\xff\xff\xff\xff\xff\xff\0\0\0\0";

const BEHIND_LAST: [(&str, &str); 7] = [
    ("read z", "18446744073709551615 0"),
    ("add x", ""),
    ("read x", "0 0"),
    ("add y", ""),
    ("read y", "1 0"),
    ("add x", ""),
    ("read x", "0 0"),
];

#[test]
fn answers_of_operations_in_a_row(rt: HostRuntime) -> Result<(), Fail> {
    let mut mail = Mail::start(rt.alloc())?;
    let wrong = first_wrong(rt.alloc(), &mut mail, &STORY)?;
    assert_eq!(rt; wrong, None);
    let mut mail = Mail::get(rt.alloc(), LAST)?;
    let wrong = first_wrong(rt.alloc(), &mut mail, &BEHIND_LAST)?;
    assert_eq!(rt; wrong, None, "behind the last number");
    Ok(())
}

#[test]
fn a_copy_stays_as_it_was(rt: HostRuntime) -> Result<(), Fail> {
    let mut mail = Mail::get(rt.alloc(), BYTES)?;
    let mut copied = mail.copy()?;
    let story = [
        ("delete d", ""),
        ("send ab z", ""),
        ("add c", ""),
        ("read ab", "2 3 x x z"),
        ("read c", "4 0"),
        ("read d", "- 0"),
    ];
    let wrong = first_wrong(rt.alloc(), &mut mail, &story)?;
    assert_eq!(rt; wrong, None, "of what was changed");
    let wrong = first_wrong(rt.alloc(), &mut copied, &ANSWERS)?;
    assert_eq!(rt; wrong, None, "of the copy");
    Ok(())
}

// The text of a copy of the operation that is written so, and its kind.
fn printed(alloc: Global, text: &str) -> Result<(Text, Kind), Fail> {
    let op = Mail::read_op(alloc, text.as_bytes())?;
    let copied = op.copy()?;
    let mut out = Rows::new(alloc);
    Mail::print_op(&copied, &mut out)?;
    let kind = Mail::kind(&copied);
    Ok((out, kind))
}

#[test]
fn texts_that_are_operations(rt: HostRuntime) -> Result<(), Fail> {
    let texts = [
        ("send x y", Kind::Causal),
        ("send 0 0", Kind::Causal),
        ("send send send", Kind::Causal),
        ("send abcdefghijklmno9 0123456789abcdef", Kind::Causal),
        ("add x", Kind::Forced),
        ("add abcdefghijklmno9", Kind::Forced),
        ("delete 0", Kind::Immediate),
        ("delete delete", Kind::Immediate),
        ("read z", Kind::Query),
        ("read 0123456789abcdef", Kind::Query),
    ];
    for (text, want) in texts {
        let (out, kind) = printed(rt.alloc(), text)?;
        assert!(rt;
            out.as_slice() == text.as_bytes(),
            "{text} is printed otherwise"
        );
        assert!(rt; kind == want, "{text} has another kind");
    }
    Ok(())
}

#[test]
fn texts_that_are_none(rt: HostRuntime) {
    let texts = [
        "",
        " ",
        "send",
        "send ",
        "send x",
        "send x ",
        "send x y ",
        "send x y z",
        "send  x y",
        "send x  y",
        " send x y",
        "send X y",
        "send x Y",
        "send x y-z",
        "send abcdefghijklmnopq y",
        "send x abcdefghijklmnopq",
        "sends x y",
        "sendx y",
        "add",
        "add ",
        "add x ",
        "add x y",
        "add abcdefghijklmnopq",
        "Add x",
        "ADD x",
        "add  x",
        "delete",
        "delete ",
        "delete x y",
        "delete x\n",
        "delete _",
        "remove x",
        "read",
        "read ",
        "read x ",
        "read -",
        "readx",
        "note x y",
        "who x",
    ];
    for text in texts {
        match Mail::read_op(rt.alloc(), text.as_bytes()) {
            Ok(_) => assert!(rt; false, "{text} was read"),
            Err(fault) => assert_eq!(rt; fault, OpFault::NotAnOp, "at {text}"),
        }
    }
}

// three users had numbers, of which c is deleted; ab has the words x and x, and e, who is unknown, has y
const OPERATIONS: [(&str, &str); 7] = [
    ("add d", ""),
    ("send ab x", ""),
    ("add ab", ""),
    ("add c", ""),
    ("send e y", ""),
    ("delete c", ""),
    ("send ab x", ""),
];

// what that value answers
const ANSWERS: [(&str, &str); 4] = [
    ("read ab", "2 2 x x"),
    ("read d", "1 0"),
    ("read e", "- 1 y"),
    ("read c", "- 0"),
];

// the last number 3; two users, ab with 2 and d with 1; two boxes, ab with x and x, and e with y
const BYTES: &[u8; 56] = b"\0\0\0\0\0\0\0\x03\
    \0\0\0\x02\x02ab\0\0\0\0\0\0\0\x02\x01d\0\0\0\0\0\0\0\x01\
    \0\0\0\x02\x02ab\0\0\0\x02\x01x\x01x\x01e\0\0\0\x01\x01y";

// where the field of each byte begins
const FIELDS: [u64; 56] = [
    0, 0, 0, 0, 0, 0, 0, 0, 8, 8, 8, 8, 12, 13, 13, 15, 15, 15, 15, 15, 15, 15, 15, 23, 24, 25, 25,
    25, 25, 25, 25, 25, 25, 33, 33, 33, 33, 37, 38, 38, 40, 40, 40, 40, 44, 45, 46, 47, 48, 49, 50,
    50, 50, 50, 54, 55,
];

// The value's bytes.
fn spelling(alloc: Global, value: &Mail) -> Result<Text, Fail> {
    let mut out = Rows::new(alloc);
    value.put(&mut out)?;
    Ok(out)
}

// What the bytes are refused for, if they are.
fn fault_of(alloc: Global, bytes: &[u8]) -> Option<GetFault> {
    match Mail::get(alloc, bytes) {
        Ok(_value) => None,
        Err(fault) => Some(fault),
    }
}

// Whether the bytes are refused, or a value's that is put as they are.
fn comes_back(alloc: Global, bytes: &[u8]) -> Result<bool, Fail> {
    match Mail::get(alloc, bytes) {
        Ok(value) => {
            let out = spelling(alloc, &value)?;
            Ok(out.as_slice() == bytes)
        }
        Err(fault) => Ok(fault != GetFault::NoMemory),
    }
}

// The refusal at this offset.
fn bad(at: u64, what: BadWhat) -> Option<GetFault> {
    Some(GetFault::Bad { at, what })
}

#[test]
fn a_value_and_its_bytes(rt: HostRuntime) -> Result<(), Fail> {
    let mut mail = Mail::start(rt.alloc())?;
    let bytes = spelling(rt.alloc(), &mail)?;
    assert!(rt; bytes.as_slice() == [0; 16].as_slice(), "of no users");
    let wrong = first_wrong(rt.alloc(), &mut mail, &OPERATIONS)?;
    assert_eq!(rt; wrong, None);
    let bytes = spelling(rt.alloc(), &mail)?;
    assert!(rt; bytes.as_slice() == BYTES.as_slice(), "of two users");
    let mut mail = Mail::get(rt.alloc(), BYTES)?;
    let wrong = first_wrong(rt.alloc(), &mut mail, &ANSWERS)?;
    assert_eq!(rt; wrong, None, "of what was read");
    Ok(())
}

#[test]
fn cut_bytes_are_short(rt: HostRuntime) {
    for (cut, begins) in FIELDS.iter().enumerate() {
        let (front, _rest) = BYTES.split_at(cut);
        assert_eq!(rt;
            fault_of(rt.alloc(), front),
            bad(*begins, BadWhat::Short),
            "cut at {cut}"
        );
    }
}

// (place, byte there, what the bytes are refused for, if they are)
const CHANGED: [(usize, u8, Option<(u64, BadWhat)>); 51] = [
    (0, 255, None),
    (7, 0, None),
    (8, 255, Some((33, BadWhat::Range))),
    (11, 0, Some((16, BadWhat::Range))),
    (11, 1, Some((27, BadWhat::Range))),
    (11, 3, Some((33, BadWhat::Range))),
    (12, 0, Some((12, BadWhat::Range))),
    (12, 1, Some((23, BadWhat::Value))),
    (12, 3, Some((13, BadWhat::Value))),
    (12, 17, Some((12, BadWhat::Range))),
    (13, 0x41, Some((13, BadWhat::Value))),
    (13, 0x63, None),
    (13, 0x64, Some((23, BadWhat::Order))),
    (14, 0x2d, Some((13, BadWhat::Value))),
    (14, 0x7a, None),
    (15, 255, None),
    (22, 0, None),
    (23, 0, Some((23, BadWhat::Range))),
    (23, 2, Some((24, BadWhat::Value))),
    (24, 0x60, Some((24, BadWhat::Value))),
    (24, 0x61, Some((23, BadWhat::Order))),
    (24, 0x7a, None),
    (32, 2, None),
    (33, 255, Some((56, BadWhat::Short))),
    (36, 0, Some((37, BadWhat::Trailing))),
    (36, 1, Some((48, BadWhat::Trailing))),
    (36, 3, Some((56, BadWhat::Short))),
    (37, 1, Some((44, BadWhat::Value))),
    (37, 17, Some((37, BadWhat::Range))),
    (38, 0x65, Some((48, BadWhat::Order))),
    (39, 0x7a, None),
    (42, 1, Some((48, BadWhat::Order))),
    (43, 0, Some((40, BadWhat::Range))),
    (43, 1, Some((52, BadWhat::Range))),
    (43, 3, Some((48, BadWhat::Order))),
    (44, 0, Some((44, BadWhat::Range))),
    (45, 0x61, None),
    (45, 0x79, Some((46, BadWhat::Order))),
    (46, 17, Some((46, BadWhat::Range))),
    (47, 0x77, Some((46, BadWhat::Order))),
    (47, 0x79, None),
    (48, 0, Some((48, BadWhat::Range))),
    (49, 0x61, Some((48, BadWhat::Order))),
    (49, 0x7b, Some((49, BadWhat::Value))),
    (50, 1, Some((56, BadWhat::Short))),
    (53, 0, Some((50, BadWhat::Range))),
    (53, 2, Some((56, BadWhat::Short))),
    (54, 2, Some((55, BadWhat::Short))),
    (54, 17, Some((54, BadWhat::Range))),
    (55, 0x2f, Some((55, BadWhat::Value))),
    (55, 0x30, None),
];

// The bytes with another one at this place.
fn changed(place: usize, byte: u8) -> [u8; 56] {
    let mut bytes = *BYTES;
    if let Some(there) = bytes.get_mut(place) {
        *there = byte;
    }
    bytes
}

#[test]
fn changed_bytes(rt: HostRuntime) {
    for (place, byte, want) in CHANGED {
        let want = match want {
            Some((at, what)) => bad(at, what),
            None => None,
        };
        assert_eq!(rt;
            fault_of(rt.alloc(), &changed(place, byte)),
            want,
            "{byte} at {place}"
        );
    }
}

#[test]
fn changed_bytes_are_refused_or_come_back(rt: HostRuntime) -> Result<(), Fail> {
    for place in 0..BYTES.len() {
        for byte in [0, 1, 2, 16, 17, 0x2f, 0x30, 0x61, 0x62, 0x7a, 0x7b, 255] {
            let comes = comes_back(rt.alloc(), &changed(place, byte))?;
            assert!(rt; comes, "{byte} at {place}");
        }
    }
    Ok(())
}

// (case, bytes behind the last number, offset of the first wrong field, what is wrong there)
const OTHER: [(&str, &[u8], u64, BadWhat); 6] = [
    ("byte_behind", b"\0\0\0\0\0\0\0\0\0", 16, BadWhat::Trailing),
    (
        "small_count_of_users_in_8_bytes",
        b"\xff\xff\xff\xff\0\0\0\0\xff\xff\xff\xfe\0\0\0\0",
        12,
        BadWhat::Range,
    ),
    (
        "user_twice",
        b"\0\0\0\x02\x01a\0\0\0\0\0\0\0\x01\x01a\0\0\0\0\0\0\0\x02\0\0\0\0",
        22,
        BadWhat::Order,
    ),
    (
        "small_count_of_boxes_in_8_bytes",
        b"\0\0\0\0\xff\xff\xff\xff\0\0\0\0\0\0\0\0",
        16,
        BadWhat::Range,
    ),
    (
        "box_twice",
        b"\0\0\0\0\0\0\0\x02\x01a\0\0\0\x01\x01x\x01a\0\0\0\x01\x01x",
        24,
        BadWhat::Order,
    ),
    (
        "small_count_of_words_in_8_bytes",
        b"\0\0\0\0\0\0\0\x01\x01a\xff\xff\xff\xff\0\0\0\0\0\0\0\x01\x01x",
        22,
        BadWhat::Range,
    ),
];

#[test]
fn other_bytes(rt: HostRuntime) -> Result<(), Fail> {
    for (case, behind, at, what) in OTHER {
        let mut bytes = Rows::new(rt.alloc());
        bytes.extend(&[0; 8])?;
        bytes.extend(behind)?;
        assert_eq!(rt;
            fault_of(rt.alloc(), bytes.as_slice()),
            bad(at, what),
            "in {case}"
        );
    }
    Ok(())
}

//! What operations in a row answer, which texts are operations, and the bytes of values.
use crate::Claims;
use lr_base::lr_service::{Kind, OpFault, Operation, Service};
use lr_base::{BadWhat, GetFault, Rows, Text};
use std::alloc::Global;
use std::test::Fail;

// Applies what is written, or gives its answer.
fn told(alloc: Global, value: &mut Claims, text: &str) -> Result<Text, Fail> {
    let op = Claims::read_op(alloc, text.as_bytes())?;
    match Claims::kind(&op) {
        Kind::Query => Ok(value.read(&op)?),
        Kind::Causal | Kind::Forced | Kind::Immediate => {
            value.apply(&op)?;
            Ok(Rows::new(alloc))
        }
    }
}

// The place of the first operation that answers otherwise, if one does.
fn first_wrong(
    alloc: Global,
    value: &mut Claims,
    story: &[(&str, &str)],
) -> Result<Option<usize>, Fail> {
    for (place, (text, want)) in story.iter().enumerate() {
        let answer = told(alloc, value, text)?;
        if answer.as_slice() != want.as_bytes() {
            return Ok(Some(place));
        }
    }
    Ok(None)
}

// (operation, answer): updates answer nothing
const STORY: [(&str, &str); 25] = [
    ("who x", "- 0"),
    ("note x b", ""),
    ("who x", "- 1 b"),
    ("note x a", ""),
    ("note x b", ""),
    ("who x", "- 3 a b b"),
    ("claim x ann", ""),
    ("who x", "ann 3 a b b"),
    ("claim x bob", ""),
    ("who x", "ann 3 a b b"),
    ("claim y bob", ""),
    ("who y", "bob 0"),
    ("note y a10", ""),
    ("note y a2", ""),
    ("who y", "bob 2 a10 a2"),
    ("clear x", ""),
    ("who x", "- 0"),
    ("who y", "bob 2 a10 a2"),
    ("claim x bob", ""),
    ("who x", "bob 0"),
    ("clear z", ""),
    ("note abcdefghijklmno9 0123456789abcdef", ""),
    ("claim abcdefghijklmno9 z", ""),
    ("who abcdefghijklmno9", "z 1 0123456789abcdef"),
    ("who z", "- 0"),
];

#[test]
fn answers_of_operations_in_a_row(rt: HostRuntime) -> Result<(), Fail> {
    let mut claims = Claims::start(rt.alloc())?;
    let wrong = first_wrong(rt.alloc(), &mut claims, &STORY)?;
    assert_eq!(rt; wrong, None);
    Ok(())
}

#[test]
fn a_copy_stays_as_it_was(rt: HostRuntime) -> Result<(), Fail> {
    let mut claims = Claims::get(rt.alloc(), &BYTES)?;
    let mut copied = claims.copy()?;
    let story = [
        ("clear d", ""),
        ("note ab z", ""),
        ("who ab", "c 3 x x z"),
        ("who d", "- 0"),
    ];
    let wrong = first_wrong(rt.alloc(), &mut claims, &story)?;
    assert_eq!(rt; wrong, None, "of what was changed");
    let wrong = first_wrong(rt.alloc(), &mut copied, &ANSWERS)?;
    assert_eq!(rt; wrong, None, "of the copy");
    Ok(())
}

// The text of a copy of the operation that is written so, and its kind.
fn printed(alloc: Global, text: &str) -> Result<(Text, Kind), Fail> {
    let op = Claims::read_op(alloc, text.as_bytes())?;
    let copied = op.copy()?;
    let mut out = Rows::new(alloc);
    Claims::print_op(&copied, &mut out)?;
    let kind = Claims::kind(&copied);
    Ok((out, kind))
}

#[test]
fn texts_that_are_operations(rt: HostRuntime) -> Result<(), Fail> {
    let texts = [
        ("note x y", Kind::Causal),
        ("note 0 0", Kind::Causal),
        ("note abcdefghijklmno9 0123456789abcdef", Kind::Causal),
        ("claim x y", Kind::Forced),
        ("claim claim claim", Kind::Forced),
        ("clear x", Kind::Immediate),
        ("clear 0123456789abcdef", Kind::Immediate),
        ("who z", Kind::Query),
        ("who who", Kind::Query),
    ];
    for (text, want) in texts {
        let (out, kind) = printed(rt.alloc(), text)?;
        assert!(rt;
            out.as_slice() == text.as_bytes(),
            "{text} is printed otherwise"
        );
        assert!(rt; kind == want, "{text} has another kind");
    }
    Ok(())
}

#[test]
fn texts_that_are_none(rt: HostRuntime) {
    let texts = [
        "",
        " ",
        "note",
        "note ",
        "note x",
        "note x ",
        "note x y ",
        "note x y z",
        "note  x y",
        "note x  y",
        " note x y",
        "note X y",
        "note x Y",
        "note x y-z",
        "note abcdefghijklmnopq y",
        "note x abcdefghijklmnopq",
        "claim x",
        "claim x y z",
        "claim x, y",
        "Claim x y",
        "clear",
        "clear ",
        "clear x y",
        "clear abcdefghijklmnopq",
        "clear x\n",
        "who",
        "who ",
        "who x ",
        "whox",
        "who -",
        "owner x",
        "add x 1",
    ];
    for text in texts {
        match Claims::read_op(rt.alloc(), text.as_bytes()) {
            Ok(_) => assert!(rt; false, "{text} was read"),
            Err(fault) => assert_eq!(rt; fault, OpFault::NotAnOp, "at {text}"),
        }
    }
}

// c owns ab and e owns d; ab has the notes x and x, and d has y
const OPERATIONS: [(&str, &str); 5] = [
    ("claim d e", ""),
    ("note ab x", ""),
    ("note d y", ""),
    ("claim ab c", ""),
    ("note ab x", ""),
];

// what that value answers
const ANSWERS: [(&str, &str); 3] = [("who ab", "c 2 x x"), ("who d", "e 1 y"), ("who c", "- 0")];

// 00000002 02.6162 01.63 01.64 01.65  00000002 02.6162 00000002 01.78 01.78 01.64 00000001 01.79
const BYTES: [u8; 36] = [
    0, 0, 0, 2, 2, 0x61, 0x62, 1, 0x63, 1, 0x64, 1, 0x65, 0, 0, 0, 2, 2, 0x61, 0x62, 0, 0, 0, 2, 1,
    0x78, 1, 0x78, 1, 0x64, 0, 0, 0, 1, 1, 0x79,
];

// where the field of each byte begins
const FIELDS: [u64; 36] = [
    0, 0, 0, 0, 4, 5, 5, 7, 8, 9, 10, 11, 12, 13, 13, 13, 13, 17, 18, 18, 20, 20, 20, 20, 24, 25,
    26, 27, 28, 29, 30, 30, 30, 30, 34, 35,
];

// The value's bytes.
fn spelling(alloc: Global, value: &Claims) -> Result<Text, Fail> {
    let mut out = Rows::new(alloc);
    value.put(&mut out)?;
    Ok(out)
}

// What the bytes are refused for, if they are.
fn fault_of(alloc: Global, bytes: &[u8]) -> Option<GetFault> {
    match Claims::get(alloc, bytes) {
        Ok(_value) => None,
        Err(fault) => Some(fault),
    }
}

// Whether the bytes are refused, or a value's that is put as they are.
fn comes_back(alloc: Global, bytes: &[u8]) -> Result<bool, Fail> {
    match Claims::get(alloc, bytes) {
        Ok(value) => {
            let out = spelling(alloc, &value)?;
            Ok(out.as_slice() == bytes)
        }
        Err(fault) => Ok(fault != GetFault::NoMemory),
    }
}

// The refusal at this offset.
fn bad(at: u64, what: BadWhat) -> Option<GetFault> {
    Some(GetFault::Bad { at, what })
}

#[test]
fn bytes_of_values(rt: HostRuntime) -> Result<(), Fail> {
    let mut claims = Claims::start(rt.alloc())?;
    let bytes = spelling(rt.alloc(), &claims)?;
    assert!(rt; bytes.as_slice() == [0; 8].as_slice(), "of no names");
    let wrong = first_wrong(rt.alloc(), &mut claims, &OPERATIONS)?;
    assert_eq!(rt; wrong, None);
    let bytes = spelling(rt.alloc(), &claims)?;
    assert!(rt; bytes.as_slice() == BYTES.as_slice(), "of two names");
    Ok(())
}

#[test]
fn the_value_of_bytes(rt: HostRuntime) -> Result<(), Fail> {
    let mut claims = Claims::get(rt.alloc(), &BYTES)?;
    let wrong = first_wrong(rt.alloc(), &mut claims, &ANSWERS)?;
    assert_eq!(rt; wrong, None);
    Ok(())
}

#[test]
fn cut_bytes_are_short(rt: HostRuntime) {
    for (cut, begins) in FIELDS.iter().enumerate() {
        let (front, _rest) = BYTES.split_at(cut);
        assert_eq!(rt;
            fault_of(rt.alloc(), front),
            bad(*begins, BadWhat::Short),
            "cut at {cut}"
        );
    }
}

// (place, byte there, what the bytes are refused for, if they are)
const CHANGED: [(usize, u8, Option<(u64, BadWhat)>); 40] = [
    (0, 255, Some((13, BadWhat::Range))),
    (3, 1, Some((13, BadWhat::Range))),
    (3, 3, Some((13, BadWhat::Range))),
    (4, 0, Some((4, BadWhat::Range))),
    (4, 1, Some((6, BadWhat::Range))),
    (4, 3, Some((5, BadWhat::Value))),
    (4, 17, Some((4, BadWhat::Range))),
    (5, 0x41, Some((5, BadWhat::Value))),
    (5, 0x65, Some((9, BadWhat::Order))),
    (6, 0x7b, Some((5, BadWhat::Value))),
    (6, 0x63, None),
    (8, 0x2d, Some((8, BadWhat::Value))),
    (8, 0x39, None),
    (9, 2, Some((10, BadWhat::Value))),
    (10, 0x61, Some((9, BadWhat::Order))),
    (11, 0, Some((11, BadWhat::Range))),
    (12, 0x60, Some((12, BadWhat::Value))),
    (16, 0, Some((17, BadWhat::Trailing))),
    (16, 1, Some((28, BadWhat::Trailing))),
    (16, 3, Some((36, BadWhat::Short))),
    (18, 0x7a, Some((28, BadWhat::Order))),
    (19, 0x7a, None),
    (22, 1, Some((28, BadWhat::Order))),
    (23, 0, Some((20, BadWhat::Range))),
    (23, 1, Some((32, BadWhat::Range))),
    (23, 3, Some((28, BadWhat::Order))),
    (25, 0x79, Some((26, BadWhat::Order))),
    (25, 0x61, None),
    (26, 17, Some((26, BadWhat::Range))),
    (27, 0x77, Some((26, BadWhat::Order))),
    (27, 0x79, None),
    (29, 0x61, Some((28, BadWhat::Order))),
    (29, 0x7e, Some((29, BadWhat::Value))),
    (30, 1, Some((36, BadWhat::Short))),
    (33, 0, Some((30, BadWhat::Range))),
    (33, 2, Some((36, BadWhat::Short))),
    (34, 2, Some((35, BadWhat::Short))),
    (34, 17, Some((34, BadWhat::Range))),
    (35, 0x2f, Some((35, BadWhat::Value))),
    (35, 0x30, None),
];

// The bytes with another one at this place.
fn changed(place: usize, byte: u8) -> [u8; 36] {
    let mut bytes = BYTES;
    if let Some(there) = bytes.get_mut(place) {
        *there = byte;
    }
    bytes
}

#[test]
fn changed_bytes(rt: HostRuntime) {
    for (place, byte, want) in CHANGED {
        let want = match want {
            Some((at, what)) => bad(at, what),
            None => None,
        };
        assert_eq!(rt;
            fault_of(rt.alloc(), &changed(place, byte)),
            want,
            "{byte} at {place}"
        );
    }
}

#[test]
fn changed_bytes_are_refused_or_come_back(rt: HostRuntime) -> Result<(), Fail> {
    for place in 0..BYTES.len() {
        for byte in [0, 1, 2, 16, 17, 0x2f, 0x30, 0x61, 0x62, 0x7a, 0x7b, 255] {
            let comes = comes_back(rt.alloc(), &changed(place, byte))?;
            assert!(rt; comes, "{byte} at {place}");
        }
    }
    Ok(())
}

#[test]
fn other_bytes(rt: HostRuntime) {
    let alloc = rt.alloc();
    assert_eq!(rt; fault_of(alloc, &[0; 9]), bad(8, BadWhat::Trailing));
    // A count in 8 bytes that has room in 4.
    let small = [255, 255, 255, 255, 0, 0, 0, 0, 0, 0, 0, 0];
    assert_eq!(rt; fault_of(alloc, &small), bad(4, BadWhat::Range));
    let short = [0, 0, 0, 0, 255, 255, 255, 255, 0, 0, 0, 0];
    assert_eq!(rt; fault_of(alloc, &short), bad(8, BadWhat::Short));
    let twice = [0, 0, 0, 2, 1, 0x61, 1, 0x62, 1, 0x61, 1, 0x62];
    assert_eq!(rt; fault_of(alloc, &twice), bad(8, BadWhat::Order));
}

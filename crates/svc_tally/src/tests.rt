//! Texts that are and are not operations, what a few operations in a row answer, and the bytes of counters.
use crate::Tally;
use lr_base::lr_service::{Kind, OpFault, Operation, Service};
use lr_base::{BadWhat, GetFault, Rows, Text};
use std::alloc::Global;
use std::test::Fail;

// The text of a copy of the operation that is written so.
fn printed<S: Service>(alloc: Global, text: &[u8]) -> Result<Text, OpFault> {
    let op = S::read_op(alloc, text)?;
    let mut out = Rows::new(alloc);
    match op.copy() {
        Ok(copied) => match S::print_op(&copied, &mut out) {
            Ok(()) => Ok(out),
            Err(_) => Err(OpFault::NoMemory),
        },
        Err(_) => Err(OpFault::NoMemory),
    }
}

// Applies what is written, or gives its answer.
fn told<S: Service>(alloc: Global, value: &mut S, text: &[u8]) -> Result<Text, Fail> {
    let op = S::read_op(alloc, text)?;
    match S::kind(&op) {
        Kind::Query => Ok(value.read(&op)?),
        Kind::Causal | Kind::Forced | Kind::Immediate => {
            value.apply(&op)?;
            Ok(Rows::new(alloc))
        }
    }
}

#[test]
fn texts_that_are_operations(rt: HostRuntime) -> Result<(), Fail> {
    let texts = [
        "add x 3",
        "add x 0",
        "read z0",
        "add x 18446744073709551615",
        "read abcdefghijklmno0",
    ];
    for text in texts {
        let text = text.as_bytes();
        let out = printed::<Tally>(rt.alloc(), text)?;
        assert!(rt; out.as_slice() == text, "another text was printed");
    }
    Ok(())
}

#[test]
fn texts_that_are_none(rt: HostRuntime) {
    let texts = [
        "",
        "add",
        "add x",
        "add x ",
        "add x 01",
        "add x 00",
        "add x +1",
        "add x 1 ",
        "add x 1 2",
        "add x 18446744073709551616",
        "add X 1",
        "add  x 1",
        "add  1",
        "read",
        "read ",
        "read x ",
        "read abcdefghijklmno01",
        "sub x 1",
        "Read x",
    ];
    for text in texts {
        match Tally::read_op(rt.alloc(), text.as_bytes()) {
            Ok(_) => assert!(rt; false, "{text} was read"),
            Err(fault) => assert_eq!(rt; fault, OpFault::NotAnOp, "at {text}"),
        }
    }
}

#[test]
fn counters_wrap_and_start_at_zero(rt: HostRuntime) -> Result<(), Fail> {
    let mut tally = Tally::start(rt.alloc())?;
    for text in ["add x 18446744073709551615", "add y 7", "add x 2"] {
        told(rt.alloc(), &mut tally, text.as_bytes())?;
    }
    let mut copied = tally.copy()?;
    told(rt.alloc(), &mut tally, b"add y 1")?;
    for (text, first, second) in [
        ("read x", "1", "1"),
        ("read y", "8", "7"),
        ("read z", "0", "0"),
    ] {
        let answer = told(rt.alloc(), &mut tally, text.as_bytes())?;
        assert!(rt; answer.as_slice() == first.as_bytes(), "{text} after all");
        let answer = told(rt.alloc(), &mut copied, text.as_bytes())?;
        assert!(rt;
            answer.as_slice() == second.as_bytes(),
            "{text} of the copy"
        );
    }
    Ok(())
}

// ab is 258 and x is 3.
const TWO: &[u8; 25] = b"\0\0\0\x02\x02ab\0\0\0\0\0\0\x01\x02\x01x\0\0\0\0\0\0\0\x03";

// where the field of each byte begins
const FIELDS: [u64; 25] = [
    0, 0, 0, 0, 4, 5, 5, 7, 7, 7, 7, 7, 7, 7, 7, 15, 16, 17, 17, 17, 17, 17, 17, 17, 17,
];

// (updates, the bytes of what they give)
const IN_BYTES: [(&[&str], &[u8]); 5] = [
    (&[], b"\0\0\0\0"),
    (&["add x 3"], b"\0\0\0\x01\x01x\0\0\0\0\0\0\0\x03"),
    (&["add x 1", "add ab 258", "add x 2"], TWO),
    (&["add x 0"], b"\0\0\0\x01\x01x\0\0\0\0\0\0\0\0"),
    (
        &["add x 18446744073709551615", "add x 1"],
        b"\0\0\0\x01\x01x\0\0\0\0\0\0\0\0",
    ),
];

// The value's bytes.
fn spelling(alloc: Global, value: &Tally) -> Result<Text, Fail> {
    let mut out = Rows::new(alloc);
    value.put(&mut out)?;
    Ok(out)
}

// The bytes of the value that the updates give.
fn bytes_behind(alloc: Global, updates: &[&str]) -> Result<Text, Fail> {
    let mut tally = Tally::start(alloc)?;
    for text in updates {
        told(alloc, &mut tally, text.as_bytes())?;
    }
    spelling(alloc, &tally)
}

// What the bytes are refused for, if they are.
fn fault_of(alloc: Global, bytes: &[u8]) -> Option<GetFault> {
    match Tally::get(alloc, bytes) {
        Ok(_value) => None,
        Err(fault) => Some(fault),
    }
}

// Whether the bytes are refused, or a value's that is put as they are.
fn comes_back(alloc: Global, bytes: &[u8]) -> Result<bool, Fail> {
    match Tally::get(alloc, bytes) {
        Ok(value) => {
            let out = spelling(alloc, &value)?;
            Ok(out.as_slice() == bytes)
        }
        Err(fault) => Ok(fault != GetFault::NoMemory),
    }
}

// The refusal at this offset.
fn bad(at: u64, what: BadWhat) -> Option<GetFault> {
    Some(GetFault::Bad { at, what })
}

#[test]
fn counters_in_bytes(rt: HostRuntime) -> Result<(), Fail> {
    for (updates, want) in IN_BYTES {
        let bytes = bytes_behind(rt.alloc(), updates)?;
        assert!(rt; bytes.as_slice() == want, "the bytes are others");
        assert!(rt;
            comes_back(rt.alloc(), want)?,
            "the bytes are put otherwise"
        );
        assert_eq!(rt; fault_of(rt.alloc(), want), None);
    }
    Ok(())
}

#[test]
fn the_value_of_bytes(rt: HostRuntime) -> Result<(), Fail> {
    let mut tally = Tally::get(rt.alloc(), TWO)?;
    for (text, want) in [("read ab", "258"), ("read x", "3"), ("read y", "0")] {
        let answer = told(rt.alloc(), &mut tally, text.as_bytes())?;
        assert!(rt; answer.as_slice() == want.as_bytes(), "{text}");
    }
    Ok(())
}

#[test]
fn cut_bytes_are_short(rt: HostRuntime) {
    for (cut, begins) in FIELDS.iter().enumerate() {
        let (front, _rest) = TWO.split_at(cut);
        assert_eq!(rt;
            fault_of(rt.alloc(), front),
            bad(*begins, BadWhat::Short),
            "cut at {cut}"
        );
    }
}

// (place, byte there, what the bytes are refused for, if they are)
const CHANGED: [(usize, u8, Option<(u64, BadWhat)>); 24] = [
    (0, 255, Some((25, BadWhat::Short))),
    (3, 0, Some((4, BadWhat::Trailing))),
    (3, 1, Some((15, BadWhat::Trailing))),
    (3, 3, Some((25, BadWhat::Short))),
    (4, 0, Some((4, BadWhat::Range))),
    (4, 1, Some((15, BadWhat::Value))),
    (4, 3, Some((5, BadWhat::Value))),
    (4, 17, Some((4, BadWhat::Range))),
    (5, 0x41, Some((5, BadWhat::Value))),
    (5, 0x77, None),
    (5, 0x78, Some((15, BadWhat::Order))),
    (5, 0x79, Some((15, BadWhat::Order))),
    (6, 0x2f, Some((5, BadWhat::Value))),
    (6, 0x7a, None),
    (7, 255, None),
    (14, 0, None),
    (15, 0, Some((15, BadWhat::Range))),
    (15, 2, Some((16, BadWhat::Value))),
    (15, 17, Some((15, BadWhat::Range))),
    (16, 0x61, Some((15, BadWhat::Order))),
    (16, 0x62, None),
    (16, 0x7b, Some((16, BadWhat::Value))),
    (17, 1, None),
    (24, 0, None),
];

// The bytes with another one at this place.
fn changed(place: usize, byte: u8) -> [u8; 25] {
    let mut bytes = *TWO;
    if let Some(there) = bytes.get_mut(place) {
        *there = byte;
    }
    bytes
}

#[test]
fn changed_bytes(rt: HostRuntime) {
    for (place, byte, want) in CHANGED {
        let want = match want {
            Some((at, what)) => bad(at, what),
            None => None,
        };
        assert_eq!(rt;
            fault_of(rt.alloc(), &changed(place, byte)),
            want,
            "{byte} at {place}"
        );
    }
}

#[test]
fn changed_bytes_are_refused_or_come_back(rt: HostRuntime) -> Result<(), Fail> {
    for place in 0..TWO.len() {
        for byte in [0, 1, 2, 16, 17, 0x2f, 0x30, 0x61, 0x62, 0x7a, 0x7b, 255] {
            let comes = comes_back(rt.alloc(), &changed(place, byte))?;
            assert!(rt; comes, "{byte} at {place}");
        }
    }
    Ok(())
}

#[test]
fn other_bytes(rt: HostRuntime) {
    let alloc = rt.alloc();
    let behind = fault_of(alloc, &[0; 5]);
    assert_eq!(rt; behind, bad(4, BadWhat::Trailing));
    // A count in 8 bytes that has room in 4.
    let small = fault_of(alloc, b"\xff\xff\xff\xff\0\0\0\0\xff\xff\xff\xfe");
    assert_eq!(rt; small, bad(4, BadWhat::Range));
    let short = fault_of(alloc, b"\xff\xff\xff\xff\0\0\0\0\xff\xff\xff\xff");
    assert_eq!(rt; short, bad(12, BadWhat::Short));
    let twice = b"\0\0\0\x02\x01x\0\0\0\0\0\0\0\x01\x01x\0\0\0\0\0\0\0\x02";
    assert_eq!(rt; fault_of(alloc, twice), bad(14, BadWhat::Order));
}

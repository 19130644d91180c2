//! The calls of a stamp, on parts worked out by hand.
ghost use Rattle.std.specs.Prelude.{◌≡◌, length};

use crate::limits::LAST_NUMBER;
use crate::stamp::Stamp;
use std::process::Abort;

// A stamp of three parts.
fn of(rt: &impl Abort, parts: [u64; 3]) -> Stamp
    ensures { length result ≡ 3 }
{
    let mut stamp = Stamp::zero(3);
    let [first, second, third] = parts;
    assert!(rt; first.max(second).max(third) <= LAST_NUMBER);
    stamp.set_part(0, first);
    stamp.set_part(1, second);
    stamp.set_part(2, third);
    stamp
}

fn parts_of(stamp: &Stamp) -> [u64; 3]
    requires { length stamp.now ≡ 3 }
{
    [stamp.part(0), stamp.part(1), stamp.part(2)]
}

#[test]
fn pairs_of_stamps(rt: HostRuntime) {
    // (two stamps, their join, whether the first is at most the second, and the second at most the first)
    let pairs = [
        ([1, 0, 2], [0, 3, 1], [1, 3, 2], false, false),
        ([1, 3, 1], [1, 3, 2], [1, 3, 2], true, false),
        ([4, 0, 0], [0, 0, 4], [4, 0, 4], false, false),
        ([0, 0, 0], [0, 0, 0], [0, 0, 0], true, true),
        ([7, 8, 9], [7, 7, 9], [7, 8, 9], false, true),
    ];
    for (first, second, joined, below, above) in pairs {
        let mut own = of(&rt, first);
        let other = of(&rt, second);
        assert_eq!(rt; own.le(&other), below, "{first:?} and {second:?}");
        assert_eq!(rt; other.le(&own), above, "{second:?} and {first:?}");
        own.join(&other);
        assert_eq!(rt; parts_of(&own), joined, "{first:?} and {second:?}");
        assert_eq!(rt; parts_of(&other), second, "what is joined stays");
    }
}

#[test]
fn parts_and_copies(rt: HostRuntime) {
    for parts in 2..=10 {
        let zero = Stamp::zero(parts);
        assert_eq!(rt; zero.parts(), parts);
        assert_eq!(rt; zero.part(parts - 1), 0);
    }
    let mut stamp = of(&rt, [1, 0, 2]);
    let copied = stamp.copy();
    stamp.set_part(1, LAST_NUMBER);
    assert_eq!(rt; parts_of(&stamp), [1, LAST_NUMBER, 2]);
    assert_eq!(rt; parts_of(&copied), [1, 0, 2]);
}

//! The calls of a value, with states worked out by hand.
ghost use Rattle.std.specs.Prelude.{◌≡◌, ◌-◌, [], ◌∷◌, ◌++◌, length, take, None, find, is_some, IfOk, OnOk, OnErr};
ghost use Rattle.std.specs.Option.{option_copied};
ghost use Rattle.lr_base.specs.Ascending.{same_cid};
ghost use Rattle.lr_base.specs.Logged.{AllLogged, AllReceived, IsLogged};
ghost use Rattle.lr_base.specs.Places.{AreInOrder, items_at};
ghost use Rattle.lr_base.specs.Rules.{logs_update};
ghost use Rattle.lr_tests.specs.Sample.{AreSample};

use crate::items::stamp;
use lr_base::lr_service::{Kind, Operation, Service};
use lr_base::{Cid, Executed, Known, LAST_NUMBER, LogUpdate, NoMemory, Places, Spot, Stamp, Text};
use lr_value::{Older, Value};
use std::alloc::Global;
use std::marker::Model;
use std::process::Abort;
use std::test::Fail;
use svc_tally::{Tally, TallyOp};

// A table that looks through all its calls, and has room for so many.
#[derive(Drop)]
struct Calls {
    entries: Vec<(Cid, Known)>,
    room: usize,
}

impl Calls {
    fn new(alloc: Global, room: usize) -> Self {
        Calls {
            entries: Vec::new(alloc),
            room,
        }
    }
}

impl Executed for Calls {
    ghost use Rattle.lr_base.specs.Calls.{enter_calls};

    ghost known = { λ calls. enter_calls calls.entries.items [] };

    ghost Kept = { Unit {0} };

    ghost kept = { λ calls. tt };

    fn has(&self, cid: Cid) -> bool {
        entry_of(self.entries.as_slice(), cid).is_some()
    }

    fn enter(&mut self, cid: Cid, entry: Known) -> Result<(), NoMemory> {
        if self.entries.len() >= self.room {
            return Err(NoMemory);
        }
        self.entries.push((cid, entry))?;
        Ok(())
    }
}

// The entry of a call.
fn entry_of(entries: &[(Cid, Known)], cid: Cid) -> Option<&(Cid, Known)>
    ensures { option_copied result ≡ find (λ e. same_cid cid e.0) entries.now }
{
    entries.iter().find(|entry| cid == entry.0)
}

// Updates of one of three replicas, in the order of their numbers, which are at most 1000.
#[derive(Drop)]
struct OfPlace {
    place: u8,
    last: u64,
    items: Vec<LogUpdate<TallyOp>>,
}

impl Model for OfPlace {
    ghost use Rattle.std.specs.Prelude.{ℕ, List};
    ghost use Rattle.lr_base.specs.declared.messages.LogUpdate.{LogUpdate};
    ghost use Rattle.svc_tally.specs.declared.op.TallyOp.{TallyOp};
    ghost use Rattle.lr_tests.specs.Sample.{AreSample};

    ghost Value = { ℕ × List (LogUpdate TallyOp) };

    ghost view = { λ it. (it.place, it.items.items) };

    ghost invariant = { λ it. AreSample it.place it.last it.items.items };
}

impl OfPlace {
    fn new(alloc: Global, place: u8) -> Self
        ensures { result ≡ (place, []) }
    {
        OfPlace {
            place,
            last: 0,
            items: Vec::new(alloc),
        }
    }

    fn as_slice(&self) -> &[LogUpdate<TallyOp>]
        ensures all { result.now ≡ self.now.1 }
        ensures sample { AreSample self.now.0 1000 self.now.1 }
    {
        self.items.as_slice()
    }

    fn has(&self, cid: Cid) -> bool
        ensures { result ≡ logs_update self.now.1 cid }
    {
        self.items.iter().any(|update| update.cid == cid)
    }

    fn push(&mut self, rt: &impl Abort, update: LogUpdate<TallyOp>) -> Result<(), NoMemory>
        requires { IsLogged ⟦<TallyOp as Operation>⟧.kind_of 4 update }
        ensures { self.new.0 ≡ self.old.0 }
    {
        let number = update.spot.number;
        assert!(rt; update.spot.place == self.place);
        assert!(rt; self.last < number);
        assert!(rt; number <= 1000);
        self.items.push(update)?;
        self.last = number;
        Ok(())
    }
}

// Updates that can be applied where there are three replicas.
#[derive(Drop)]
struct Updates {
    zero: OfPlace,
    one: OfPlace,
    two: OfPlace,
    ghost zero_is: { zero.0 ≡ 0 },
    ghost one_is: { one.0 ≡ 1 },
    ghost two_is: { two.0 ≡ 2 },
}

impl Updates {
    fn new(alloc: Global) -> Self {
        Updates {
            zero: OfPlace::new(alloc, 0),
            one: OfPlace::new(alloc, 1),
            two: OfPlace::new(alloc, 2),
        }
    }

    fn push(&mut self, rt: &impl Abort, update: LogUpdate<TallyOp>) -> Result<(), NoMemory>
        requires { IsLogged ⟦<TallyOp as Operation>⟧.kind_of 4 update }
    {
        match update.spot.place {
            0 => self.zero.push(rt, update),
            1 => self.one.push(rt, update),
            _ => self.two.push(rt, update),
        }
    }
}

impl Places<TallyOp> for Updates {
    ghost updates = { λ it. it.zero.1 ++ (it.one.1 ++ it.two.1) };

    fn updates_of(&self, place: u8) -> &[LogUpdate<TallyOp>] {
        let zero = self.zero.as_slice();
        let one = self.one.as_slice();
        let two = self.two.as_slice();
        match place {
            0 => zero,
            1 => one,
            2 => two,
            _ => &[],
        }
    }

    fn has_update(&self, cid: Cid) -> bool {
        self.zero.has(cid) || self.one.has(cid) || self.two.has(cid)
    }
}

// The stamp of what was received.
fn received(updates: &Updates) -> Stamp
    ensures logged { AllLogged ⟦<TallyOp as Operation>⟧.kind_of 4
        (updates.now.zero.1 ++ (updates.now.one.1 ++ updates.now.two.1)) }
    ensures received { AllReceived result (updates.now.zero.1 ++ (updates.now.one.1 ++ updates.now.two.1)) }
    ensures parts { length result ≡ 4 }
{
    let _zero = updates.zero.as_slice();
    let _one = updates.one.as_slice();
    let _two = updates.two.as_slice();
    let mut received = Stamp::zero(4);
    received.set_part(0, 1000);
    received.set_part(1, 1000);
    received.set_part(2, 1000);
    received.set_part(3, 1000);
    received
}

// Applies what is ready of these, as if it looked for the first time.
fn apply(
    value: &mut Value<Tally>,
    updates: &Updates,
    calls: &mut Calls,
) -> Result<Option<Older<Tally>>, NoMemory>
    requires { length value.old.val_ts ≡ 4 }
    ensures { length value.new.val_ts ≡ 4 }
{
    let received = received(updates);
    value.forget();
    value.apply_ready(updates, &received, calls)
}

// What the second of two applyings of the same answers.
fn apply_twice(
    value: &mut Value<Tally>,
    updates: &Updates,
    calls: &mut Calls,
) -> Result<Option<Older<Tally>>, NoMemory>
    requires { length value.old.val_ts ≡ 4 }
    ensures { length value.new.val_ts ≡ 4 }
{
    let received = received(updates);
    value.forget();
    value.apply_ready(updates, &received, calls)?;
    value.apply_ready(updates, &received, calls)
}

// An update of the client's call of this number, with its causes.
fn update(
    rt: &impl Abort,
    alloc: Global,
    spot: Spot,
    seq: u64,
    prev: [u64; 4],
    op: &str,
) -> Result<LogUpdate<TallyOp>, Fail>
    ensures { IfOk result (λ made. IsLogged ⟦<TallyOp as Operation>⟧.kind_of 4 made) }
{
    let op = Tally::read_op(alloc, op.as_bytes())?;
    let prev = stamp(rt, &prev);
    let cid = Cid { client: 0, seq };
    assert!(rt; prev.parts() == 4);
    assert!(rt; spot.place < 4);
    assert!(rt; spot.number <= LAST_NUMBER);
    match Tally::kind(&op) {
        Kind::Query => Err("not an update")?,
        Kind::Causal | Kind::Forced | Kind::Immediate => Ok(LogUpdate {
            spot,
            cid,
            prev,
            op,
        }),
    }
}

// What the counter `x` is read as, with this label.
fn read_x(
    rt: &impl Abort,
    alloc: Global,
    value: &Value<Tally>,
    label: [u64; 4],
) -> Result<Option<Text>, Fail> {
    let op = Tally::read_op(alloc, b"read x")?;
    let label = stamp(rt, &label);
    assert!(rt; label.parts() == value.val_ts().parts());
    match Tally::kind(&op) {
        Kind::Query => Ok(value.read(&label, &op)?),
        Kind::Causal | Kind::Forced | Kind::Immediate => Err("not a query")?,
    }
}

// Two calls, of which the first waits for the second, the second's again, and one that waits for ever.
fn some_updates(rt: &impl Abort, alloc: Global) -> Result<Updates, Fail> {
    let mut updates = Updates::new(alloc);
    for (place, number, seq, prev, op) in [
        (0, 1, 1, [0, 1, 0, 0], "add x 3"),
        (1, 1, 2, [0, 0, 0, 0], "add x 4"),
        (1, 2, 2, [0, 0, 0, 0], "add x 4"),
        (2, 1, 3, [7, 0, 0, 0], "add x 5"),
    ] {
        let spot = Spot { place, number };
        updates.push(rt, update(rt, alloc, spot, seq, prev, op)?)?;
    }
    Ok(updates)
}

// The first four parts, where one past the end is 0.
fn parts_of(stamp: &Stamp) -> [u64; 4] {
    let mut parts = [0; 4];
    for place in 0..stamp.parts().min(4) {
        parts[place as usize] = stamp.part(place);
    }
    parts
}

#[test]
fn what_is_ready_is_applied_once(rt: HostRuntime) -> Result<(), Fail> {
    let updates = some_updates(&rt, rt.alloc())?;
    let mut calls = Calls::new(rt.alloc(), 1000);
    let mut value = Value::<Tally>::new(rt.alloc(), 4)?;
    assert!(rt; value.val_ts().parts() == 4);
    apply(&mut value, &updates, &mut calls)?;
    assert_eq!(rt; parts_of(value.val_ts()), [1, 2, 0, 0]);
    // (call, whether it was executed)
    for (seq, executed) in [(1, true), (2, true), (3, false)] {
        assert_eq!(rt; calls.has(Cid { client: 0, seq }), executed, "call {seq}");
    }
    assert_eq!(rt; calls.entries.len(), 2);
    assert_eq!(rt; calls.entries[0].0.seq, 2);
    assert!(rt;
        calls.entries[0].1.spot
            == Spot {
                place: 1,
                number: 1
            }
    );
    assert_eq!(rt; parts_of(&calls.entries[1].1.stamp), [1, 1, 0, 0]);
    Ok(())
}

#[test]
fn what_was_applied_stays_so(rt: HostRuntime) -> Result<(), Fail> {
    let updates = some_updates(&rt, rt.alloc())?;
    let mut calls = Calls::new(rt.alloc(), 1000);
    let start = Tally::start(rt.alloc())?;
    let mut value = Value::from_parts(rt.alloc(), start, stamp(&rt, &[1, 1, 0, 0]));
    assert!(rt; value.val_ts().parts() == 4);
    // Only the second call's other update waits, and the one that waits for ever.
    apply(&mut value, &updates, &mut calls)?;
    assert_eq!(rt; parts_of(value.val_ts()), [1, 2, 0, 0]);
    assert_eq!(rt; calls.entries.len(), 1);
    Ok(())
}

#[test]
fn answers_wait_for_what_a_label_names(rt: HostRuntime) -> Result<(), Fail> {
    let updates = some_updates(&rt, rt.alloc())?;
    let mut calls = Calls::new(rt.alloc(), 1000);
    let mut value = Value::<Tally>::new(rt.alloc(), 4)?;
    assert!(rt; value.val_ts().parts() == 4);
    let before = value.copy()?;
    apply(&mut value, &updates, &mut calls)?;
    // (label, the answer before, and after)
    let labels: [([u64; 4], Option<&str>, Option<&str>); 3] = [
        ([0, 0, 0, 0], Some("0"), Some("7")),
        ([1, 2, 0, 0], None, Some("7")),
        ([1, 2, 1, 0], None, None),
    ];
    for (label, early, later) in labels {
        for (asked, want) in [(&before, early), (&value, later)] {
            match read_x(&rt, rt.alloc(), asked, label)? {
                Some(text) => {
                    let want = want.ok_or("an answer came too early")?;
                    assert!(rt; text.as_slice() == want.as_bytes(), "at {label:?}");
                }
                None => assert_eq!(rt; want, None, "at {label:?}"),
            }
        }
    }
    Ok(())
}

#[test]
fn want_of_memory_keeps_the_value(rt: HostRuntime) -> Result<(), Fail> {
    let updates = some_updates(&rt, rt.alloc())?;
    let mut calls = Calls::new(rt.alloc(), 1);
    let mut value = Value::<Tally>::new(rt.alloc(), 4)?;
    assert!(rt; value.val_ts().parts() == 4);
    assert!(rt; apply(&mut value, &updates, &mut calls).is_err());
    assert_eq!(rt; parts_of(value.val_ts()), [0, 0, 0, 0]);
    Ok(())
}

#[test]
fn nothing_new_changes_nothing(rt: HostRuntime) -> Result<(), Fail> {
    let updates = some_updates(&rt, rt.alloc())?;
    let mut calls = Calls::new(rt.alloc(), 1000);
    let mut value = Value::<Tally>::new(rt.alloc(), 4)?;
    assert!(rt; value.val_ts().parts() == 4);
    let last = apply_twice(&mut value, &updates, &mut calls)?;
    assert!(rt; last.is_none());
    assert_eq!(rt; parts_of(value.val_ts()), [1, 2, 0, 0]);
    Ok(())
}

//! The service's value, with the stamp of what was applied to it.
ghost use Rattle.std.specs.Prelude.{◌≡◌, ◌≤◌, List, fold, length, replicate, [], Some, None, IsTrue, IfOk, OnOk, OnErr};
ghost use Rattle.std.specs.Option.{ForSome, option_map};
ghost use Rattle.lr_base.specs.Kinds.{IsQuery};
ghost use Rattle.lr_base.specs.Limits.{most_parts};
ghost use Rattle.lr_base.specs.Rules.{answer_of};
ghost use Rattle.lr_base.specs.declared.messages.Known.{Known};
ghost use Rattle.lr_base.specs.declared.names.Cid.{Cid};
ghost use Rattle.lr_value.specs.Applied.{GoesOn, IsOlderOf, all_ready, progress};
ghost use Rattle.lr_value.specs.Executing.{HasApplied};
ghost use Rattle.lr_value.specs.Remembered.{HasLooked, IsLogOf, IsSettledAt};

use crate::applying::{Draft, apply_all};
use crate::gathering::{gathered, is_one_ready};
use crate::memory::Memory;
use crate::older::Older;
use crate::ops::{Ops, caught_up};
use lr_base::lr_service::Service;
use lr_base::{Executed, NoMemory, Places, Stamp, Text};
use std::alloc::Global;
use std::marker::Model;
use std::mem;

/// A value and the stamp that stands for the updates applied to it.
#[derive(Drop)]
pub struct Value<S: Service> {
    value: S,
    val_ts: Stamp,
    memory: Option<Memory>,
    // An older value, and the operations that were executed on the value since.
    spare: Option<S>,
    behind: Ops<S::Op>,
    alloc: Global,
}

impl<S: Service> Model for Value<S> {
    ghost use Rattle.std.specs.Prelude.{◌≡◌, fold, length};
    ghost use Rattle.std.specs.Option.{ForSome};
    ghost use Rattle.lr_value.specs.Applied.{Applied};

    ghost Value = { Applied S };

    ghost view = { λ it. record { value = it.value; val_ts = it.val_ts; memory = it.memory } };

    ghost invariant = { λ it. (ForSome it.spare (λ spare. fold S.meaning.apply spare it.behind ≡ it.value))
        × ForSome it.memory (λ memory. length memory.seen ≡ length it.val_ts) };
}

impl<S: Service> Value<S> {
    /// The service's start, to which nothing was applied.
    pub fn new(alloc: Global, parts: u8) -> Result<Self, NoMemory>
        requires some { 2 ≤ parts }
        requires most { parts ≤ most_parts }
        ensures value { IfOk result (λ made. made.value ≡ S.meaning.start) }
        ensures val_ts { IfOk result (λ made. made.val_ts ≡ replicate parts 0) }
        ensures memory { IfOk result (λ made. made.memory ≡ None) }
    {
        let value = S::start(alloc)?;
        Ok(Value::from_parts(alloc, value, Stamp::zero(parts)))
    }

    /// A value to which was applied what this stamp stands for.
    pub fn from_parts(alloc: Global, value: S, val_ts: Stamp) -> Self
        ensures { result ≡ record { value = value; val_ts = val_ts; memory = None } }
    {
        Value {
            value,
            val_ts,
            memory: None,
            spare: None,
            behind: Ops::new(alloc),
            alloc,
        }
    }

    /// The service's value.
    pub fn value(&self) -> &S
        ensures { result.now ≡ self.now.value }
    {
        &self.value
    }

    /// What the value stands for.
    pub fn val_ts(&self) -> &Stamp
        ensures { result.now ≡ self.now.val_ts }
    {
        &self.val_ts
    }

    /// What a query with this label is answered, or nothing while something of its label isn't applied.
    pub fn read(&self, label: &Stamp, op: &S::Op) -> Result<Option<Text>, NoMemory>
        requires parts { length label.now ≡ length self.now.val_ts }
        requires query { IsQuery (S.Op.kind_of op.now) }
        ensures { IfOk result (λ answer.
            answer ≡ answer_of S.meaning self.now.value self.now.val_ts label.now op.now) }
    {
        if !label.le(&self.val_ts) {
            return Ok(None);
        }
        let text = self.value.read(op)?;
        Ok(Some(text))
    }

    /// Whether nothing is new since it looked last, so that nothing is ready.
    pub fn is_settled<L: Places<S::Op>>(&self, log: &L, received: &Stamp) -> bool
        requires { IsLogOf S.Op.kind_of received.now (L.updates log.now) self.now }
        ensures settled { IsTrue result → IsSettledAt received.now (L.updates log.now) self.now }
        ensures idle { IsTrue result → (calls : List (Cid × Known))
            → all_ready S.meaning (L.updates log.now) (progress self.now calls) ≡ progress self.now calls }
        ensures new { HasLooked received.now self.now → IsTrue result }
    {
        match &self.memory {
            Some(memory) => memory.is_of(received),
            None => false,
        }
    }

    /// Applies the logged updates that are ready, each call once. Of those that wait, the first whose causes are
    /// applied comes first, and it ends where none that isn't applied has its causes applied. It looks at what is new
    /// since it looked last and at what waited then: where nothing is new it takes no memory. What it answers can be
    /// put back, or kept to be changed in place of a copy later.
    pub fn apply_ready<L: Places<S::Op>, E: Executed>(
        &mut self,
        log: &L,
        received: &Stamp,
        calls: &mut E,
    ) -> Result<Option<Older<S>>, NoMemory>
        requires { IsLogOf S.Op.kind_of received.now (L.updates log.now) self.old }
        // what is applied: by the rule, and what that comes to
        ensures ok { OnOk result (progress self.new (E.known calls.new)
            ≡ all_ready S.meaning (L.updates log.now) (progress self.old (E.known calls.old))) }
        ensures applied { OnOk result (HasApplied S.meaning (L.updates log.now)
            (progress self.old (E.known calls.old)) (progress self.new (E.known calls.new))) }
        ensures settled { OnOk result (IsSettledAt received.now (L.updates log.now) self.new) }
        ensures older { IfOk result
            (IsOlderOf (progress self.old (E.known calls.old)) (progress self.new (E.known calls.new))) }
        // what stays, also where memory ends, which can't be where nothing is new
        ensures stays { OnErr result ((self.new ≡ self.old) × ¬ (HasLooked received.now self.old))
            × GoesOn (progress self.old (E.known calls.old)) (progress self.new (E.known calls.new))
            × (E.kept calls.new ≡ E.kept calls.old) }
    {
        if self.is_settled(log, received) {
            return Ok(None);
        }
        let waiting = gathered(self.alloc, log, &self.val_ts, &self.memory)?;
        if !is_one_ready(waiting.as_slice(), &self.val_ts) {
            let memory = Memory::of(self.alloc, received, waiting.as_slice())?;
            self.memory = Some(memory);
            return Ok(None);
        }
        let mut draft = self.draft()?;
        let left = apply_all(self.alloc, &mut draft, calls, waiting)?;
        let memory = Memory::of(self.alloc, received, left.as_slice())?;
        Ok(Some(self.put(draft, memory)))
    }

    // A second value like this one, made of the spare one if there is one.
    fn draft(&mut self) -> Result<Draft<S>, NoMemory>
        ensures same { self.new ≡ self.old }
        ensures value { IfOk result (λ draft. draft.value ≡ self.old.value) }
        ensures val_ts { IfOk result (λ draft. draft.val_ts ≡ self.old.val_ts) }
        ensures since { IfOk result (λ draft. draft.since ≡ []) }
    {
        let mut since = mem::replace(&mut self.behind, Ops::new(self.alloc));
        let value = match self.spare.take() {
            Some(spare) => caught_up(spare, since.as_slice())?,
            None => self.value.copy()?,
        };
        since.clear();
        Ok(Draft {
            value,
            val_ts: self.val_ts.copy(),
            since,
        })
    }

    // Puts a changed value in the place of this one, which it answers.
    fn put(&mut self, draft: Draft<S>, memory: Memory) -> Older<S>
        requires parts { length memory.seen ≡ length draft.val_ts }
        requires since { fold S.meaning.apply self.old.value draft.since ≡ draft.value }
        ensures after { self.new ≡ record { value = draft.value; val_ts = draft.val_ts; memory = Some memory } }
        ensures older { result ≡ record {
          value = self.old.value;
          val_ts = self.old.val_ts;
          newer = Some draft.value;
        } }
    {
        self.spare = None;
        self.memory = Some(memory);
        Older {
            value: mem::replace(&mut self.value, draft.value),
            val_ts: mem::replace(&mut self.val_ts, draft.val_ts),
            since: Some(draft.since),
        }
    }

    /// Keeps an older value, to be changed in place of a copy. It takes no memory.
    pub fn keep(&mut self, older: Older<S>)
        requires { ForSome older.newer (λ newer. newer ≡ self.old.value) }
        ensures { self.new ≡ self.old }
    {
        let Older {
            value,
            val_ts: _,
            since,
        } = older;
        match since {
            Some(since) => {
                self.spare = Some(value);
                self.behind = since;
            }
            None => self.spare = None,
        }
    }

    /// Puts an older value back, of which no log is remembered. It takes no memory.
    pub fn put_back(&mut self, older: Older<S>)
        ensures { self.new ≡ record { value = older.value; val_ts = older.val_ts; memory = None } }
    {
        self.memory = None;
        self.spare = None;
        self.value = older.value;
        self.val_ts = older.val_ts;
    }

    /// Forgets what of a log was looked at, so that the next applying looks through all of it.
    pub fn forget(&mut self)
        ensures { self.new ≡ record self.old { memory = None } }
    {
        self.memory = None;
    }

    /// A value equal to this one, of which no log is remembered.
    pub fn copy(&self) -> Result<Self, NoMemory>
        ensures { IfOk result (λ copied. copied ≡ record self.now { memory = None }) }
    {
        let value = self.value.copy()?;
        Ok(Value::from_parts(self.alloc, value, self.val_ts.copy()))
    }
}

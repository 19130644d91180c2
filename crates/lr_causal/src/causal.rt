//! The causal part of a replica.
ghost use Rattle.std.specs.Prelude.{◌≡◌, ◌+◌, ◌<◌, length, IsTrue};
ghost use Rattle.lr_base.specs.Config.{IsValid};
ghost use Rattle.lr_base.specs.Logged.{AllAcksReceived, AllKnown, AllLogged, AllReceived};
ghost use Rattle.lr_causal.specs.Causal.{HasSeen, IsAtRest, NoneApplied};
ghost use Rattle.lr_value.specs.Remembered.{Remembers};

use crate::labels::{is_applied, none_applied};
use lr_base::lr_service::{Operation, Service};
use lr_base::{Call, Cid, Config, Fresh, Known, LogUpdate, NoMemory, Spot, Stamp, Text};
use lr_calls::{CallTable, late};
use lr_log::{Log, Table};
use lr_value::Value;
use std::alloc::Global;

mod making;
mod noting;
mod stepping;
mod telling;

pub use noting::AckEnd;

/// The state of a replica that causal operations use.
#[derive(Drop)]
pub struct Causal<S: Service> {
    config: Config,
    me: u8,
    clock: u64,
    log: Log<S::Op>,
    value: Value<S>,
    calls: CallTable,
    // What each replica told that it has received, and what was received here.
    table: Table,
    order_ts: Stamp,
    imm_ts: Stamp,
    top: u64,
    // The queries that wait for what their labels name.
    held: Vec<Call<S::Op>>,
    // Whether each of them is known to wait still.
    all_wait: bool,
    // Whether it is known that pruning drops nothing.
    at_rest: bool,
    ghost valid: { IsValid config },
    ghost own_place: { me < config.replicas },
    ghost own_table: { table.me ≡ me },
    ghost rows: { length table.rows ≡ config.replicas },
    ghost rep_parts: { length table.own ≡ config.replicas + 1 },
    ghost val_parts: { length value.val_ts ≡ config.replicas + 1 },
    ghost order_parts: { length order_ts ≡ config.replicas + 1 },
    ghost imm_parts: { length imm_ts ≡ config.replicas + 1 },
    ghost logged: { AllLogged S.Op.kind_of (config.replicas + 1) log.updates },
    ghost updates_received: { AllReceived table.own log.updates },
    ghost acks_received: { AllAcksReceived table.own log.acks },
    ghost known: { AllKnown (config.replicas + 1) calls },
    ghost remembers: { Remembers value log.updates },
    ghost seen: { HasSeen table.own value.memory },
    ghost waits: { IsTrue all_wait → NoneApplied value.val_ts held.items },
    ghost rests: { IsTrue at_rest → IsAtRest config.delta clock table.rows log calls },
}

impl<S: Service> Causal<S> {
    ghost use Rattle.std.specs.Prelude.{◌≡◌, ◌+◌, ◌<◌, ◌↔◌, ℕ, find, length, IfSome, IfOk, IsTrue, OnOk, OnErr};
    ghost use Rattle.lr_causal.specs.Causal.{AgainHasParts, IsAnswerOf, IsUpdateCall, NoneApplied};
    ghost use Rattle.lr_causal.specs.Savepoint.{CanUndo, IsSame};
    ghost use Rattle.lr_base.specs.Ascending.{same_cid};
    ghost use Rattle.lr_base.specs.Kinds.{IsQuery};
    ghost use Rattle.lr_base.specs.Rules.{accepted, answer_of, fresh_of, held_more, known_of, taken_before};
    ghost use Rattle.lr_base.specs.Rules.{update_of_call};
    ghost use Rattle.lr_base.specs.Limits.{last_number};
    ghost use Rattle.lr_base.specs.Stamps.{part};
    ghost use Rattle.lr_base.specs.Steps.{still_held};
    ghost use Rattle.lr_causal.specs.State.{config_of, me_of, replica_of, state_of};

    /// What makes room for what it keeps.
    pub fn allocator(&self) -> Global {
        self.log.allocator()
    }

    /// What the run is set up with.
    pub fn config(&self) -> Config
        ensures { result ≡ config_of self.now }
    {
        self.config
    }

    /// Which replica it is.
    pub fn me(&self) -> u8
        ensures me { result ≡ me_of self.now }
        ensures own_place { result < (config_of self.now).replicas }
    {
        self.me
    }

    /// The greatest reading of its clock.
    pub fn clock(&self) -> u64
        ensures { result ≡ (state_of self.now).clock }
    {
        self.clock
    }

    /// How many items were received of each place.
    pub fn rep_ts(&self) -> &Stamp
        ensures rep_ts { result.now ≡ (state_of self.now).rep_ts }
        ensures parts { length result.now ≡ (config_of self.now).replicas + 1 }
    {
        self.table.own()
    }

    /// What the value stands for.
    pub fn val_ts(&self) -> &Stamp
        ensures val_ts { result.now ≡ (state_of self.now).val_ts }
        ensures parts { length result.now ≡ (config_of self.now).replicas + 1 }
    {
        self.value.val_ts()
    }

    /// The service's value.
    pub fn value(&self) -> &S
        ensures { result.now ≡ (state_of self.now).value }
    {
        self.value.value()
    }

    /// What was received and is kept.
    pub fn log(&self) -> &Log<S::Op>
        ensures updates { result.now.updates ≡ (state_of self.now).updates }
        ensures acks { result.now.acks ≡ (state_of self.now).acks }
    {
        &self.log
    }

    /// Which calls were executed, and where.
    pub fn calls(&self) -> &CallTable
        ensures { result.now ≡ (state_of self.now).calls }
    {
        &self.calls
    }

    /// What each replica told that it has received, and of this one what was received here.
    pub fn table(&self) -> &[Stamp]
        ensures { result.now ≡ (state_of self.now).table }
    {
        self.table.rows()
    }

    /// The held queries, in the order of arrival.
    pub fn held(&self) -> &[Call<S::Op>]
        ensures { result.now ≡ (state_of self.now).held }
    {
        self.held.as_slice()
    }

    /// The stamp of the ordered update that was received last.
    pub fn order_ts(&self) -> &Stamp
        ensures { result.now ≡ (state_of self.now).order_ts }
    {
        &self.order_ts
    }

    /// The stamp of the immediate update that was received last.
    pub fn imm_ts(&self) -> &Stamp
        ensures { result.now ≡ (state_of self.now).imm_ts }
    {
        &self.imm_ts
    }

    /// The number of the update that was accepted here last.
    pub fn top(&self) -> u64
        ensures { result ≡ (state_of self.now).top }
    {
        self.top
    }

    /// Whether an update with this call and time is new here, and if not, why.
    pub fn fresh(&self, cid: Cid, time: u64) -> Fresh
        ensures parts { AgainHasParts ((config_of self.now).replicas + 1) result }
        ensures fresh { result ≡ fresh_of (config_of self.now).delta (state_of self.now) cid time }
    {
        if late(time, self.config.delta, self.clock) {
            return Fresh::Late {
                time,
                clock: self.clock,
            };
        }
        if let Some(known) = self.taken_before(cid) {
            return Fresh::Again {
                spot: known.spot,
                stamp: known.stamp,
            };
        }
        match self.log.ack_of(cid) {
            Some(_) => Fresh::Settled,
            None => Fresh::New,
        }
    }

    // Where the call was executed, or else the least spot at which it is logged.
    fn taken_before(&self, cid: Cid) -> Option<Known>
        ensures parts { IfSome result (λ known. length known.stamp ≡ (config_of self.now).replicas + 1) }
        ensures taken { let state = state_of self.now in
            result ≡ taken_before (known_of state.calls cid) (find (λ u. same_cid u.cid cid) state.updates) }
    {
        if let Some(known) = self.calls.find(cid) {
            return Some(known);
        }
        let update = self.log.first_update(cid)?;
        Some(Known {
            spot: update.spot,
            stamp: update.stamp(),
        })
    }

    /// Takes a call as this replica's next update.
    pub fn accept(&mut self, call: &Call<S::Op>) -> Result<(Spot, Stamp), NoMemory>
        requires call { IsUpdateCall S.Op.kind_of ((config_of self.old).replicas + 1) call.now }
        requires not_worn { part (state_of self.old).rep_ts (me_of self.old) < last_number }
        // the update that is logged, and what is answered of it
        ensures ok { OnOk result (state_of self.new ≡ accepted (me_of self.old) (state_of self.old) call.now) }
        ensures answer { let u = update_of_call (me_of self.old) (state_of self.old) call.now in
            IfOk result (IsAnswerOf ((config_of self.old).replicas + 1) u) }
        // what stays, and can be undone
        ensures err { OnErr result (state_of self.new ≡ state_of self.old) }
        ensures undo { (row : ℕ) → CanUndo row (replica_of self.old) (replica_of self.new) }
    {
        let mut own = self.table.own().copy();
        let number = own.part(self.me) + 1;
        let mut prev = call.prev.copy();
        prev.join(&self.imm_ts);
        let update = LogUpdate {
            spot: Spot {
                place: self.me,
                number,
            },
            cid: call.cid,
            prev,
            op: call.op.copy()?,
        };
        let stamp = update.stamp();
        let spot = update.spot;
        let Ok(()) = self.log.add_update(update) else {
            return Err(NoMemory);
        };
        own.set_part(self.me, number);
        self.table.put_own(own);
        self.top = number;
        self.at_rest = false;
        Ok((spot, stamp))
    }

    /// What a query with this label is answered, or nothing while something of its label isn't applied.
    pub fn read(&self, label: &Stamp, op: &S::Op) -> Result<Option<Text>, NoMemory>
        requires parts { length label.now ≡ (config_of self.now).replicas + 1 }
        requires query { IsQuery (S.Op.kind_of op.now) }
        ensures { let state = state_of self.now in
            IfOk result (λ answer. answer ≡ answer_of S.meaning state.value state.val_ts label.now op.now) }
    {
        self.value.read(label, op)
    }

    /// Holds a query behind the others.
    pub fn hold(&mut self, call: &Call<S::Op>) -> Result<(), NoMemory>
        ensures ok { OnOk result (state_of self.new ≡ held_more (state_of self.old) call.now) }
        ensures err { OnErr result (state_of self.new ≡ state_of self.old) }
        ensures undo { (row : ℕ) → CanUndo row (replica_of self.old) (replica_of self.new) }
    {
        let copied = call.copy()?;
        self.held.push(copied)?;
        self.all_wait = self.all_wait && !is_applied(&call.prev, self.value.val_ts());
        Ok(())
    }

    /// Whether no held query's label is applied. It looks at them only where something was applied since they were last
    /// looked at.
    pub fn all_wait(&self) -> bool
        ensures { IsTrue result ↔ NoneApplied (state_of self.now).val_ts (state_of self.now).held }
    {
        self.all_wait || none_applied(self.held.as_slice(), self.value.val_ts())
    }

    /// Drops the held queries whose label is applied. It takes no memory, and no savepoint undoes it.
    pub fn drop_answered(&mut self)
        ensures state { state_of self.new ≡ still_held (state_of self.old) }
        ensures same { IsSame (replica_of self.old) (replica_of self.new) }
    {
        if self.all_wait {
            return;
        }
        let val_ts = self.value.val_ts();
        self.held.retain(|call| !is_applied(&call.prev, val_ts));
        self.all_wait = true;
    }
}

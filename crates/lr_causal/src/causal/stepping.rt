//! How a step is undone, or ended.

use crate::applying::apply_ready;
use crate::causal::Causal;
use crate::forgetting::forget_done;
use crate::savepoint::{Savepoint, put_back};
use lr_base::NoMemory;
use lr_base::lr_service::Service;

impl<S: Service> Causal<S> {
    ghost use Rattle.std.specs.Prelude.{◌≡◌, ◌<◌, OnOk, OnErr};
    ghost use Rattle.lr_base.specs.Rules.{CausalState, applied, pruned};
    ghost use Rattle.lr_causal.specs.Savepoint.{HasShapeOf, IsPointOf, IsSame};
    ghost use Rattle.lr_causal.specs.State.{config_of, replica_of, state_of};

    /// Applies all that is ready, and drops what is known everywhere.
    pub fn settle(&mut self) -> Result<(), NoMemory>
        ensures ok { let ready = applied S.meaning (state_of self.old) in
            OnOk result (state_of self.new ≡ pruned (config_of self.old).delta ready) }
        ensures err { OnErr result (state_of self.new ≡ state_of self.old) }
        ensures same { IsSame (replica_of self.old) (replica_of self.new) }
    {
        let mut point = self.save(self.me);
        self.apply(&mut point)?;
        self.close(point);
        self.prune();
        Ok(())
    }

    /// What is needed to undo what comes next: a clock, a stamp, a length, no value, no item, no call, and of what
    /// replicas were heard to have received the one row of `heard`. It takes no memory.
    pub fn save(&self, heard: u8) -> Savepoint<S>
        requires { heard < (config_of self.now).replicas }
        ensures point { IsPointOf result (replica_of self.now) (state_of self.now) }
        ensures heard { result.heard ≡ heard }
    {
        self.table.keeps();
        Savepoint {
            me: self.me,
            clock: self.clock,
            rep_ts: self.table.own().copy(),
            top: self.top,
            heard,
            row: self.table.row(heard).copy(),
            entered: Vec::new(self.log.allocator()),
            held: self.held.len(),
            applied: None,
        }
    }

    /// Applies all that is ready. Where something is, the value of before goes into the savepoint, unless it has one
    /// already. Where nothing was received since the last time, it looks at no update.
    pub fn apply(&mut self, point: &mut Savepoint<S>) -> Result<(), NoMemory>
        ensures ok { OnOk result (state_of self.new ≡ applied S.meaning (state_of self.old)) }
        // what stays, and can be undone
        ensures err { OnErr result (state_of self.new ≡ state_of self.old) }
        ensures err_point { OnErr result (point.new ≡ point.old) }
        ensures point { (before : CausalState S S.Op) → IsPointOf point.old (replica_of self.old) before
            → IsPointOf point.new (replica_of self.new) before }
        ensures same { IsSame (replica_of self.old) (replica_of self.new) }
    {
        let Ok(older) = apply_ready(
            &mut self.value,
            &self.log,
            self.table.own(),
            &mut self.calls,
            &mut point.entered,
        ) else {
            return Err(NoMemory);
        };
        if let Some(older) = older {
            self.all_wait = false;
            self.at_rest = false;
            point.keep(older);
        }
        Ok(())
    }

    /// Ends what the savepoint might have undone: where it has the value of before, that is kept, to be caught up when
    /// something is applied next. It takes no memory.
    pub fn close(&mut self, point: Savepoint<S>)
        requires { (before : CausalState S S.Op) × IsPointOf point (replica_of self.old) before }
        ensures state { state_of self.new ≡ state_of self.old }
        ensures same { IsSame (replica_of self.old) (replica_of self.new) }
    {
        let Savepoint { applied, .. } = point;
        if let Some(older) = applied {
            self.value.keep(older);
        }
    }

    /// Drops what is of no use any more: updates that each replica has, then calls that are done, then acknowledgements
    /// that each replica has and that are late. It takes no memory, and no savepoint undoes it. It looks at no item
    /// where since the last time nothing was logged, heard, applied or undone, and the clock stood still.
    pub fn prune(&mut self)
        ensures state { state_of self.new ≡ pruned (config_of self.old).delta (state_of self.old) }
        ensures same { IsSame (replica_of self.old) (replica_of self.new) }
    {
        if self.at_rest {
            return;
        }
        self.log.retain_unknown(&self.table);
        forget_done(&mut self.calls, &self.log);
        self.log
            .drop_acks(&self.table, self.clock, self.config.delta);
        self.at_rest = true;
    }

    /// Gives back the state in which the savepoint was made, where only `accept`, `ack`, `tick`, `take_gossip` of the
    /// replica whose row it has, `hold` and `apply` have changed it since. It takes no memory.
    pub fn restore(&mut self, point: Savepoint<S>)
        requires { HasShapeOf point (replica_of self.old) }
        ensures state { (before : CausalState S S.Op) → IsPointOf point (replica_of self.old) before
            → state_of self.new ≡ before }
        ensures same { IsSame (replica_of self.old) (replica_of self.new) }
    {
        self.log.drop_new(&point.rep_ts);
        self.calls.leave(point.entered.as_slice());
        self.held.truncate(point.held);
        put_back(&mut self.value, point.applied);
        self.clock = point.clock;
        self.top = point.top;
        self.all_wait = false;
        self.at_rest = false;
        self.table.put(point.heard, point.row);
        self.table.put_own(point.rep_ts);
    }
}

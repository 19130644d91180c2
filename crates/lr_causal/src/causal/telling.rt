//! What replicas tell each other.
ghost use Rattle.std.specs.Prelude.{◌≡◌};

use crate::causal::Causal;
use crate::gossip::{new_acks, new_updates};
use lr_base::lr_service::Service;
use lr_base::{Gossip, NoMemory};

impl<S: Service> Causal<S> {
    ghost use Rattle.std.specs.Prelude.{◌≡◌, ◌+◌, ◌<◌, IfOk, IsTrue, OnOk, OnErr};
    ghost use Rattle.lr_base.specs.Rules.{gossip_of, gossip_taken, new_count};
    ghost use Rattle.lr_causal.specs.Causal.{IsGossip};
    ghost use Rattle.lr_causal.specs.Savepoint.{CanUndo};
    ghost use Rattle.lr_causal.specs.State.{config_of, me_of, replica_of, state_of};

    /// What it tells another replica: how many items it received of each place, and what of its log is new for that
    /// one, by what it was told.
    pub fn make_gossip(&self, to: u8) -> Result<Gossip<S::Op>, NoMemory>
        requires { to < (config_of self.now).replicas }
        ensures gossip { IfOk result (λ made. made ≡ gossip_of to (state_of self.now)) }
        ensures shape { IfOk result (λ made. IsGossip S.Op.kind_of ((config_of self.now).replicas + 1) made) }
    {
        self.log.keeps();
        let theirs = self.table.row(to);
        let updates = self.log.copy_new_updates(theirs)?;
        let acks = self.log.copy_new_acks(theirs)?;
        Ok(Gossip {
            rep_ts: self.table.own().copy(),
            updates,
            acks,
        })
    }

    /// Takes gossip of another replica: what is new is logged, and its stamp is joined to what was received here and to
    /// what its sender told. It answers how many items were new. Where it tells nothing it takes no memory.
    pub fn take_gossip(&mut self, from: u8, gossip: &Gossip<S::Op>) -> Result<u64, NoMemory>
        requires from { from < (config_of self.old).replicas }
        requires gossip { IsGossip S.Op.kind_of ((config_of self.old).replicas + 1) gossip.now }
        // what is taken
        ensures count { IfOk result (λ count. count ≡ new_count (state_of self.old) gossip.now) }
        ensures ok { let state = state_of self.old in
            OnOk result (state_of self.new ≡ gossip_taken (me_of self.old) from state gossip.now) }
        // what stays, and can be undone
        ensures err { OnErr result (state_of self.new ≡ state_of self.old) }
        ensures undo { CanUndo from (replica_of self.old) (replica_of self.new) }
    {
        if self.has_heard(from, gossip) {
            return Ok(0);
        }
        let alloc = self.log.allocator();
        let mut own = self.table.own().copy();
        let updates = new_updates(alloc, gossip.updates.as_slice(), &own)?;
        let acks = new_acks(alloc, gossip.acks.as_slice(), &own)?;
        let Ok(()) = self.log.add_all(updates.as_slice(), acks.as_slice()) else {
            return Err(NoMemory);
        };
        own.join(&gossip.rep_ts);
        self.table.merge(from, &gossip.rep_ts);
        self.table.put_own(own);
        self.at_rest = false;
        Ok(updates.len() as u64 + acks.len() as u64)
    }

    // Whether all of this gossip was received here, and its sender told it before, so that it changes nothing.
    fn has_heard(&self, from: u8, gossip: &Gossip<S::Op>) -> bool
        requires from { from < (config_of self.now).replicas }
        requires gossip { IsGossip S.Op.kind_of ((config_of self.now).replicas + 1) gossip.now }
        ensures none_new { IsTrue result → new_count (state_of self.now) gossip.now ≡ 0 }
        ensures same { let state = state_of self.now in
            IsTrue result → gossip_taken (me_of self.now) from state gossip.now ≡ state }
    {
        self.table.keeps();
        gossip.rep_ts.le(self.table.own()) && gossip.rep_ts.le(self.table.row(from))
    }
}

//! A replica's clock, and acknowledgements that clients send it.
ghost use Rattle.std.specs.Prelude.{◌≡◌, max};
ghost use Rattle.lr_causal.specs.Acks.{HasAcked};

use crate::causal::Causal;
use lr_base::lr_service::Service;
use lr_base::{Cid, LAST_NUMBER, LogAck, NoMemory, Spot};

/// What became of an acknowledgement.
#[derive(Clone, Copy, PartialEq, Eq)]
pub enum AckEnd {
    /// It was noted, at this spot.
    Noted(Spot),
    /// One of this call is logged, at this spot.
    Again(Spot),
    /// The log is full.
    FullLog,
    /// The replica's numbers are used up.
    Worn,
}

impl<S: Service> Causal<S> {
    ghost use Rattle.std.specs.Prelude.{◌≡◌, ℕ, find, max, IfOk, OnErr};
    ghost use Rattle.lr_base.specs.Ascending.{same_cid};
    ghost use Rattle.lr_base.specs.Rules.{ticked};
    ghost use Rattle.lr_base.specs.Steps.{ack_taken, has_number, has_room};
    ghost use Rattle.lr_causal.specs.Savepoint.{CanUndo};
    ghost use Rattle.lr_causal.specs.State.{me_of, replica_of, state_of};

    /// Notes that a client has the reply to a call, where none of the call is noted, with room and a number.
    pub fn ack(&mut self, cid: Cid, time: u64) -> Result<AckEnd, NoMemory>
        ensures ok { let state = state_of self.old in let me = me_of self.old in
            let logged = find (λ ack. same_cid ack.cid cid) state.acks in
            let end = ack_taken me state cid time logged (has_room state) (has_number me state) in
            IfOk result (HasAcked end cid (state_of self.new)) }
        // what stays, and can be undone
        ensures err { OnErr result (state_of self.new ≡ state_of self.old) }
        ensures undo { (row : ℕ) → CanUndo row (replica_of self.old) (replica_of self.new) }
    {
        if let Some(spot) = self.log.ack_of(cid) {
            return Ok(AckEnd::Again(spot));
        }
        if !self.log.has_room() {
            return Ok(AckEnd::FullLog);
        }
        let mut own = self.table.own().copy();
        let number = own.part(self.me);
        if number >= LAST_NUMBER {
            return Ok(AckEnd::Worn);
        }
        let spot = Spot {
            place: self.me,
            number: number + 1,
        };
        let Ok(()) = self.log.add_ack(LogAck { spot, cid, time }) else {
            return Err(NoMemory);
        };
        own.set_part(self.me, spot.number);
        self.table.put_own(own);
        self.at_rest = false;
        Ok(AckEnd::Noted(spot))
    }

    /// Reads the clock, which never goes back, and answers how far it has come. It takes no memory.
    pub fn tick(&mut self, reading: u64) -> u64
        ensures clock { result ≡ max (state_of self.old).clock reading }
        ensures state { state_of self.new ≡ ticked reading (state_of self.old) }
        ensures undo { (row : ℕ) → CanUndo row (replica_of self.old) (replica_of self.new) }
    {
        if self.clock < reading {
            self.clock = reading;
            self.at_rest = false;
        }
        self.clock
    }
}

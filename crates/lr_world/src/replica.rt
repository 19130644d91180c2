//! One replica: what it does with a task, up to what can't fail, and how the step ends.
use crate::outbox::{Outbox, refuse, reply};
use crate::task::Task;
use lr_base::lr_service::Service;
use lr_base::{
    Act, Actor, Call, Cid, Config, Fresh, Gossip, HELD_ROOM, LAST_NUMBER, Message, NoMemory,
    Outcome, Refusal, Rows, Spot, Stamp, StateLine, Text,
};
use lr_causal::{AckEnd, Causal, Savepoint};
use std::alloc::Global;
use std::marker::Model;

/// A replica: its causal part, whose held queries are of its run.
#[derive(Drop)]
pub struct Replica<S: Service> {
    causal: Causal<S>,
}

impl<S: Service> Model for Replica<S> {
    ghost use Rattle.lr_causal.specs.State.{config_of, replica_of, state_of};
    ghost use Rattle.lr_base.specs.Replicas.{ReplicaState};
    ghost use Rattle.lr_world.specs.Sound.{AllAsked};

    ghost Value = { ReplicaState S S.Op };

    ghost view = { λ it. replica_of it.causal };

    ghost invariant = { λ it. AllAsked S.Op.kind_of (config_of it.causal) (state_of it.causal).held };
}

impl<S: Service> Replica<S> {
    ghost use Rattle.std.specs.Prelude.{◌≡◌, ◌+◌, ◌==◌, ◌<◌, ◌∷◌, ◌++◌, ℕ, true, [], find, length, map, nat_lt};
    ghost use Rattle.std.specs.Prelude.{IfOk, OnOk, OnErr};
    ghost use Rattle.lr_base.specs.Config.{IsValid};
    ghost use Rattle.lr_base.specs.Limits.{held_room};
    ghost use Rattle.lr_base.specs.Stamps.{stamp_le};
    ghost use Rattle.lr_base.specs.Replicas.{first_replica, state_line_of};
    ghost use Rattle.lr_base.specs.Rules.{CausalState, fresh_of, gossip_of};
    ghost use Rattle.lr_base.specs.Ascending.{same_cid};
    ghost use Rattle.lr_base.specs.Steps.{ack_taken, call_taken, gossip_given, has_number, has_room};
    ghost use Rattle.lr_base.specs.Steps.{held_acts, own_taken, query_held, query_taken, update_taken};
    ghost use Rattle.lr_causal.specs.Causal.{IsGossip, IsUpdateCall};
    ghost use Rattle.lr_causal.specs.Savepoint.{CanUndo, IsPointOf, IsSame};
    ghost use Rattle.lr_world.specs.Outboxes.{after_acts};
    ghost use Rattle.lr_world.specs.Parts.{HasDone, IsTask, begun, finished, heard_in, own_of, row_of, settled};
    ghost use Rattle.lr_world.specs.Shapes.{IsShaped, is_actor};
    ghost use Rattle.lr_world.specs.Sound.{IsAsked, IsSound};

    /// A replica at which nothing has happened.
    pub fn new(alloc: Global, config: Config, me: u8) -> Result<Self, NoMemory>
        requires valid { IsValid config }
        requires own_place { me < config.replicas }
        ensures { IfOk result (λ made. made ≡ first_replica S.meaning config me) }
    {
        let causal = Causal::new(alloc, config, me)?;
        Ok(Replica { causal })
    }

    fn allocator(&self) -> Global {
        self.causal.allocator()
    }

    /// What its type keeps. It does nothing.
    pub fn keeps(&self)
        ensures { IsSound S.Op.kind_of self.now }
    {
        self.causal.log().keeps();
    }

    /// Does a task up to what can't fail, or nothing at all. Then `finish` ends the step, or `undo` takes it back.
    #[inline(always)]
    pub fn begin(
        &mut self,
        task: Task<'_, S::Op>,
        out: &mut Outbox<S::Op>,
    ) -> Result<Savepoint<S>, NoMemory>
        requires { IsTask S.Op.kind_of self.old.config task }
        // what the task does itself, and then what is ready is applied and held queries are answered
        ensures did { let end = begun S.meaning self.old task.entry in
            IfOk result (λ point. HasDone end self.new.causal out.old out.new) }
        // what stays, and can be undone
        ensures same { IsSame self.old self.new }
        ensures point { IfOk result (λ point. IsPointOf point self.new self.old.causal) }
        ensures err { OnErr result (self.new ≡ self.old) }
    {
        let mut point = self.save(&task);
        let Ok(()) = self.make(task, &mut point, out) else {
            self.causal.restore(point);
            return Err(NoMemory);
        };
        Ok(point)
    }

    /// Ends a step: answered queries are held no more, and what is known everywhere leaves. It takes no memory.
    pub fn finish(&mut self, point: Savepoint<S>)
        requires { (before : CausalState S S.Op) × IsPointOf point self.old before }
        ensures { self.new ≡ record self.old { causal = finished self.old.config.delta self.old.causal } }
    {
        self.causal.close(point);
        self.causal.drop_answered();
        self.causal.prune();
    }

    /// Takes a step back that isn't finished. It takes no memory.
    pub fn undo(&mut self, point: Savepoint<S>)
        requires { (before : CausalState S S.Op) × IsPointOf point self.old before }
        ensures same { IsSame self.old self.new }
        ensures state { (before : CausalState S S.Op) → IsPointOf point self.old before
            → self.new.causal ≡ before }
    {
        self.causal.restore(point);
    }

    // What is needed to undo a task.
    fn save(&self, task: &Task<'_, S::Op>) -> Savepoint<S>
        requires { IsTask S.Op.kind_of self.now.config task.now }
        ensures point { IsPointOf result self.now self.now.causal }
        ensures heard { result.heard ≡ heard_in self.now.me task.now }
    {
        match task {
            Task::Take {
                from: Actor::Replica(from),
                message: _message,
            } => self.causal.save(*from),
            _ => self.causal.save(self.causal.me()),
        }
    }

    // All of a task, but for what can't fail.
    #[inline(always)]
    fn make(
        &mut self,
        task: Task<'_, S::Op>,
        point: &mut Savepoint<S>,
        out: &mut Outbox<S::Op>,
    ) -> Result<(), NoMemory>
        requires { IsTask S.Op.kind_of self.old.config task }
        ensures did { OnOk result (HasDone (begun S.meaning self.old task.entry) self.new.causal out.old out.new) }
        ensures same { IsSame self.old self.new }
        ensures point { (before : CausalState S S.Op) → point.old.heard ≡ heard_in self.old.me task.entry
            → IsPointOf point.old self.old before → IsPointOf point.new self.new before }
    {
        self.act(task, out)?;
        self.settle(point, out)
    }

    // What a task does itself.
    fn act(&mut self, task: Task<'_, S::Op>, out: &mut Outbox<S::Op>) -> Result<(), NoMemory>
        requires { IsTask S.Op.kind_of self.old.config task }
        ensures did { OnOk result (HasDone (own_of S.meaning self.old task.entry) self.new.causal out.old out.new) }
        ensures undo { CanUndo (heard_in self.old.me task.entry) self.old self.new }
    {
        match task {
            Task::Take { from, message } => self.take(from, message, out),
            Task::Read { reading } => {
                let reading = self.causal.tick(reading);
                out.say(Outcome::ClockAt { reading })
            }
            Task::Tell { to } => self.tell(to, out),
        }
    }

    // What a message does itself: replies have no rule here, nor has what comes from where it can't.
    fn take(
        &mut self,
        from: Actor,
        message: &Message<S::Op>,
        out: &mut Outbox<S::Op>,
    ) -> Result<(), NoMemory>
        requires from { is_actor self.old.config from ≡ true }
        requires shaped { IsShaped S.Op.kind_of self.old.config message.now }
        ensures did { let it = self.old in let end = own_taken S.meaning it.config it.me it.causal from message.now in
            OnOk result (HasDone end self.new.causal out.old out.new) }
        ensures undo { CanUndo (row_of self.old.me from) self.old self.new }
    {
        match from {
            Actor::Client(_client) => match message {
                Message::Update { call, time } => self.on_update(call, *time, out),
                Message::Query { call } => self.on_query(call, out),
                Message::Ack { cid, time } => self.on_ack(*cid, *time, out),
                _ => Ok(()),
            },
            Actor::Replica(from) => match message {
                Message::Gossip { gossip } => self.on_gossip(from, gossip, out),
                _ => Ok(()),
            },
        }
    }

    // An acknowledgement is noted or refused.
    fn on_ack(&mut self, cid: Cid, time: u64, out: &mut Outbox<S::Op>) -> Result<(), NoMemory>
        ensures did { let it = self.old in let logged = find (λ ack. same_cid ack.cid cid) it.causal.acks in
            let end = ack_taken it.me it.causal cid time logged (has_room it.causal) (has_number it.me it.causal) in
            OnOk result (HasDone end self.new.causal out.old out.new) }
        ensures undo { (row : ℕ) → CanUndo row self.old self.new }
    {
        match self.causal.ack(cid, time)? {
            AckEnd::Noted(spot) => out.say(Outcome::Note { spot, cid }),
            AckEnd::Again(spot) => refuse(Refusal::Noted { spot }, out),
            AckEnd::FullLog => refuse(Refusal::FullLog, out),
            AckEnd::Worn => refuse(Refusal::Worn, out),
        }
    }

    // Gossip of another replica is taken.
    fn on_gossip(
        &mut self,
        from: u8,
        gossip: &Gossip<S::Op>,
        out: &mut Outbox<S::Op>,
    ) -> Result<(), NoMemory>
        requires from { from < self.old.config.replicas }
        requires gossip { IsGossip S.Op.kind_of (self.old.config.replicas + 1) gossip.now }
        ensures did { let it = self.old in let end = gossip_given it.me from it.causal gossip.now (from == it.me) in
            OnOk result (HasDone end self.new.causal out.old out.new) }
        ensures undo { CanUndo from self.old self.new }
    {
        if from == self.causal.me() {
            return Ok(());
        }
        let count = self.causal.take_gossip(from, gossip)?;
        out.say(Outcome::Take { count })
    }

    // The first checks of an update.
    fn on_update(
        &mut self,
        call: &Call<S::Op>,
        time: u64,
        out: &mut Outbox<S::Op>,
    ) -> Result<(), NoMemory>
        requires { IsUpdateCall S.Op.kind_of (self.old.config.replicas + 1) call.now }
        ensures did { let it = self.old in let fresh = fresh_of it.config.delta it.causal call.now.cid time in
            OnOk result (HasDone (update_taken it.me it.causal call.now fresh) self.new.causal out.old out.new) }
        ensures undo { (row : ℕ) → CanUndo row self.old self.new }
    {
        match self.causal.fresh(call.cid, time) {
            Fresh::Late { time, clock } => refuse(Refusal::Late { time, clock }, out),
            Fresh::Again { spot, stamp } => {
                let why = Refusal::Again { spot };
                reply(Outcome::Refuse { why }, call.cid, spot, stamp, out)
            }
            Fresh::Settled => refuse(Refusal::Settled, out),
            Fresh::New => self.accept(call, out),
        }
    }

    // An update that is new here.
    fn accept(&mut self, call: &Call<S::Op>, out: &mut Outbox<S::Op>) -> Result<(), NoMemory>
        requires { IsUpdateCall S.Op.kind_of (self.old.config.replicas + 1) call.now }
        ensures did { let it = self.old in let number = has_number it.me it.causal in
            let end = call_taken it.me it.causal call.now (has_room it.causal) number in
            OnOk result (HasDone end self.new.causal out.old out.new) }
        ensures undo { (row : ℕ) → CanUndo row self.old self.new }
    {
        if !self.causal.log().has_room() {
            return refuse(Refusal::FullLog, out);
        }
        if self.causal.rep_ts().part(self.causal.me()) >= LAST_NUMBER {
            return refuse(Refusal::Worn, out);
        }
        let (spot, stamp) = self.causal.accept(call)?;
        let cid = call.cid;
        reply(Outcome::Accept { spot, cid }, cid, spot, stamp, out)
    }

    // A query is answered, or held until all that its label names is applied.
    fn on_query(&mut self, call: &Call<S::Op>, out: &mut Outbox<S::Op>) -> Result<(), NoMemory>
        requires { IsAsked S.Op.kind_of self.old.config call.now }
        ensures did { let it = self.old.causal in
            let end = query_taken S.meaning it call.now (stamp_le call.now.prev it.val_ts) in
            OnOk result (HasDone end self.new.causal out.old out.new) }
        ensures undo { (row : ℕ) → CanUndo row self.old self.new }
    {
        match self.causal.read(&call.prev, &call.op)? {
            Some(text) => self.send_answer(call.cid, text, out),
            None => self.hold(call, out),
        }
    }

    fn hold(&mut self, call: &Call<S::Op>, out: &mut Outbox<S::Op>) -> Result<(), NoMemory>
        requires { IsAsked S.Op.kind_of self.old.config call.now }
        ensures did { let it = self.old.causal in
            let end = query_held it call.now (nat_lt (length it.held) held_room) in
            OnOk result (HasDone end self.new.causal out.old out.new) }
        ensures undo { (row : ℕ) → CanUndo row self.old self.new }
    {
        if self.causal.held().len() >= HELD_ROOM {
            return refuse(Refusal::FullHeld, out);
        }
        self.causal.hold(call)?;
        out.say(Outcome::Hold { cid: call.cid })
    }

    // Gossip is sent.
    fn tell(&self, to: u8, out: &mut Outbox<S::Op>) -> Result<(), NoMemory>
        requires { to < self.now.config.replicas }
        ensures { let gossip = Message.Gossip (gossip_of to self.now.causal) in
            OnOk result (out.new ≡ after_acts out.old (Act.Send (Actor.Replica to) gossip ∷ [])) }
    {
        let gossip = self.causal.make_gossip(to)?;
        out.send(Actor::Replica(to), Message::Gossip { gossip })
    }

    // What is ready is applied, and then held queries are answered, behind what the step did.
    #[inline(always)]
    fn settle(&mut self, point: &mut Savepoint<S>, out: &mut Outbox<S::Op>) -> Result<(), NoMemory>
        ensures did { OnOk result (HasDone (settled S.meaning self.old.causal) self.new.causal out.old out.new) }
        ensures same { IsSame self.old self.new }
        ensures point { (before : CausalState S S.Op) → IsPointOf point.old self.old before
            → IsPointOf point.new self.new before }
    {
        self.causal.apply(point)?;
        self.answer_held(out)
    }

    // Each held query whose label is now applied is answered. Where none is, it looks at none.
    fn answer_held(&self, out: &mut Outbox<S::Op>) -> Result<(), NoMemory>
        ensures { let it = self.now.causal in
            OnOk result (out.new ≡ after_acts out.old (held_acts S.meaning it it.held)) }
    {
        if self.causal.all_wait() {
            return Ok(());
        }
        for call in self.causal.held() {
            self.answer(call, out)?;
        }
        Ok(())
    }

    // A query is answered if its label is applied.
    fn answer(&self, call: &Call<S::Op>, out: &mut Outbox<S::Op>) -> Result<(), NoMemory>
        requires { IsAsked S.Op.kind_of self.now.config call.now }
        ensures { OnOk result (out.new ≡ after_acts out.old (held_acts S.meaning self.now.causal (call.now ∷ []))) }
    {
        match self.causal.read(&call.prev, &call.op)? {
            Some(text) => self.send_answer(call.cid, text, out),
            None => Ok(()),
        }
    }

    // Sends what a query is answered.
    fn send_answer(&self, cid: Cid, text: Text, out: &mut Outbox<S::Op>) -> Result<(), NoMemory>
        ensures { let answer = Message.Answer cid text self.now.causal.val_ts in
            OnOk result (out.new ≡ after_acts out.old (Act.Send (Actor.Client cid.client) answer ∷ [])) }
    {
        let stamp = self.causal.val_ts().copy();
        let to = Actor::Client(cid.client);
        out.send(to, Message::Answer { cid, text, stamp })
    }

    /// What is printed of its state.
    pub fn state_line(&self) -> Result<Outcome, NoMemory>
        ensures { IfOk result (λ outcome. outcome ≡ Outcome.State (state_line_of self.now)) }
    {
        let line = StateLine {
            replica: self.causal.me(),
            view: 0,
            clock: self.causal.clock(),
            received: self.causal.rep_ts().copy(),
            log: self.causal.log().update_spots()?,
            acks: self.causal.log().ack_spots()?,
            calls: self.executed_calls()?,
            held: self.held_calls()?,
            marks: Rows::new(self.allocator()),
        };
        Ok(Outcome::State { line })
    }

    // The executed calls in their order.
    fn executed_calls(&self) -> Result<Rows<Cid>, NoMemory>
        ensures { IfOk result (λ cids. cids ≡ map (λ e. e.0) self.now.causal.calls) }
    {
        let cids = self.causal.calls().cids(self.allocator())?;
        Rows::from_slice(self.allocator(), cids.as_slice())
    }

    // The held queries, in the order of arrival.
    fn held_calls(&self) -> Result<Rows<Cid>, NoMemory>
        ensures { IfOk result (λ cids. cids ≡ map (λ c. c.cid) self.now.causal.held) }
    {
        let mut cids = Rows::new(self.allocator());
        for call in self.causal.held() {
            cids.push(call.cid)?;
        }
        Ok(cids)
    }
}

#[cfg(test)]
mod tests;

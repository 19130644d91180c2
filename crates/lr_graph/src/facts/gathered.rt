//! The facts of a history so far: what they say, and how they change.
ghost use Rattle.std.specs.Prelude.{◌≡◌, ◌∷◌, IfOk, OnOk};
ghost use Rattle.std.specs.Option.{option_map, option_or};
ghost use Rattle.lr_base.specs.declared.names.Actor.TheVariants.{Replica};
ghost use Rattle.lr_graph.specs.After.{accepts, carried, copy_of};
ghost use Rattle.lr_graph.specs.After.{ready_at, received_at, take_read, takes_reply};
ghost use Rattle.lr_graph.specs.Graph.{first_facts, ready, GossipOf, QueryCopy, UpdateCopy};
ghost use Rattle.lr_graph.specs.Sets.{only, put_at, ◌∪◌};
ghost use Rattle.lr_graph.specs.Told.{call_of, front_of, fronts_in, load_of, received_in, set_of, gathered_facts};

use crate::facts::causes::{below_of, ready_spots};
use crate::facts::fronts::{after_reply, first_front};
use crate::facts::items::{AcceptedUpdate, CallCopy, FrontNow, Gathered, Load, SentCopy};
use crate::facts::newest::Newest;
use crate::facts::spots::{SpotList, add_all};
use crate::facts::table::Table;
use lr_base::lr_service::Operation;
use lr_base::{Actor, Cid, NoMemory, Sent, Spot};
use std::alloc::Global;

impl<O: Drop> Gathered<O> {
    /// The facts before any event.
    pub fn new(alloc: Global) -> Self
        ensures { gathered_facts result ≡ first_facts }
    {
        Gathered {
            accepted: Newest::new(alloc),
            messages: Newest::new(alloc),
            received: Table::new(alloc),
            fronts: Table::new(alloc),
        }
    }

    /// What a replica received.
    pub fn received_at(&self, alloc: Global, replica: u8) -> Result<SpotList, NoMemory>
        ensures { IfOk result (λ spots. set_of spots ≡ received_in self.now.received replica) }
    {
        match self.received.get(u32::from(replica)) {
            Some(spots) => spots.copy(),
            None => Ok(SpotList::new(alloc)),
        }
    }

    /// What is ready at a replica.
    pub fn ready_at(&self, alloc: Global, replica: u8) -> Result<SpotList, NoMemory>
        ensures { IfOk result (λ spots. set_of spots
            ≡ ready (gathered_facts self.now).accepted ((gathered_facts self.now).received replica)) }
    {
        let received = self.received_at(alloc, replica)?;
        ready_spots(alloc, self.accepted.as_slice(), &received)
    }
}

impl<O: Operation> Gathered<O> {
    // A front end.
    pub fn front_at(&self, alloc: Global, client: u32) -> Result<FrontNow<O>, NoMemory>
        ensures { IfOk result (λ front. front_of front ≡ fronts_in self.now.fronts client) }
    {
        match self.fronts.get(client) {
            Some(front) => front.copy(),
            None => Ok(first_front(alloc)),
        }
    }

    // The open call of a client, if it has one.
    fn open_call(&self, alloc: Global, client: u32) -> Result<Option<CallCopy<O>>, NoMemory>
        ensures { IfOk result (λ call. option_map call_of call ≡ (fronts_in self.now.fronts client).open_call) }
    {
        let front = self.front_at(alloc, client)?;
        let FrontNow {
            label: _label,
            calls: _calls,
            clock: _clock,
            open_call,
            answered: _answered,
        } = front;
        Ok(open_call)
    }

    // What a message carries that is sent now.
    fn carried(&self, alloc: Global, from: Actor, what: &Sent) -> Result<Load<O>, NoMemory>
        ensures { IfOk result (λ load. load_of load ≡ carried (gathered_facts self.now) from what.now) }
    {
        match what {
            Sent::Update { cid, time } => {
                let call = self.open_call(alloc, cid.client)?;
                Ok(update_of(call, *time))
            }
            Sent::Query { cid } => {
                let call = self.open_call(alloc, cid.client)?;
                Ok(query_of(call))
            }
            Sent::Ack { cid, time } => Ok(Load::Ack {
                cid: *cid,
                time: *time,
            }),
            Sent::Done { cid, spot } => {
                let names = below_of(alloc, self.accepted.as_slice(), *spot)?;
                Ok(Load::Done { cid: *cid, names })
            }
            Sent::Answer { cid, text: _text } => {
                let names = self.ready_by(alloc, from)?;
                Ok(Load::Answer { cid: *cid, names })
            }
            Sent::Gossip => {
                let names = self.received_by(alloc, from)?;
                Ok(Load::Gossip { names })
            }
        }
    }

    // What was received at an actor: nothing at a front end.
    fn received_by(&self, alloc: Global, actor: Actor) -> Result<SpotList, NoMemory>
        ensures { IfOk result (λ spots. set_of spots ≡ received_at (gathered_facts self.now) actor) }
    {
        match actor {
            Actor::Replica(replica) => self.received_at(alloc, replica),
            Actor::Client(_client) => Ok(SpotList::new(alloc)),
        }
    }

    // What is ready at an actor: nothing at a front end.
    fn ready_by(&self, alloc: Global, actor: Actor) -> Result<SpotList, NoMemory>
        ensures { IfOk result (λ spots. set_of spots ≡ ready_at (gathered_facts self.now) actor) }
    {
        match actor {
            Actor::Replica(replica) => self.ready_at(alloc, replica),
            Actor::Client(_client) => Ok(SpotList::new(alloc)),
        }
    }

    // From now on a replica has received these spots.
    fn set_received(&mut self, replica: u8, spots: SpotList) -> Result<(), NoMemory>
        ensures { OnOk result (gathered_facts self.new
            ≡ record (gathered_facts self.old) {
              received = put_at replica (set_of spots) (gathered_facts self.old).received;
            }) }
    {
        self.received.put(u32::from(replica), spots)
    }

    // From now on this is a client's front end.
    pub fn set_front(&mut self, client: u32, front: FrontNow<O>) -> Result<(), NoMemory>
        ensures { OnOk result (gathered_facts self.new
            ≡ record (gathered_facts self.old) {
              front = put_at client (front_of front) (gathered_facts self.old).front;
            }) }
    {
        self.fronts.put(client, front)
    }

    // A message is sent.
    pub fn send(
        &mut self,
        alloc: Global,
        number: u64,
        from: Actor,
        to: Actor,
        what: &Sent,
    ) -> Result<(), NoMemory>
        ensures { OnOk result (gathered_facts self.new ≡ record (gathered_facts self.old) {
          messages = record {
            number = number;
            from = from;
            to = to;
            what = carried (gathered_facts self.old) from what.now;
          } ∷ (gathered_facts self.old).messages;
        }) }
    {
        let load = self.carried(alloc, from, what)?;
        self.messages.put(SentCopy {
            number,
            from,
            to,
            load,
        })
    }

    // A replica accepts a call.
    pub fn accept(
        &mut self,
        alloc: Global,
        replica: u8,
        spot: Spot,
        call: &CallCopy<O>,
    ) -> Result<(), NoMemory>
        ensures { OnOk result (gathered_facts self.new
            ≡ accepts (gathered_facts self.old) replica spot (call_of call.now)) }
    {
        self.receive(alloc, replica, spot)?;
        let mut below = call.label.copy()?;
        below.add(spot)?;
        let op = call.op.copy()?;
        self.accepted.put(AcceptedUpdate {
            spot,
            cid: call.cid,
            op,
            below,
        })
    }

    // A replica receives one item more.
    pub fn receive(&mut self, alloc: Global, replica: u8, spot: Spot) -> Result<(), NoMemory>
        ensures { let w = gathered_facts self.old in
            OnOk result (gathered_facts self.new
            ≡ record w { received = put_at replica (w.received replica ∪ only spot) w.received }) }
    {
        let mut received = self.received_at(alloc, replica)?;
        received.add(spot)?;
        self.set_received(replica, received)
    }

    // A replica receives what gossip carries.
    pub fn take(&mut self, alloc: Global, replica: u8, names: &SpotList) -> Result<(), NoMemory>
        ensures { let w = gathered_facts self.old in
            OnOk result (gathered_facts self.new
            ≡ record w { received = put_at replica (w.received replica ∪ set_of names.now) w.received }) }
    {
        let mut received = self.received_at(alloc, replica)?;
        add_all(&mut received, names)?;
        self.set_received(replica, received)
    }

    // A front end takes the reply to its open call, which is this one if it is an update.
    pub fn take_reply(
        &mut self,
        alloc: Global,
        client: u32,
        names: &SpotList,
        update: Option<Cid>,
    ) -> Result<(), NoMemory>
        ensures { OnOk result (gathered_facts self.new ≡ takes_reply (gathered_facts self.old) client (set_of names.now)
            (option_or update ((gathered_facts self.old).front client).answered)) }
    {
        let front = self.front_at(alloc, client)?;
        let front = after_reply(front, names, update)?;
        self.set_front(client, front)
    }
}

// What is sent of an update that is open.
fn update_of<O: Drop>(call: Option<CallCopy<O>>, time: u64) -> Load<O>
    ensures { load_of result ≡ copy_of (option_map call_of call) (λ call. UpdateCopy call time) }
{
    match call {
        Some(call) => Load::Update { call, time },
        None => Load::Nothing,
    }
}

// What is sent of a query that is open.
fn query_of<O: Drop>(call: Option<CallCopy<O>>) -> Load<O>
    ensures { load_of result ≡ copy_of (option_map call_of call) QueryCopy }
{
    match call {
        Some(call) => Load::Query { call },
        None => Load::Nothing,
    }
}

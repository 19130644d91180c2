//! A run: all actors, and every message that was sent; one event is made by one of them at the most.
ghost use Rattle.std.specs.Prelude.{◌≡◌, ◌<◌, Some, length, set, slice_get, vec_len, IfOk};
ghost use Rattle.lr_base.specs.Config.{IsValid};
ghost use Rattle.lr_base.specs.Replicas.{AllReplicas};
ghost use Rattle.lr_graph.specs.Runs.{first_fronts, first_replicas};
ghost use Rattle.lr_world.specs.Pending.{IsTaskOf, IsWithin};
ghost use Rattle.lr_world.specs.Posts.{AllFronts, AllPosted};

use crate::front_steps::make;
use crate::front_task::FrontTask;
use crate::outbox::Outbox;
use crate::pending::{Acting, Order, Pending};
use crate::replica::Replica;
use crate::task::Task;
use lr_base::lr_service::{Operation, Service};
use lr_base::{Actor, Config, Event, NoMemory, Outcome, Posted};
use lr_front::Front;
use std::alloc::Global;

/// Each replica at its place, a front end for each client, what they sent, and what is printed of the last step.
#[derive(Drop)]
pub struct Run<S: Service> {
    config: Config,
    replicas: Vec<Replica<S>>,
    fronts: Vec<Front<S::Op>>,
    // Each of them may be delivered at any time.
    posted: Vec<Posted<S::Op>>,
    outbox: Outbox<S::Op>,
    ghost valid: { IsValid config },
    ghost each_replica: { vec_len replicas ≡ config.replicas },
    ghost all_replicas: { AllReplicas config replicas.items },
    ghost each_client: { vec_len fronts ≡ config.clients },
    ghost all_fronts: { AllFronts config fronts.items },
    ghost all_posted: { AllPosted S.Op.kind_of config posted.items },
}

impl<S: Service> Run<S> {
    ghost use Rattle.std.specs.Prelude.{◌≡◌, ◌<◌, ◌∷◌, List, [], length, slice_get, IfOk, OnOk, OnErr};
    ghost use Rattle.std.specs.Option.{ForSome};
    ghost use Rattle.lr_base.specs.Config.{IsValid};
    ghost use Rattle.lr_base.specs.Events.{FitsRun};
    ghost use Rattle.lr_graph.specs.Runs.{RunState, first_run, front_does, given, stepped, unchanged};
    ghost use Rattle.lr_world.specs.Parts.{IsFrontTask, NamesReplica, event_of};
    ghost use Rattle.lr_world.specs.Pending.{CanTakeBack, HasBegun, HasChanged, HasSent, IsActing, IsOrderOf, IsWithin};
    ghost use Rattle.lr_world.specs.Pending.{completed, ordered};
    ghost use Rattle.lr_world.specs.Posts.{AllPosted};
    ghost use Rattle.lr_world.specs.Worlds.{HasStepped, lines_of, run_of, setup_of};

    /// A run in which nothing has happened.
    pub fn new(alloc: Global, config: Config) -> Result<Self, NoMemory>
        requires { IsValid config }
        ensures setup { IfOk result (λ made. setup_of made ≡ config) }
        ensures run { IfOk result (λ made. run_of made ≡ first_run S.meaning config) }
    {
        let replicas = make_replicas(alloc, config)?;
        let fronts = make_fronts(alloc, config)?;
        Ok(Run {
            config,
            replicas,
            fronts,
            posted: Vec::new(alloc),
            outbox: Outbox::new(alloc),
        })
    }

    /// What the run is set up with.
    pub fn config(&self) -> Config
        ensures { result ≡ setup_of self.now }
    {
        self.config
    }

    /// How many messages were sent. They are numbered from 1.
    pub fn sent(&self) -> u64
        ensures { result ≡ length (run_of self.now).posted }
    {
        self.posted.len() as u64
    }

    /// What is printed of the event that was made last; after one for which there was no memory it says nothing.
    pub fn lines(&self) -> &[Outcome]
        ensures { result.now ≡ lines_of self.now }
    {
        self.outbox.lines()
    }

    /// Makes one event; `lines` has what is printed of it until the next one. Where there is no memory, nothing has
    /// happened.
    pub fn step(&mut self, event: &Event<S::Op>) -> Result<(), NoMemory>
        requires { FitsRun S.meaning (setup_of self.old) event.now }
        ensures setup { setup_of self.new ≡ setup_of self.old }
        ensures made { let made = stepped S.meaning (run_of self.old) event.now in
            OnOk result (HasStepped made (run_of self.new) (lines_of self.new)) }
        ensures err { OnErr result (run_of self.new ≡ run_of self.old) }
    {
        let pending = self.begin(event)?;
        self.finish(pending);
        Ok(())
    }

    // The parts of a step are inlined: what it begins with is large, and each call would move it.

    /// Makes one event up to what can't fail, or nothing at all. Then `finish` ends the step, or `undo` takes it back.
    #[inline(always)]
    pub(crate) fn begin(&mut self, event: &Event<S::Op>) -> Result<Pending<S>, NoMemory>
        requires { FitsRun S.meaning (setup_of self.old) event.now }
        ensures setup { setup_of self.new ≡ setup_of self.old }
        ensures made { let made = stepped S.meaning (run_of self.old) event.now in
            IfOk result (HasBegun (setup_of self.old) made (run_of self.old) (run_of self.new) (lines_of self.new)) }
        ensures err { OnErr result (run_of self.new ≡ run_of self.old) }
    {
        let (client, task) = match event {
            Event::Call {
                client,
                replica,
                reading,
                op,
            } => {
                let (replica, reading) = (*replica, *reading);
                let task = FrontTask::Call {
                    replica,
                    reading,
                    op,
                };
                (*client, task)
            }
            Event::Resend {
                client,
                replica,
                reading,
            } => {
                let (replica, reading) = (*replica, *reading);
                (*client, FrontTask::Resend { replica, reading })
            }
            Event::Ack {
                client,
                replica,
                reading,
            } => {
                let (replica, reading) = (*replica, *reading);
                (*client, FrontTask::Acknowledge { replica, reading })
            }
            Event::Tick { replica, reading } => {
                return self.order(*replica, Order::Read { reading: *reading });
            }
            Event::Deliver { message } => return self.deliver(*message),
            Event::Gossip { from, to } => return self.order(*from, Order::Tell { to: *to }),
            Event::Show { replica } => return self.show(*replica),
        };
        self.command(client, task)
    }

    /// Ends a step. It takes no memory.
    #[inline(always)]
    pub(crate) fn finish(&mut self, pending: Pending<S>)
        requires acting { IsActing (setup_of self.old) pending.who }
        requires begun { (before : RunState S S.Op) × CanTakeBack pending before (run_of self.old) }
        ensures setup { setup_of self.new ≡ setup_of self.old }
        ensures run { run_of self.new ≡ completed pending.who (run_of self.old) }
        ensures lines { lines_of self.new ≡ lines_of self.old }
    {
        match pending.who {
            Acting::Nobody => (),
            Acting::AtFront { .. } => (),
            Acting::AtReplica { me, point } => self.replicas[me as usize].finish(point),
        }
    }

    /// Takes a step back that isn't finished. It takes no memory.
    pub(crate) fn undo(&mut self, pending: Pending<S>)
        requires acting { IsActing (setup_of self.old) pending.who }
        requires begun { (before : RunState S S.Op) × CanTakeBack pending before (run_of self.old) }
        ensures setup { setup_of self.new ≡ setup_of self.old }
        ensures run { (before : RunState S S.Op) → CanTakeBack pending before (run_of self.old)
            → run_of self.new ≡ before }
    {
        self.posted.truncate(pending.sent);
        match pending.who {
            Acting::Nobody => (),
            Acting::AtFront { client, point } => self.fronts[client as usize].restore(point),
            Acting::AtReplica { me, point } => self.replicas[me as usize].undo(point),
        }
    }

    // Nobody acts: a line is all that comes of an event.
    fn say(&mut self, line: Outcome) -> Result<Pending<S>, NoMemory>
        ensures setup { setup_of self.new ≡ setup_of self.old }
        ensures made { let made = unchanged (run_of self.old) (line ∷ []) in
            IfOk result (HasBegun (setup_of self.old) made (run_of self.old) (run_of self.new) (lines_of self.new)) }
        ensures err { OnErr result (run_of self.new ≡ run_of self.old) }
    {
        let sent = self.posted.len();
        self.outbox.open(Actor::Client(0), sent);
        self.outbox.say(line)?;
        Ok(Pending {
            sent,
            who: Acting::Nobody,
        })
    }

    // A replica's state is printed.
    fn show(&mut self, replica: u8) -> Result<Pending<S>, NoMemory>
        requires { replica < (setup_of self.old).replicas }
        ensures setup { setup_of self.new ≡ setup_of self.old }
        ensures made { let made = stepped S.meaning (run_of self.old) (Event.Show replica) in
            IfOk result (HasBegun (setup_of self.old) made (run_of self.old) (run_of self.new) (lines_of self.new)) }
        ensures err { OnErr result (run_of self.new ≡ run_of self.old) }
    {
        let line = self.replicas[replica as usize].state_line()?;
        self.say(line)
    }

    // A client's front end is told what to do.
    #[inline(always)]
    fn command(&mut self, client: u32, task: FrontTask<'_, S::Op>) -> Result<Pending<S>, NoMemory>
        requires client { client < (setup_of self.old).clients }
        requires task { IsFrontTask (setup_of self.old).replicas task × NamesReplica (setup_of self.old) task }
        ensures setup { setup_of self.new ≡ setup_of self.old }
        ensures made { let run = run_of self.old in let front = slice_get run.fronts client in
            let made = front_does S.meaning run client (event_of task.entry) front in
            IfOk result (HasBegun (setup_of self.old) made run (run_of self.new) (lines_of self.new)) }
        ensures err { OnErr result (run_of self.new ≡ run_of self.old) }
    {
        self.outbox.open(Actor::Client(client), self.posted.len());
        let front = &mut self.fronts[client as usize];
        let point = make::<S>(front, task, &mut self.outbox)?;
        self.send(Acting::AtFront { client, point })
    }

    // A message is given to its receiver.
    #[inline(always)]
    fn deliver(&mut self, number: u64) -> Result<Pending<S>, NoMemory>
        ensures setup { setup_of self.new ≡ setup_of self.old }
        ensures made { let made = stepped S.meaning (run_of self.old) (Event.Deliver number) in
            IfOk result (HasBegun (setup_of self.old) made (run_of self.old) (run_of self.new) (lines_of self.new)) }
        ensures err { OnErr result (run_of self.new ≡ run_of self.old) }
    {
        if number == 0 {
            return self.say(Outcome::NoMessage { message: number });
        }
        if number > self.sent() {
            return self.say(Outcome::NoMessage { message: number });
        }
        let at = (number - 1) as usize;
        match message_at(self.posted.as_slice(), at).to {
            Actor::Client(client) => self.give(client, at),
            Actor::Replica(me) => self.order(me, Order::Take { at }),
        }
    }

    // A message is given to a front end.
    #[inline(always)]
    fn give(&mut self, client: u32, at: usize) -> Result<Pending<S>, NoMemory>
        requires client { client < (setup_of self.old).clients }
        requires at { at < length (run_of self.old).posted }
        ensures setup { setup_of self.new ≡ setup_of self.old }
        ensures made { let run = run_of self.old in ForSome (slice_get run.posted at) (λ p.
            let made = given S.meaning run (Actor.Client client) p.from p.message in
            IfOk result (HasBegun (setup_of self.old) made run (run_of self.new) (lines_of self.new))) }
        ensures err { OnErr result (run_of self.new ≡ run_of self.old) }
    {
        self.outbox.open(Actor::Client(client), self.posted.len());
        let message = &message_at(self.posted.as_slice(), at).message;
        let front = &mut self.fronts[client as usize];
        let point = make::<S>(front, FrontTask::Take { message }, &mut self.outbox)?;
        self.send(Acting::AtFront { client, point })
    }

    // A replica does what it is ordered to.
    #[inline(always)]
    fn order(&mut self, me: u8, order: Order) -> Result<Pending<S>, NoMemory>
        requires me { me < (setup_of self.old).replicas }
        requires within { IsWithin (run_of self.old).posted order }
        requires order { IsOrderOf (setup_of self.old) order }
        ensures setup { setup_of self.new ≡ setup_of self.old }
        ensures made { let made = ordered S.meaning (run_of self.old) me order in
            IfOk result (HasBegun (setup_of self.old) made (run_of self.old) (run_of self.new) (lines_of self.new)) }
        ensures err { OnErr result (run_of self.new ≡ run_of self.old) }
    {
        self.outbox.open(Actor::Replica(me), self.posted.len());
        let task = task_of(self.posted.as_slice(), order);
        let replica = &mut self.replicas[me as usize];
        replica.keeps();
        let point = replica.begin(task, &mut self.outbox)?;
        replica.keeps();
        self.send(Acting::AtReplica { me, point })
    }

    // What an actor sends is sent. Where there is no memory for it, the step is taken back.
    #[inline(always)]
    fn send(&mut self, who: Acting<S>) -> Result<Pending<S>, NoMemory>
        requires acting { IsActing (setup_of self.old) who }
        requires posts { AllPosted S.Op.kind_of (setup_of self.old) self.old.outbox.posts }
        requires begun { (before : RunState S S.Op) × HasChanged who before (run_of self.old) }
        ensures setup { setup_of self.new ≡ setup_of self.old }
        ensures ok { IfOk result (HasSent who self.old.outbox (run_of self.old) (run_of self.new) (lines_of self.new)) }
        ensures err { (before : RunState S S.Op) → HasChanged who before (run_of self.old)
            → OnErr result (run_of self.new ≡ record before { posted = (run_of self.old).posted }) }
    {
        let pending = Pending {
            sent: self.posted.len(),
            who,
        };
        let Ok(()) = self.outbox.post(&mut self.posted) else {
            self.undo(pending);
            return Err(NoMemory);
        };
        Ok(pending)
    }
}

// The message at an index: its number is one more.
fn message_at<O: Drop>(posted: &[Posted<O>], at: usize) -> &Posted<O>
    requires { at < length posted.now }
    ensures { slice_get posted.now at ≡ Some result.now }
{
    &posted[at]
}

// The task of an order.
fn task_of<O: Drop>(posted: &[Posted<O>], order: Order) -> Task<'_, O>
    requires { IsWithin posted.now order }
    ensures { IsTaskOf posted.now order result }
{
    match order {
        Order::Take { at } => {
            let sent = message_at(posted, at);
            Task::Take {
                from: sent.from,
                message: &sent.message,
            }
        }
        Order::Read { reading } => Task::Read { reading },
        Order::Tell { to } => Task::Tell { to },
    }
}

// A front end for each client.
fn make_fronts<O: Operation>(alloc: Global, config: Config) -> Result<Vec<Front<O>>, NoMemory>
    requires { IsValid config }
    ensures each { IfOk result (λ fronts. vec_len fronts ≡ config.clients) }
    ensures all { IfOk result (λ fronts. AllFronts config fronts.items) }
    ensures first { IfOk result (λ fronts. fronts.items ≡ first_fronts config config.clients) }
{
    let mut fronts = Vec::new(alloc);
    for client in 0..config.clients {
        fronts.push(Front::new(config, client))?;
    }
    Ok(fronts)
}

// Each replica, at its place.
fn make_replicas<S: Service>(alloc: Global, config: Config) -> Result<Vec<Replica<S>>, NoMemory>
    requires { IsValid config }
    ensures each { IfOk result (λ replicas. vec_len replicas ≡ config.replicas) }
    ensures all { IfOk result (λ replicas. AllReplicas config replicas.items) }
    ensures first { IfOk result (λ replicas. replicas.items ≡ first_replicas S.meaning config config.replicas) }
{
    let mut replicas = Vec::new(alloc);
    for me in 0..config.replicas {
        replicas.push(Replica::new(alloc, config, me)?)?;
    }
    Ok(replicas)
}

//! A world: a run with its steps so far, which are a legal history.
ghost use Rattle.std.specs.Prelude.{◌≡◌, ◌∷◌, [], ◌++◌, IfOk, OnOk, OnErr};
ghost use Rattle.lr_base.specs.Events.{CallsOp};
ghost use Rattle.lr_base.specs.Kinds.{has_rules as ruled};
ghost use Rattle.lr_graph.specs.Made.{IsMade};
ghost use Rattle.lr_world.specs.Worlds.{run_of, setup_of};

use crate::copies::{copy_event, copy_outcomes};
use crate::run::Run;
use lr_base::lr_service::{Kind, Operation, Service};
use lr_base::{Config, Event, NoMemory, Outcome, Rows, Step};
use lr_graph::{a_made_history_goes_on, stamps_stand_for_sets, what_is_made_is_legal};
use std::alloc::Global;
use std::marker::Model;

/// The replicas, a front end for each client, every message that was sent, and the steps so far.
#[derive(Drop)]
pub struct World<S: Service> {
    run: Run<S>,
    steps: Rows<Step<S::Op>>,
    ghost made: { ∥ IsMade S.meaning (setup_of run) steps (run_of run) ∥₁ },
}

impl<S: Service> Model for World<S> {
    ghost use Rattle.lr_world.specs.Worlds.{History, setup_of};

    ghost Value = { History S.Op };

    ghost view = { λ it. record { config = setup_of it.run; steps = it.steps } };
}

impl<S: Service> World<S> {
    ghost use Rattle.std.specs.Prelude.{◌≡◌, ◌↔◌, [], ◌∷◌, ◌++◌, length, IsTrue, IfOk, OnErr};
    ghost use Rattle.lr_base.specs.Config.{IsValid};
    ghost use Rattle.lr_base.specs.Events.{FitsRun};
    ghost use Rattle.lr_graph.specs.Central.{facts_after};
    ghost use Rattle.lr_graph.specs.Graph.{first_facts};
    ghost use Rattle.lr_graph.specs.Legal.{IsLegal};

    /// A world in which nothing has happened.
    pub fn new(alloc: Global, config: Config) -> Result<Self, NoMemory>
        requires { IsValid config }
        ensures { IfOk result (λ made. made ≡ record { config = config; steps = [] }) }
    {
        a_made_history_goes_on::<S>();
        let run = Run::new(alloc, config)?;
        Ok(World {
            run,
            steps: Rows::new(alloc),
        })
    }

    /// What the run is set up with.
    pub fn config(&self) -> Config
        ensures { result ≡ self.now.config }
    {
        self.run.config()
    }

    /// The steps so far: a legal history.
    pub fn history(&self) -> &Rows<Step<S::Op>>
        ensures steps { result.now ≡ self.now.steps }
        ensures legal { IsLegal S.meaning self.now.config self.now.steps }
    {
        what_is_made_is_legal::<S>();
        &self.steps
    }

    /// How many messages were sent. They are numbered from 1.
    pub fn sent(&self) -> u64
        ensures { result ≡ length (facts_after S.meaning self.now.config first_facts self.now.steps).messages }
    {
        stamps_stand_for_sets::<S>();
        self.run.sent()
    }

    /// Whether an event names a client and replicas that there are, gossip goes to another replica, and runs have rules
    /// for the kind of operation that is called.
    pub fn fits(&self, event: &Event<S::Op>) -> bool
        ensures { IsTrue result ↔ FitsRun S.meaning self.now.config event.now }
    {
        let config = self.run.config();
        match event {
            Event::Call {
                client,
                replica,
                reading: _reading,
                op,
            } => *client < config.clients && *replica < config.replicas && has_rules(S::kind(op)),
            Event::Resend {
                client,
                replica,
                reading: _reading,
            } => *client < config.clients && *replica < config.replicas,
            Event::Ack {
                client,
                replica,
                reading: _reading,
            } => *client < config.clients && *replica < config.replicas,
            Event::Deliver { message: _message } => true,
            Event::Tick {
                replica,
                reading: _reading,
            } => *replica < config.replicas,
            Event::Gossip { from, to } => {
                *from < config.replicas && *to < config.replicas && *from != *to
            }
            Event::Show { replica } => *replica < config.replicas,
        }
    }

    /// Makes one event that fits, and answers what is printed of it. Where there is no memory, nothing has happened.
    pub fn step(&mut self, event: &Event<S::Op>) -> Result<Rows<Outcome>, NoMemory>
        requires { FitsRun S.meaning self.old.config event.now }
        ensures ok { IfOk result (λ lines. let step : Step S.Op = record { event = event.now; outcomes = lines } in
            self.new ≡ record self.old { steps = self.old.steps ++ step ∷ [] }) }
        ensures legal { IsLegal S.meaning self.new.config self.new.steps }
        ensures err { OnErr result (self.new ≡ self.old) }
    {
        a_made_history_goes_on::<S>();
        what_is_made_is_legal::<S>();
        calls_own_op::<S>(event);
        let pending = self.run.begin(event)?;
        match note(&mut self.steps, event, self.run.lines()) {
            Ok(lines) => {
                self.run.finish(pending);
                Ok(lines)
            }
            Err(NoMemory) => {
                self.run.undo(pending);
                Err(NoMemory)
            }
        }
    }
}

// What a program calls is an operation of the service. This function does nothing.
fn calls_own_op<S: Service>(event: &Event<S::Op>)
    ensures { CallsOp S.meaning event.now }
{
    match event {
        Event::Call {
            client: _client,
            replica: _replica,
            reading: _reading,
            op,
        } => S::own_op(op),
        Event::Resend {
            client: _client,
            replica: _replica,
            reading: _reading,
        } => (),
        Event::Ack {
            client: _client,
            replica: _replica,
            reading: _reading,
        } => (),
        Event::Deliver { message: _message } => (),
        Event::Tick {
            replica: _replica,
            reading: _reading,
        } => (),
        Event::Gossip {
            from: _from,
            to: _to,
        } => (),
        Event::Show { replica: _replica } => (),
    }
}

// Whether runs have rules for operations of this kind.
fn has_rules(kind: Kind) -> bool
    ensures { result ≡ ruled kind }
{
    match kind {
        Kind::Query | Kind::Causal => true,
        Kind::Forced | Kind::Immediate => false,
    }
}

// Notes an event with its lines behind the other steps, and answers these lines.
fn note<O: Operation>(
    steps: &mut Rows<Step<O>>,
    event: &Event<O>,
    lines: &[Outcome],
) -> Result<Rows<Outcome>, NoMemory>
    ensures lines { IfOk result (λ noted. noted ≡ lines.now) }
    ensures ok { OnOk result (steps.new ≡ steps.old ++ record { event = event.now; outcomes = lines.now } ∷ []) }
    ensures err { OnErr result (steps.new ≡ steps.old) }
{
    let alloc = steps.allocator();
    let answer = copy_outcomes(alloc, lines)?;
    let event = copy_event(event)?;
    let outcomes = copy_outcomes(alloc, lines)?;
    steps.push(Step { event, outcomes })?;
    Ok(answer)
}

//! Laws about legal histories: each function does nothing, and its contract is the law.
ghost use Rattle.std.specs.List.{All};
ghost use Rattle.std.specs.Prelude.{◌≡◌, ◌<◌, ◌++◌, ◌∷◌, ℕ, true, false, [], List, Some, map, slice_get};
ghost use Rattle.lr_base.specs.Config.{IsValid};
ghost use Rattle.lr_base.specs.Events.{IsEventOf};
ghost use Rattle.lr_base.specs.Kinds.{has_rules};
ghost use Rattle.lr_base.specs.Orders.{IsAmong};
ghost use Rattle.lr_base.specs.Replicas.{ReplicaState};
ghost use Rattle.lr_base.specs.declared.events.Outcome.TheVariants.{Send};
ghost use Rattle.lr_base.specs.declared.names.Actor.TheVariants.{Replica};
ghost use Rattle.lr_graph.specs.After.{Handling, line_read};
ghost use Rattle.lr_graph.specs.Answers.{HasPrintableAnswer};
ghost use Rattle.lr_graph.specs.Central.{IsCentral, facts_after};
ghost use Rattle.lr_graph.specs.Closed.{Each, IsClosed, IsSound, IsWithin};
ghost use Rattle.lr_graph.specs.Fitting.{HistoryFits, OutcomeFits};
ghost use Rattle.lr_graph.specs.Graph.{AckCopy, Acceptance, Facts, LabelledCall, UpdateCopy, first_facts, ready, value};
ghost use Rattle.lr_graph.specs.Legal.{IsLegal, message_lines};
ghost use Rattle.lr_graph.specs.Made.{IsMade, made_step};
ghost use Rattle.lr_graph.specs.Once.{AcceptsOnce, BeginsRefused, IsRefusedAt};
ghost use Rattle.lr_graph.specs.Orderings.{IsReadyOrder, everything, ready_as_made};
ghost use Rattle.lr_graph.specs.Promises.{facts_of};
ghost use Rattle.lr_graph.specs.Pruned.{is_acked, is_known, is_left, is_ready, known_everywhere, logged};
ghost use Rattle.lr_graph.specs.Runs.{RunState, first_run, history_of, run_after, stepped};
ghost use Rattle.lr_graph.specs.Sets.{SpotSet};
ghost use Rattle.lr_graph.specs.Slow.{value_after};
ghost use Rattle.lr_graph.specs.Spread.{IsSpread, has_item};
ghost use Rattle.lr_graph.specs.Timed.{IsOver, IsTimed, WasSent};

use lr_base::lr_service::Service;
use lr_base::{Actor, Cid, Config, Event, Sent, Spot, Step};

/// A history that the actors of a run make, each by its own rules, is legal.
pub fn what_is_made_is_legal<S: Service>()
    ensures { (config : Config) (steps : List (Step S.Op)) (run : RunState S S.Op)
        → IsMade S.meaning config steps run → IsLegal S.meaning config steps }
{}

/// Before any event no step is made, and after each step every event of the run makes one more.
pub fn a_made_history_goes_on<S: Service>()
    ensures first { (config : Config) → IsMade S.meaning config [] (first_run S.meaning config) }
    ensures next { (config : Config) (steps : List (Step S.Op)) (run : RunState S S.Op) (event : Event S.Op)
        → IsMade S.meaning config steps run → IsEventOf S.meaning config event
        → IsMade S.meaning config (steps ++ made_step S.meaning run event ∷ []) (stepped S.meaning run event).run }
{}

/// Of each list of its events the actors of a run make a history, which has just these events and is legal.
pub fn runs_are_legal<S: Service>()
    ensures legal { (config : Config) (events : List (Event S.Op))
        → Each (IsEventOf S.meaning config) events
        → IsLegal S.meaning config (history_of S.meaning config events) }
    ensures events { (config : Config) (events : List (Event S.Op))
        → map (λ step. step.event) (history_of S.meaning config events) ≡ events }
    ensures made { (config : Config) (events : List (Event S.Op))
        → Each (IsEventOf S.meaning config) events
        → IsMade S.meaning config (history_of S.meaning config events)
        (run_after S.meaning (first_run S.meaning config) events) }
{}

/// Two legal histories of the same events are one.
pub fn legal_histories_are_one<S: Service>()
    ensures { (config : Config) (one other : List (Step S.Op))
        → IsLegal S.meaning config one → IsLegal S.meaning config other
        → map (λ step. step.event) one ≡ map (λ step. step.event) other → one ≡ other }
{}

/// After every history that the actors make, each stamp of the run stands for a set of acceptances, what a replica
/// received is a prefix at each place, and messages, held queries, logged updates, executed calls and front ends are
/// those of the facts.
pub fn stamps_stand_for_sets<S: Service>()
    ensures { (config : Config) (steps : List (Step S.Op)) (run : RunState S S.Op)
        → IsMade S.meaning config steps run → IsCentral config (facts_after S.meaning config first_facts steps) run }
{}

/// After every history that the actors make, each replica has the value after what is ready there.
pub fn replicas_have_the_value_of_what_is_ready<S: Service>()
    ensures { (config : Config) (steps : List (Step S.Op)) (run : RunState S S.Op)
        → IsMade S.meaning config steps run → (i : ℕ) → i < config.replicas → (replica : ReplicaState S S.Op)
        → slice_get run.replicas i ≡ Some replica → replica.causal.value ≡ value_after S.meaning config steps i }
{}

/// A line that tells of a sent message changes the messages and nothing else.
pub fn sending_changes_the_messages_alone<S: Service>()
    ensures { (config : Config) (x : Handling S.Op) (w : Facts S.Op) (number : ℕ) (from to : Actor) (what : Sent)
        → line_read S.meaning config x w (Send number from to what)
        ≡ record w { messages = (line_read S.meaning config x w (Send number from to what)).messages } }
{}

/// What is ready is received and has all its causes, and every such set is within it.
pub fn ready_is_the_greatest_closed_set<S: Service>()
    ensures received { (accepted : List (Acceptance S.Op)) (received : SpotSet)
        → IsWithin accepted (ready accepted received) received }
    ensures closed { (accepted : List (Acceptance S.Op)) (received : SpotSet)
        → IsSound accepted → IsClosed accepted (ready accepted received) }
    ensures greatest { (accepted : List (Acceptance S.Op)) (received set : SpotSet)
        → IsWithin accepted set received → IsClosed accepted set
        → IsWithin accepted set (ready accepted received) }
{}

/// Every order of what is ready at a replica in which each acceptance follows its causes gives the replica's value.
/// What is ready in the order of making is such an order.
pub fn every_order_gives_one_value<S: Service>()
    ensures value { (config : Config) (steps : List (Step S.Op))
        → IsLegal S.meaning config steps
        → (i : ℕ) (order : List (Acceptance S.Op)) → IsReadyOrder S.meaning config steps i order
        → value S.meaning order everything ≡ value_after S.meaning config steps i }
    ensures own { (config : Config) (steps : List (Step S.Op))
        → IsLegal S.meaning config steps
        → (i : ℕ) → IsReadyOrder S.meaning config steps i (ready_as_made S.meaning config steps i) }
{}

/// Each answer of a legal history is printable, and so holds no line feed.
pub fn answers_are_printable<S: Service>()
    ensures { (config : Config) (steps : List (Step S.Op))
        → IsLegal S.meaning config steps
        → Each (λ step. Each HasPrintableAnswer step.outcomes) steps }
{}

/// All that is printed of a legal history fits: each number in 64 bits, and each answer on its line. The history must
/// have fewer than 2^64 steps, and so small have to be its clocks' readings and the numbers of what it delivers.
pub fn what_is_printed_fits<S: Service>()
    ensures { (config : Config) (steps : List (Step S.Op))
        → IsValid config → IsLegal S.meaning config steps → HistoryFits steps
        → Each (λ step. All OutcomeFits step.outcomes) steps }
{}

/// No copy of a call is later than an acknowledgement of it: from when one is noted at a replica, and from when one is
/// sent, the call is over, whatever the history goes on with. Every copy of it, sent before or after, has at most the
/// acknowledgement's time then; and no front end has the call open, so that none sends it again. What keeps times in
/// order is that copies of an update have the clocks of its client, and an acknowledgement comes behind the reply.
pub fn no_copy_is_later_than_an_acknowledgement<S: Service>()
    ensures noted { (config : Config) (steps later : List (Step S.Op))
        → IsLegal S.meaning config (steps ++ later)
        → Each (λ a. IsOver (facts_of S.meaning config (steps ++ later)) a.cid a.time)
        (facts_of S.meaning config steps).acks }
    ensures sent { (config : Config) (steps later : List (Step S.Op)) (cid : Cid) (time : ℕ)
        → IsLegal S.meaning config (steps ++ later)
        → WasSent (facts_of S.meaning config steps).messages (AckCopy cid time)
        → IsOver (facts_of S.meaning config (steps ++ later)) cid time }
    ensures times { (config : Config) (steps : List (Step S.Op))
        → IsLegal S.meaning config steps → IsTimed (facts_of S.meaning config steps) }
{}

/// What a replica knows to be received everywhere, because each other replica told it so, is of use no more: the item
/// was received at the replica itself, and an update among such items is ready there, with all its causes, so that its
/// effect is in the value.
pub fn what_all_told_is_ready<S: Service>()
    ensures received { (config : Config) (steps : List (Step S.Op)) (i : ℕ) (spot : Spot)
        → IsLegal S.meaning config steps → i < config.replicas
        → let w = facts_of S.meaning config steps in
        known_everywhere config w i spot ≡ true → w.received i spot ≡ true }
    ensures ready { (config : Config) (steps : List (Step S.Op)) (i : ℕ)
        → IsLegal S.meaning config steps → i < config.replicas
        → let w = facts_of S.meaning config steps in
        Each (λ a. known_everywhere config w i a.spot ≡ true
        → ready w.accepted (w.received i) a.spot ≡ true) w.accepted }
{}

/// What a replica sends as gossip has its own share whole, and so has what it told another: all of it was received at
/// the sender; with each update it names those of the update's causes that were accepted at the sender; and with each
/// item of a call, an acceptance or an acknowledgement, all acceptances of the call at the sender. What a replica was
/// told it has received.
pub fn what_is_sent_is_spread<S: Service>()
    ensures { (config : Config) (steps : List (Step S.Op))
        → IsLegal S.meaning config steps → IsSpread config (facts_of S.meaning config steps) }
{}

/// A call is taken once at a replica: where an item of it was received, an acceptance or an acknowledgement, each copy
/// of it that comes from then on, however late it is and whatever the replica has forgotten, is refused as late, as
/// taken before or as settled, and the replica accepts the call no more. So no two acceptances of a call are at one
/// place.
pub fn a_call_is_taken_once_at_a_replica<S: Service>()
    ensures refused { (config : Config) (steps later : List (Step S.Op)) (i : ℕ) (call : LabelledCall S.Op) (time : ℕ)
        → IsLegal S.meaning config (steps ++ later) → i < config.replicas
        → let w = facts_of S.meaning config steps in
        let now = facts_of S.meaning config (steps ++ later) in
        has_item w (w.received i) call.cid ≡ true → WasSent now.messages (UpdateCopy call time)
        → IsRefusedAt config now i call.cid time }
    ensures lines { (config : Config) (w : Facts S.Op) (i : ℕ) (call : LabelledCall S.Op) (time : ℕ)
        → has_rules (S.meaning.kind call.op) ≡ true → IsRefusedAt config w i call.cid time
        → BeginsRefused (message_lines S.meaning config w (Replica i) (UpdateCopy call time)) }
    ensures accepted { (config : Config) (steps later : List (Step S.Op)) (i : ℕ) (cid : Cid)
        → IsLegal S.meaning config (steps ++ later)
        → let w = facts_of S.meaning config steps in
        let now = facts_of S.meaning config (steps ++ later) in
        has_item w (w.received i) cid ≡ true
        → Each (λ a. a.cid ≡ cid → a.spot.place ≡ i → IsAmong a w.accepted) now.accepted }
    ensures once { (config : Config) (steps : List (Step S.Op))
        → IsLegal S.meaning config steps → AcceptsOnce (facts_of S.meaning config steps).accepted }
{}

/// A call that left a replica's table is over: wherever it was accepted, the acceptance is received and ready at that
/// replica, and known everywhere. Whatever the history goes on with, the call stays away from that table, and no
/// replica accepts it once more.
pub fn a_call_that_left_is_over<S: Service>()
    ensures over { (config : Config) (steps : List (Step S.Op)) (i : ℕ) (cid : Cid)
        → IsLegal S.meaning config steps → i < config.replicas
        → let w = facts_of S.meaning config steps in
        is_left config w i cid ≡ true
        → Each (λ b. b.cid ≡ cid → (w.received i b.spot ≡ true) × (known_everywhere config w i b.spot ≡ true)
        × (ready w.accepted (w.received i) b.spot ≡ true)) w.accepted }
    ensures away { (config : Config) (steps later : List (Step S.Op)) (i : ℕ) (cid : Cid)
        → IsLegal S.meaning config (steps ++ later) → i < config.replicas
        → is_left config (facts_of S.meaning config steps) i cid ≡ true
        → is_left config (facts_of S.meaning config (steps ++ later)) i cid ≡ true }
    ensures none_new { (config : Config) (steps later : List (Step S.Op)) (i : ℕ) (cid : Cid)
        → IsLegal S.meaning config (steps ++ later) → i < config.replicas
        → let w = facts_of S.meaning config steps in
        is_left config w i cid ≡ true
        → Each (λ b. b.cid ≡ cid → IsAmong b w.accepted) (facts_of S.meaning config (steps ++ later)).accepted }
{}

/// What left a replica stays away, whatever the history goes on with: an update that it received and doesn't log is
/// logged there no more, nor is an acknowledgement; and a call with a ready acceptance that its table doesn't have
/// comes back to the table no more. What was received once stays received, and a call that is ready stays ready, so
/// that this holds of all that was ever logged or in the table.
pub fn what_left_stays_away<S: Service>()
    ensures updates { (config : Config) (steps later : List (Step S.Op)) (i : ℕ) (spot : Spot)
        → IsLegal S.meaning config (steps ++ later)
        → let w = facts_of S.meaning config steps in
        w.received i spot ≡ true → logged config w i spot ≡ false
        → logged config (facts_of S.meaning config (steps ++ later)) i spot ≡ false }
    ensures calls { (config : Config) (steps later : List (Step S.Op)) (i : ℕ) (cid : Cid)
        → IsLegal S.meaning config (steps ++ later) → i < config.replicas
        → let w = facts_of S.meaning config steps in
        is_ready w i cid ≡ true → is_known config w i cid ≡ false
        → is_known config (facts_of S.meaning config (steps ++ later)) i cid ≡ false }
    ensures acks { (config : Config) (steps later : List (Step S.Op)) (i : ℕ)
        → IsLegal S.meaning config (steps ++ later) → i < config.replicas
        → let w = facts_of S.meaning config steps in
        Each (λ a. w.received i a.spot ≡ true → is_acked config w i a ≡ false
        → is_acked config (facts_of S.meaning config (steps ++ later)) i a ≡ false) w.acks }
    ensures received { (config : Config) (steps later : List (Step S.Op)) (i : ℕ) (spot : Spot)
        → IsLegal S.meaning config (steps ++ later)
        → (facts_of S.meaning config steps).received i spot ≡ true
        → (facts_of S.meaning config (steps ++ later)).received i spot ≡ true }
    ensures ready { (config : Config) (steps later : List (Step S.Op)) (i : ℕ) (cid : Cid)
        → IsLegal S.meaning config (steps ++ later)
        → is_ready (facts_of S.meaning config steps) i cid ≡ true
        → is_ready (facts_of S.meaning config (steps ++ later)) i cid ≡ true }
{}

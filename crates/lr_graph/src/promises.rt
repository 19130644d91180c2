//! What every legal history promises to its clients: each function does nothing, and its contract is the promise.
ghost use Rattle.std.specs.Prelude.{◌≡◌, ◌<◌, ◌++◌, ◌∷◌, ℕ, [], true, List};
ghost use Rattle.lr_base.specs.Orders.{IsAmong};
ghost use Rattle.lr_base.specs.declared.events.Event.TheVariants.{Deliver};
ghost use Rattle.lr_base.specs.declared.events.Outcome.TheVariants.{Send};
ghost use Rattle.lr_base.specs.declared.events.Sent.TheVariants.{Answer, Done};
ghost use Rattle.lr_base.specs.declared.names.Actor.TheVariants.{Client, Replica};
ghost use Rattle.lr_graph.specs.Closed.{IsDoneAt};
ghost use Rattle.lr_graph.specs.Graph.{Acceptance, ready, value};
ghost use Rattle.lr_graph.specs.Legal.{IsLegal};
ghost use Rattle.lr_graph.specs.Orderings.{FollowsCauses, everything, ready_as_made};
ghost use Rattle.lr_graph.specs.Promises.{◌⊆◌, CallsUpdate, HasDoneUpdate, HasReceivedAll, HaveReceivedAlike};
ghost use Rattle.lr_graph.specs.Promises.{IsReadAfter, IsRound, TakesAnswer, TakesDone, facts_of};
ghost use Rattle.lr_graph.specs.Sets.{SpotSet};
ghost use Rattle.lr_graph.specs.Slow.{value_after};

use lr_base::lr_service::Service;
use lr_base::{Cid, Config, Spot, Step};

/// What answers say: an answer that a client takes was read after what was ready at its replica when it was sent, and
/// its text is what the service reads after just that set.
pub fn answers_are_read_after_what_is_ready<S: Service>()
    ensures ready { (config : Config) (before between later : List (Step S.Op)) (sending answer : Step S.Op)
        (number i client : ℕ) (cid : Cid) (text : List ℕ) (seen : SpotSet)
        → IsLegal S.meaning config (before ++ sending ∷ between ++ answer ∷ later)
        → IsAmong (Send number (Replica i) (Client client) (Answer cid text)) sending.outcomes
        → answer.event ≡ Deliver number
        → TakesAnswer S.meaning config (before ++ sending ∷ between) answer client cid seen
        → seen ≡ ready (facts_of S.meaning config (before ++ sending ∷ [])).accepted
        ((facts_of S.meaning config (before ++ sending ∷ [])).received i) }
    ensures text { (config : Config) (before between later : List (Step S.Op)) (sending answer : Step S.Op)
        (number i client : ℕ) (cid : Cid) (text : List ℕ) (seen : SpotSet)
        → IsLegal S.meaning config (before ++ sending ∷ between ++ answer ∷ later)
        → IsAmong (Send number (Replica i) (Client client) (Answer cid text)) sending.outcomes
        → answer.event ≡ Deliver number
        → TakesAnswer S.meaning config (before ++ sending ∷ between) answer client cid seen
        → IsReadAfter S.meaning (facts_of S.meaning config (before ++ sending ∷ [])) seen cid text }
{}

/// What a reply to an update stands for: the acceptance of the call at the spot that the reply names, and its causes.
pub fn replies_stand_for_acceptances<S: Service>()
    ensures { (config : Config) (before between later : List (Step S.Op)) (sending done : Step S.Op)
        (number i client : ℕ) (cid : Cid) (spot : Spot) (names : SpotSet)
        → IsLegal S.meaning config (before ++ sending ∷ between ++ done ∷ later)
        → IsAmong (Send number (Replica i) (Client client) (Done cid spot)) sending.outcomes
        → done.event ≡ Deliver number
        → TakesDone S.meaning config (before ++ sending ∷ between) done client cid names
        → IsDoneAt (facts_of S.meaning config (before ++ sending ∷ [])).accepted cid spot names }
{}

/// Read your writes: each answer that a client takes was read after each of its updates that it was told are done
/// before, with all that the reply stands for.
pub fn clients_read_their_writes<S: Service>()
    ensures all { (config : Config) (before between later : List (Step S.Op)) (done answer : Step S.Op)
        (client : ℕ) (write read : Cid) (names seen : SpotSet)
        → IsLegal S.meaning config (before ++ done ∷ between ++ answer ∷ later)
        → TakesDone S.meaning config before done client write names
        → TakesAnswer S.meaning config (before ++ done ∷ between) answer client read seen
        → names ⊆ seen }
    ensures done { (config : Config) (before between later : List (Step S.Op)) (done answer : Step S.Op)
        (client : ℕ) (write read : Cid) (names seen : SpotSet)
        → IsLegal S.meaning config (before ++ done ∷ between ++ answer ∷ later)
        → TakesDone S.meaning config before done client write names
        → TakesAnswer S.meaning config (before ++ done ∷ between) answer client read seen
        → HasDoneUpdate (facts_of S.meaning config before).accepted write names seen }
{}

/// Monotonic reads: each answer that a client takes was read after all that its earlier answers were read after.
pub fn reads_are_monotonic<S: Service>()
    ensures { (config : Config) (before between later : List (Step S.Op)) (one other : Step S.Op)
        (client : ℕ) (first second : Cid) (seen seen_later : SpotSet)
        → IsLegal S.meaning config (before ++ one ∷ between ++ other ∷ later)
        → TakesAnswer S.meaning config before one client first seen
        → TakesAnswer S.meaning config (before ++ one ∷ between) other client second seen_later
        → seen ⊆ seen_later }
{}

/// Monotonic writes: wherever an update is accepted, each of its client's updates that this was told are done before
/// it called is below it, with all that the reply stands for.
pub fn writes_are_monotonic<S: Service>()
    ensures all { (config : Config) (before between later : List (Step S.Op)) (done call : Step S.Op)
        (client : ℕ) (first second : Cid) (names : SpotSet) (a : Acceptance S.Op)
        → IsLegal S.meaning config (before ++ done ∷ between ++ call ∷ later)
        → TakesDone S.meaning config before done client first names → CallsUpdate call client second
        → IsAmong a (facts_of S.meaning config (before ++ done ∷ between ++ call ∷ later)).accepted
        → a.cid ≡ second → names ⊆ a.below }
    ensures done { (config : Config) (before between later : List (Step S.Op)) (done call : Step S.Op)
        (client : ℕ) (first second : Cid) (names : SpotSet) (a : Acceptance S.Op)
        → IsLegal S.meaning config (before ++ done ∷ between ++ call ∷ later)
        → TakesDone S.meaning config before done client first names → CallsUpdate call client second
        → IsAmong a (facts_of S.meaning config (before ++ done ∷ between ++ call ∷ later)).accepted
        → a.cid ≡ second → HasDoneUpdate (facts_of S.meaning config before).accepted first names a.below }
{}

/// Writes follow reads: wherever an update is accepted, all that its client's answers were read after before it
/// called is below it.
pub fn writes_follow_reads<S: Service>()
    ensures { (config : Config) (before between later : List (Step S.Op)) (answer call : Step S.Op)
        (client : ℕ) (first second : Cid) (seen : SpotSet) (a : Acceptance S.Op)
        → IsLegal S.meaning config (before ++ answer ∷ between ++ call ∷ later)
        → TakesAnswer S.meaning config before answer client first seen → CallsUpdate call client second
        → IsAmong a (facts_of S.meaning config (before ++ answer ∷ between ++ call ∷ later)).accepted
        → a.cid ≡ second → seen ⊆ a.below }
{}

/// Causal order at every replica: with each update all its causes are ready, and the value is that of applying what
/// is ready in an order in which each update follows its causes, the order of making.
pub fn causes_come_first<S: Service>()
    ensures ready { (config : Config) (steps : List (Step S.Op))
        → IsLegal S.meaning config steps
        → (i : ℕ) (a : Acceptance S.Op) → IsAmong a (facts_of S.meaning config steps).accepted
        → ready (facts_of S.meaning config steps).accepted ((facts_of S.meaning config steps).received i) a.spot ≡ true
        → a.below ⊆ ready (facts_of S.meaning config steps).accepted ((facts_of S.meaning config steps).received i) }
    ensures order { (config : Config) (steps : List (Step S.Op))
        → IsLegal S.meaning config steps
        → (i : ℕ) → FollowsCauses (ready_as_made S.meaning config steps i) }
    ensures value { (config : Config) (steps : List (Step S.Op))
        → IsLegal S.meaning config steps
        → (i : ℕ)
        → value S.meaning (ready_as_made S.meaning config steps i) everything ≡ value_after S.meaning config steps i }
{}

/// Convergence: two replicas that received the same acceptances have the same ready, have the same value, and give
/// every query the same answer.
pub fn replicas_converge<S: Service>()
    ensures ready { (config : Config) (steps : List (Step S.Op)) (i j : ℕ)
        → HaveReceivedAlike (facts_of S.meaning config steps) i j
        → ready (facts_of S.meaning config steps).accepted ((facts_of S.meaning config steps).received i)
        ≡ ready (facts_of S.meaning config steps).accepted ((facts_of S.meaning config steps).received j) }
    ensures value { (config : Config) (steps : List (Step S.Op)) (i j : ℕ)
        → HaveReceivedAlike (facts_of S.meaning config steps) i j
        → value_after S.meaning config steps i ≡ value_after S.meaning config steps j }
    ensures answer { (config : Config) (steps : List (Step S.Op)) (i j : ℕ) (op : S.Op)
        → HaveReceivedAlike (facts_of S.meaning config steps) i j
        → S.meaning.read (value_after S.meaning config steps i) op
        ≡ S.meaning.read (value_after S.meaning config steps j) op }
{}

/// Progress: where each replica's gossip to each other was sent and delivered, and nothing was accepted meanwhile,
/// each replica has received all, holds no query, and has the value of each other. One round is enough.
pub fn one_round_of_gossip_is_enough<S: Service>()
    ensures received { (config : Config) (before round : List (Step S.Op))
        → IsLegal S.meaning config (before ++ round)
        → IsRound config round
        → (facts_of S.meaning config (before ++ round)).accepted ≡ (facts_of S.meaning config before).accepted
        → (i : ℕ) → i < config.replicas → HasReceivedAll (facts_of S.meaning config (before ++ round)) i }
    ensures held { (config : Config) (before round : List (Step S.Op))
        → IsLegal S.meaning config (before ++ round)
        → IsRound config round
        → (facts_of S.meaning config (before ++ round)).accepted ≡ (facts_of S.meaning config before).accepted
        → (i : ℕ) → i < config.replicas → (facts_of S.meaning config (before ++ round)).held i ≡ [] }
    ensures value { (config : Config) (before round : List (Step S.Op))
        → IsLegal S.meaning config (before ++ round)
        → IsRound config round
        → (facts_of S.meaning config (before ++ round)).accepted ≡ (facts_of S.meaning config before).accepted
        → (i j : ℕ) → i < config.replicas → j < config.replicas
        → value_after S.meaning config (before ++ round) i ≡ value_after S.meaning config (before ++ round) j }
{}

//! This file is made by .ci/laws_of_histories.
ghost use Rattle.lr_graph.specs.Legal.{IsLegal};
ghost use Rattle.lr_histories.specs.ALoneReplicaForgetsAnAcknowledgedCall.{history};
ghost use Rattle.svc_tally.specs.Tally.{tally};

/// The history `crates/lr_examples/data/a_lone_replica_forgets_an_acknowledged_call.stdout` is legal.
/// It isn't where line 36 is `send 5 r0 c0 answer 0.2 4`.
pub fn judged()
    ensures legal { IsLegal tally history.config (history.steps history.line) }
    ensures altered { IsLegal tally history.config (history.steps history.altered) → ⊥ }
{}

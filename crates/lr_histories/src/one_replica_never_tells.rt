//! This file is made by .ci/laws_of_histories.
ghost use Rattle.lr_graph.specs.Legal.{IsLegal};
ghost use Rattle.lr_histories.specs.OneReplicaNeverTells.{history};
ghost use Rattle.svc_tally.specs.Tally.{tally};

/// The history `crates/lr_examples/data/one_replica_never_tells.stdout` is legal.
/// It isn't where line 61 is `state r1 view 0 clock 14 received 2.1.0.0 log 0:1,1:1 acks 0:2 calls 0.1,1.2 held -
/// frozen -`.
pub fn judged()
    ensures legal { IsLegal tally history.config (history.steps history.line) }
    ensures altered { IsLegal tally history.config (history.steps history.altered) → ⊥ }
{}

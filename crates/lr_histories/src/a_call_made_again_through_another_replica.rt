//! This file is made by .ci/laws_of_histories.
ghost use Rattle.lr_graph.specs.Legal.{IsLegal};
ghost use Rattle.lr_histories.specs.ACallMadeAgainThroughAnotherReplica.{history};
ghost use Rattle.svc_tally.specs.Tally.{tally};

/// The history `examples/a_call_made_again_through_another_replica.history` is legal.
/// It isn't where line 25 is `send 7 r1 c0 answer 0.2 4`.
pub fn judged()
    ensures legal { IsLegal tally history.config (history.steps history.line) }
    ensures altered { IsLegal tally history.config (history.steps history.altered) → ⊥ }
{}

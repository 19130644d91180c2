//! This file is made by .ci/laws_of_histories.
ghost use Rattle.lr_graph.specs.Legal.{IsLegal};
ghost use Rattle.lr_histories.specs.AnUpdateDeliveredTwice.{history};
ghost use Rattle.svc_tally.specs.Tally.{tally};

/// The history `examples/an_update_delivered_twice.history` is legal.
/// It isn't where line 17 is `send 5 r0 c0 answer 0.2 3`.
pub fn judged()
    ensures legal { IsLegal tally history.config (history.steps history.line) }
    ensures altered { IsLegal tally history.config (history.steps history.altered) → ⊥ }
{}

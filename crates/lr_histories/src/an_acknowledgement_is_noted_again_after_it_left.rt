//! This file is made by .ci/laws_of_histories.
ghost use Rattle.lr_graph.specs.Legal.{IsLegal};
ghost use Rattle.lr_histories.specs.AnAcknowledgementIsNotedAgainAfterItLeft.{history};
ghost use Rattle.svc_tally.specs.Tally.{tally};

/// The history `crates/lr_examples/data/an_acknowledgement_is_noted_again_after_it_left.stdout` is legal.
/// It isn't where line 52 is `state r1 view 0 clock 13 received 3.0.1 log - acks - calls - held - frozen -`.
pub fn judged()
    ensures legal { IsLegal tally history.config (history.steps history.line) }
    ensures altered { IsLegal tally history.config (history.steps history.altered) → ⊥ }
{}

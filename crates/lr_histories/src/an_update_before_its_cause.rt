//! This file is made by .ci/laws_of_histories.
ghost use Rattle.lr_graph.specs.Legal.{IsLegal};
ghost use Rattle.lr_histories.specs.AnUpdateBeforeItsCause.{history};
ghost use Rattle.svc_tally.specs.Tally.{tally};

/// The history `examples/an_update_before_its_cause.history` is legal.
/// It isn't where line 44 is `send 12 r2 c0 answer 0.3 13`.
pub fn judged()
    ensures legal { IsLegal tally history.config (history.steps history.line) }
    ensures altered { IsLegal tally history.config (history.steps history.altered) → ⊥ }
{}

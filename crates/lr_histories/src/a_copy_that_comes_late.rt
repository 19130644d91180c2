//! This file is made by .ci/laws_of_histories.
ghost use Rattle.lr_graph.specs.Legal.{IsLegal};
ghost use Rattle.lr_histories.specs.ACopyThatComesLate.{history};
ghost use Rattle.svc_tally.specs.Tally.{tally};

/// The history `examples/a_copy_that_comes_late.history` is legal.
/// It isn't where line 31 is `send 8 r0 c0 answer 0.2 4`.
pub fn judged()
    ensures legal { IsLegal tally history.config (history.steps history.line) }
    ensures altered { IsLegal tally history.config (history.steps history.altered) → ⊥ }
{}

//! This file is made by .ci/laws_of_histories.
ghost use Rattle.lr_graph.specs.Legal.{IsLegal};
ghost use Rattle.lr_histories.specs.ASecondCallWhileOneIsOpen.{history};
ghost use Rattle.svc_tally.specs.Tally.{tally};

/// The history `examples/a_second_call_while_one_is_open.history` is legal.
/// It isn't where line 25 is `send 6 r0 c0 answer 0.3 3`.
pub fn judged()
    ensures legal { IsLegal tally history.config (history.steps history.line) }
    ensures altered { IsLegal tally history.config (history.steps history.altered) → ⊥ }
{}

//! This file is made by .ci/laws_of_histories.
ghost use Rattle.lr_graph.specs.Legal.{IsLegal};
ghost use Rattle.lr_histories.specs.TwoClientsDontWait.{history};
ghost use Rattle.svc_tally.specs.Tally.{tally};

/// The history `examples/two_clients_dont_wait.history` is legal.
/// It isn't where line 27 is `send 8 r0 c1 answer 1.2 6`.
pub fn judged()
    ensures legal { IsLegal tally history.config (history.steps history.line) }
    ensures altered { IsLegal tally history.config (history.steps history.altered) → ⊥ }
{}

//! This file is made by .ci/laws_of_histories.
ghost use Rattle.lr_graph.specs.Legal.{IsLegal};
ghost use Rattle.lr_histories.specs.TwoClientsOneCounter.{history};
ghost use Rattle.svc_tally.specs.Tally.{tally};

/// The history `examples/two_clients_one_counter.history` is legal.
/// It isn't where line 21 is `send 7 r0 c1 answer 1.2 3`.
pub fn judged()
    ensures legal { IsLegal tally history.config (history.steps history.line) }
    ensures altered { IsLegal tally history.config (history.steps history.altered) → ⊥ }
{}

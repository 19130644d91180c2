//! This file is made by .ci/laws_of_histories.
ghost use Rattle.lr_graph.specs.Legal.{IsLegal};
ghost use Rattle.lr_histories.specs.MessagesThatWereNeverSent.{history};
ghost use Rattle.svc_tally.specs.Tally.{tally};

/// The history `crates/lr_examples/data/messages_that_were_never_sent.stdout` is legal.
/// It isn't where line 48 is `send 10 r0 c0 answer 0.4 1`.
pub fn judged()
    ensures legal { IsLegal tally history.config (history.steps history.line) }
    ensures altered { IsLegal tally history.config (history.steps history.altered) → ⊥ }
{}

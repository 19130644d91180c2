//! This file is made by .ci/laws_of_histories.
ghost use Rattle.lr_graph.specs.Legal.{IsLegal};
ghost use Rattle.lr_histories.specs.TimesAtBothEndsOf64Bits.{history};
ghost use Rattle.svc_tally.specs.Tally.{tally};

/// The history `crates/lr_examples/data/times_at_both_ends_of_64_bits.stdout` is legal.
/// It isn't where line 33 is `state r1 view 0 clock 0 received 0.2.0 log - acks 1:1,1:3 calls - held - frozen -`.
pub fn judged()
    ensures legal { IsLegal tally history.config (history.steps history.line) }
    ensures altered { IsLegal tally history.config (history.steps history.altered) → ⊥ }
{}

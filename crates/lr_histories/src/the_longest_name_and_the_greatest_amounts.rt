//! This file is made by .ci/laws_of_histories.
ghost use Rattle.lr_graph.specs.Legal.{IsLegal};
ghost use Rattle.lr_histories.specs.TheLongestNameAndTheGreatestAmounts.{history};
ghost use Rattle.svc_tally.specs.Tally.{tally};

/// The history `crates/lr_examples/data/the_longest_name_and_the_greatest_amounts.stdout` is legal.
/// It isn't where line 26 is `send 6 r0 c0 answer 0.3 9223372036854775809`.
pub fn judged()
    ensures legal { IsLegal tally history.config (history.steps history.line) }
    ensures altered { IsLegal tally history.config (history.steps history.altered) → ⊥ }
{}

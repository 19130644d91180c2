//! This file is made by .ci/laws_of_histories.
ghost use Rattle.lr_graph.specs.Legal.{IsLegal};
ghost use Rattle.lr_histories.specs.AQueryWaitsForTheAcceptanceThatItsLabelNames.{history};
ghost use Rattle.svc_tally.specs.Tally.{tally};

/// The history `crates/lr_examples/data/a_query_waits_for_the_acceptance_that_its_label_names.stdout` is legal.
/// It isn't where line 26 is `send 7 r0 c0 answer 0.2 4`.
pub fn judged()
    ensures legal { IsLegal tally history.config (history.steps history.line) }
    ensures altered { IsLegal tally history.config (history.steps history.altered) → ⊥ }
{}

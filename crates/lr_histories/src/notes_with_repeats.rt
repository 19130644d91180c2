//! This file is made by .ci/laws_of_histories.
ghost use Rattle.lr_graph.specs.Legal.{IsLegal};
ghost use Rattle.lr_histories.specs.NotesWithRepeats.{history};
ghost use Rattle.svc_claims.specs.Claims.{claims};

/// The history `crates/lr_examples/data/notes_with_repeats.stdout` is legal.
/// It isn't where line 35 is `send 11 r0 c0 answer 0.4 - 1`.
pub fn judged()
    ensures legal { IsLegal claims history.config (history.steps history.line) }
    ensures altered { IsLegal claims history.config (history.steps history.altered) → ⊥ }
{}

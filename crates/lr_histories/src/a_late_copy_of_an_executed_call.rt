//! This file is made by .ci/laws_of_histories.
ghost use Rattle.lr_graph.specs.Legal.{IsLegal};
ghost use Rattle.lr_histories.specs.ALateCopyOfAnExecutedCall.{history};
ghost use Rattle.svc_claims.specs.Claims.{claims};

/// The history `crates/lr_examples/data/a_late_copy_of_an_executed_call.stdout` is legal.
/// It isn't where line 37 is `state r1 view 0 clock 0 received 2.0.0 log - acks 0:3 calls - held - frozen -`.
pub fn judged()
    ensures legal { IsLegal claims history.config (history.steps history.line) }
    ensures altered { IsLegal claims history.config (history.steps history.altered) → ⊥ }
{}

//! This file is made by .ci/laws_of_histories.
ghost use Rattle.lr_graph.specs.Legal.{IsLegal};
ghost use Rattle.lr_histories.specs.OneBoxAtTwoReplicas.{history};
ghost use Rattle.svc_mail.specs.Mail.{mail};

/// The history `crates/lr_examples/data/one_box_at_two_replicas.stdout` is legal.
/// It isn't where line 48 is `send 14 r0 c0 answer 0.3 - 1`.
pub fn judged()
    ensures legal { IsLegal mail history.config (history.steps history.line) }
    ensures altered { IsLegal mail history.config (history.steps history.altered) → ⊥ }
{}

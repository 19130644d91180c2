//! This file is made by .ci/laws_of_histories.
ghost use Rattle.lr_graph.specs.Legal.{IsLegal};
ghost use Rattle.lr_histories.specs.AnUpdateIsAcceptedAtTwoReplicas.{history};
ghost use Rattle.svc_mail.specs.Mail.{mail};

/// The history `crates/lr_examples/data/an_update_is_accepted_at_two_replicas.stdout` is legal.
/// It isn't where line 29 is `send 10 r1 c1 answer 1.2 - 2 hello`.
pub fn judged()
    ensures legal { IsLegal mail history.config (history.steps history.line) }
    ensures altered { IsLegal mail history.config (history.steps history.altered) → ⊥ }
{}

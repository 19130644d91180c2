//! This file is made by .ci/laws_of_histories.
ghost use Rattle.lr_graph.specs.Legal.{IsLegal};
ghost use Rattle.lr_histories.specs.AWordSentAndRead.{history};
ghost use Rattle.svc_mail.specs.Mail.{mail};

/// The history `examples/a_word_sent_and_read.history` is legal.
/// It isn't where line 12 is `send 4 r0 c0 answer 0.2 - 2 hi`.
pub fn judged()
    ensures legal { IsLegal mail history.config (history.steps history.line) }
    ensures altered { IsLegal mail history.config (history.steps history.altered) → ⊥ }
{}

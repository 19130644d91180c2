//! Laws of what is printed: a function's contract is the law, and its body calls the laws that it stands on.
ghost use Rattle.std.specs.Prelude.{◌≡◌, ℕ, List, map};
ghost use Rattle.std.specs.List.{All};
ghost use Rattle.lr_base.specs.Config.{IsValid};
ghost use Rattle.lr_base.specs.declared.events.Event.{Event};
ghost use Rattle.lr_base.specs.declared.events.Step.{Step};
ghost use Rattle.lr_graph.specs.Fitting.{HistoryFits};
ghost use Rattle.lr_graph.specs.Legal.{IsLegal};
ghost use Rattle.lr_report.specs.Printed.{printed};
ghost use Rattle.lr_report.specs.Tellable.{IsTellable};
ghost use Rattle.lr_script.specs.Script.{IsScript};
ghost use Rattle.lr_script.specs.declared.heading.Header.{Header};

use lr_base::lr_service::Service;
use lr_graph::what_is_printed_fits;
use lr_script::an_event_has_one_line;

/// Under one header, two histories that differ have different texts. They may be legal ones of fewer than 2^64 steps,
/// whose readings and delivered numbers are that small; or any, legal or not, whose answers hold no line feed, whose
/// numbers all fit in 64 bits, and which call operations of the service.
pub fn printed_tells_histories_apart<S: Service>()
    ensures legal { (header : Header) (a b : List (Step S.Op))
        → IsValid header.config → IsLegal S.meaning header.config a → IsLegal S.meaning header.config b
        → HistoryFits a → HistoryFits b
        → printed S.meaning header a ≡ printed S.meaning header b → a ≡ b }
    ensures tellable { (header : Header) (a b : List (Step S.Op))
        → All (IsTellable S.meaning) a → All (IsTellable S.meaning) b
        → printed S.meaning header a ≡ printed S.meaning header b → a ≡ b }
{
    an_event_has_one_line::<S>();
    what_is_printed_fits::<S>();
}

/// The history of a script's events is one whose own numbers fit: a script has few bytes, and each of its numbers fits.
pub fn histories_of_scripts_fit<S: Service>()
    ensures { (header : Header) (events : List (Event S.Op)) (bytes : List ℕ) (steps : List (Step S.Op))
        → IsScript S.meaning header events bytes → map (λ step. step.event) steps ≡ events
        → HistoryFits steps }
{}

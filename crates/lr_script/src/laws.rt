//! Laws of scripts: each function does nothing, and its contract is the law.
ghost use Rattle.std.specs.Prelude.{◌≡◌, ℕ, ◌+◌, ◌≤◌, ◌++◌, ◌↔◌, List, length};
ghost use Rattle.std.specs.List.{All};
ghost use Rattle.lr_base.specs.Limits.{most_script_bytes};
ghost use Rattle.lr_base.specs.declared.events.Event.{Event};
ghost use Rattle.lr_base.specs.declared.names.Config.{Config};
ghost use Rattle.lr_script.specs.Faults.{BeginsUnprintable, HasMeaning, IsRefusal, IsScriptFault};
ghost use Rattle.lr_script.specs.Script.{EventFits, Fits, IsScript, IsSetUp, line_of, script_text};
ghost use Rattle.lr_script.specs.Texts.{event_text};
ghost use Rattle.lr_script.specs.declared.heading.Header.{Header};
ghost use Rattle.lr_script.specs.declared.refusals.Cause.{Cause};
ghost use Rattle.lr_script.specs.declared.refusals.Cause.TheVariants.{Byte};
ghost use Rattle.lr_script.specs.declared.refusals.ScriptFault.TheVariants.{Line};

use lr_base::lr_service::Service;

/// Bytes with a bad line mean nothing, and too many bytes are refused for just that.
pub fn what_is_refused_means_nothing<S: Service>()
    ensures { (bytes : List ℕ) (line : ℕ) (cause : Cause)
        → IsScriptFault S.meaning bytes (Line line cause) → IsRefusal S.meaning bytes line cause }
{}

/// Bytes are the text of at most one header and list of events, and have at most one first bad line, with one first
/// cause at it. No bytes are a script and have a bad line.
pub fn scripts_have_one_meaning<S: Service>()
    ensures script { (bytes : List ℕ) (header other : Header) (events more : List (Event S.Op))
        → IsScript S.meaning header events bytes → IsScript S.meaning other more bytes
        → (header ≡ other) × (events ≡ more) }
    ensures fault { (bytes : List ℕ) (line at : ℕ) (cause why : Cause)
        → IsScriptFault S.meaning bytes (Line line cause) → IsScriptFault S.meaning bytes (Line at why)
        → (line ≡ at) × (cause ≡ why) }
    ensures apart { (bytes : List ℕ) (header : Header) (events : List (Event S.Op))
        (line : ℕ) (cause : Cause) → IsScript S.meaning header events bytes
        → ¬ (IsScriptFault S.meaning bytes (Line line cause)) }
{}

/// Each input has a meaning: its bytes are the script of a header and events, or have a first bad line. They are only
/// one of both, since bytes that are refused are no script.
pub fn every_input_has_a_meaning<S: Service>()
    ensures { (bytes : List ℕ) → HasMeaning S.meaning bytes }
{}

/// A line is the text of at most one event, so what is printed of an event can't be read as another.
pub fn an_event_has_one_line<S: Service>()
    ensures line { (config : Config) (a b : Event S.Op) → IsSetUp config
        → Fits S.meaning config a → Fits S.meaning config b
        → event_text S.meaning a ≡ event_text S.meaning b → a ≡ b }
    // So also among other lines, and without a run to fit in.
    ensures first { (a b : Event S.Op) (x y : List ℕ) → EventFits S.meaning a → EventFits S.meaning b
        → line_of (event_text S.meaning a) ++ x ≡ line_of (event_text S.meaning b) ++ y
        → (a ≡ b) × (x ≡ y) }
{}

/// Where there aren't too many bytes and the lines before are right, a line is refused for a bad byte just where it has
/// an end and one of its bytes is below the space or above the tilde, whatever else is wrong with it.
pub fn a_bad_byte_is_an_unprintable_one<S: Service>()
    ensures first { (bytes : List ℕ) → length bytes ≤ most_script_bytes
        → IsScriptFault S.meaning bytes (Line 1 Byte) ↔ BeginsUnprintable bytes }
    ensures later { (header : Header) (events : List (Event S.Op)) (rest : List ℕ) → IsSetUp header.config
        → All (Fits S.meaning header.config) events
        → length (script_text S.meaning header events ++ rest) ≤ most_script_bytes
        → IsScriptFault S.meaning (script_text S.meaning header events ++ rest) (Line (length events + 2) Byte)
        ↔ BeginsUnprintable rest }
{}

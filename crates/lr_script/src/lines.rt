//! The lines of a script's bytes.
ghost use Rattle.std.specs.Prelude.{◌≡◌, ◌==◌, ◌∷◌, ◌++◌, ℕ, List, true, IfOk, IfErr, not, nat_le, ◌&&◌, position};
ghost use Rattle.lr_base.specs.Meaning.{is_printable};
ghost use Rattle.lr_base.specs.declared.events.Event.{Event};
ghost use Rattle.lr_script.specs.Faults.{IsNoLine};
ghost use Rattle.lr_script.specs.Script.{EventFits, line_of};
ghost use Rattle.lr_script.specs.Texts.{event_text};

use crate::Cause;
use lr_base::lr_service::Service;

fn first_unprintable(bytes: &[u8]) -> Option<usize>
    ensures { result ≡ position (λ byte. not (nat_le 32 byte && nat_le byte 126)) bytes.now }
{
    bytes
        .iter()
        .position(|byte| !(b' ' <= *byte && *byte <= b'~'))
}

// The first line without its LF, and what follows the LF.
pub fn first_line(bytes: &[u8]) -> Result<(&[u8], &[u8]), Cause>
    ensures line { IfOk result (λ parts. bytes.now ≡ parts.0.now ++ 10 ∷ parts.1.now) }
    ensures printable { IfOk result (λ parts. is_printable parts.0.now ≡ true) }
    ensures err { IfErr result (IsNoLine bytes.now) }
{
    let Some(end) = first_unprintable(bytes) else {
        return Err(Cause::Unended);
    };
    let later = &bytes[end + 1..];
    if bytes[end] == b'\n' {
        return Ok((&bytes[..end], later));
    }
    if later.contains(&b'\n') {
        return Err(Cause::Byte);
    }
    Err(Cause::Unended)
}

fn first_feed(bytes: &[u8]) -> Option<usize>
    ensures { result ≡ position (λ byte. byte == 10) bytes.now }
{
    bytes.iter().position(|byte| *byte == b'\n')
}

/// The text of the event whose line the lines begin with, without the LF, and the lines behind it. So the lines of a
/// script's events are had one after another, and none is copied or printed.
pub fn split_event_line<S: Service>(lines: &[u8]) -> (&[u8], &[u8])
    ensures { (event : Event S.Op) (later : List ℕ) → EventFits S.meaning event
        → lines.now ≡ line_of (event_text S.meaning event) ++ later
        → (result.0.now ≡ event_text S.meaning event) × (result.1.now ≡ later) }
{
    match first_feed(lines) {
        Some(end) => (&lines[..end], &lines[end + 1..]),
        // Lines that begin with no event's.
        None => (lines, &lines[lines.len()..]),
    }
}

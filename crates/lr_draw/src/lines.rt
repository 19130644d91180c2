//! The lines of the input's bytes.
ghost use Rattle.std.specs.Prelude.{◌≡◌, ◌∷◌, ◌++◌, ◌<◌, length, true, IfSome, IsNone, position};
ghost use Rattle.lr_base.specs.Meaning.{is_printable};
ghost use Rattle.lr_draw.specs.Lines.{IsNoLine, is_odd, shown_of};

use crate::history::Span;

// A line without its line feed, and what follows that.
#[derive(Clone, Copy)]
pub struct Cut<'a> {
    pub line: &'a [u8],
    pub later: &'a [u8],
}

fn first_odd(bytes: &[u8]) -> Option<usize>
    ensures { result ≡ position is_odd bytes.now }
{
    bytes
        .iter()
        .position(|byte| !(b' ' <= *byte && *byte <= b'~'))
}

/// The first line, if it has printable bytes alone and a line feed.
pub fn first_line(bytes: &[u8]) -> Option<Cut<'_>>
    ensures line { IfSome result (λ cut. bytes.now ≡ cut.line.now ++ 10 ∷ cut.later.now) }
    ensures printable { IfSome result (λ cut. is_printable cut.line.now ≡ true) }
    ensures shorter { IfSome result (λ cut. length cut.later.now < length bytes.now) }
    ensures none { IsNone result → IsNoLine bytes.now }
{
    let Some(end) = first_odd(bytes) else {
        return None;
    };
    if bytes[end] != b'\n' {
        return None;
    }
    Some(Cut {
        line: &bytes[..end],
        later: &bytes[end + 1..],
    })
}

/// The bytes of a span, as far as they are there.
pub fn shown(bytes: &[u8], span: Span) -> &[u8]
    ensures { result.now ≡ shown_of bytes.now span }
{
    let end = span.end.min(bytes.len());
    let start = span.start.min(end);
    &bytes[start..end]
}

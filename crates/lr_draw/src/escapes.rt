//! Text of the input, written so that it is text in the picture too.
ghost use Rattle.std.specs.Prelude.{◌≡◌, ◌++◌, OnOk};
ghost use Rattle.lr_draw.specs.Escapes.{escaped, escaped_byte, IsEscaped};
ghost use Rattle.std.specs.Prelude.{ℕ, List};

use lr_base::{NoMemory, Text};

fn put_byte(byte: u8, out: &mut Text) -> Result<(), NoMemory>
    ensures { OnOk result (out.new ≡ out.old ++ escaped_byte byte) }
{
    if byte == b'<' {
        return out.extend(b"&lt;");
    }
    if byte == b'>' {
        return out.extend(b"&gt;");
    }
    if byte == b'&' {
        return out.extend(b"&amp;");
    }
    if byte == b'"' {
        return out.extend(b"&quot;");
    }
    if byte == b'\'' {
        return out.extend(b"&#39;");
    }
    out.push(byte)
}

/// Adds the text behind `out`, escaped.
pub fn put_escaped(text: &[u8], out: &mut Text) -> Result<(), NoMemory>
    ensures { OnOk result (out.new ≡ out.old ++ escaped text.now) }
{
    for byte in text {
        put_byte(*byte, out)?;
    }
    Ok(())
}

/// Escaped text has none of the bytes that end a text or begin another thing, but for those of the escapes.
pub fn escaped_text_is_text()
    ensures { (text : List ℕ) → IsEscaped (escaped text) }
{}

//! The fields of a line, which stand between single spaces.
ghost use Rattle.std.specs.Prelude.{◌≡◌, ◌≢◌, ◌==◌, ◌++◌, ◌<◌, ℕ, List, MatchOption, IfSome, IsNone, position};
ghost use Rattle.std.specs.Fmt.{decimal};
ghost use Rattle.lr_draw.specs.Fields.{behind_field, first_field};

use lr_base::read_number;

fn first_space(text: &[u8]) -> Option<usize>
    ensures { result ≡ position (λ byte. byte == 32) text.now }
{
    text.iter().position(|byte| *byte == b' ')
}

/// What stands before the first space, or all where there is none.
pub fn first_of(text: &[u8]) -> &[u8]
    ensures { result.now ≡ first_field text.now }
{
    match first_space(text) {
        Some(end) => &text[..end],
        None => text,
    }
}

/// What stands behind the first space, or nothing where there is none.
pub fn behind_first(text: &[u8]) -> &[u8]
    ensures { result.now ≡ behind_field text.now }
{
    match first_space(text) {
        Some(end) => &text[end + 1..],
        None => &text[text.len()..],
    }
}

/// What stands behind a front that the text has to begin with.
pub fn behind<'a>(text: &'a [u8], front: &[u8]) -> Option<&'a [u8]>
    ensures { MatchOption result ((rest : List ℕ) → text.now ≢ front.now ++ rest)
        (λ rest. text.now ≡ front.now ++ rest.now) }
{
    text.strip_prefix(front)
}

/// The number below a limit that is written so.
pub fn number_below(text: &[u8], limit: u64) -> Option<u64>
    ensures some { IfSome result (λ n. text.now ≡ decimal n) }
    ensures below { IfSome result (λ n. n < limit) }
    ensures none { IsNone result → (n : ℕ) → n < limit → text.now ≢ decimal n }
{
    let number = read_number(text)?;
    if number < limit { Some(number) } else { None }
}

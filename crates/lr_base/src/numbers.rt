//! Numbers as they are written in operations and scripts: decimal, with no leading zero.
ghost use Rattle.std.specs.Prelude.{◌≡◌, ◌≢◌, ℕ, ◌+◌, ◌*◌, ◌^◌, ◌<◌, ◌≤◌, ◌++◌, IfSome, IsNone, OnOk, OnErr};
ghost use Rattle.std.specs.Char.{digit_value};
ghost use Rattle.std.specs.Fmt.{decimal};
ghost use Rattle.std.specs.Str.Parse.{AllDigits, digits_value};

use crate::rows::{NoMemory, Text};
use itoa::Buffer;

/// Adds the number in decimal behind `out`. Takes no memory but that of `out`.
#[tactic(auto, using(std::proofs::lemmas::Fmt::decimal_digit))]
pub fn put_number(number: u64, out: &mut Text) -> Result<(), NoMemory>
    ensures ok { OnOk result (out.new ≡ out.old ++ decimal number) }
    ensures err { OnErr result (out.new ≡ out.old) }
{
    // Most numbers have one digit.
    if number < 10 {
        return out.push(b'0' + number as u8);
    }
    let mut buffer = Buffer::new();
    out.extend(buffer.format(number).as_bytes())
}

/// The number below 2^64 that is written so. Takes no memory.
pub fn read_number(text: &[u8]) -> Option<u64>
    ensures read { IfSome result (λ n. text.now ≡ decimal n) }
    ensures none { IsNone result → (n : ℕ) → n < 2 ^ 64 → text.now ≢ decimal n }
{
    if text.is_empty() {
        return None;
    }
    if text[0] != b'0' {
        return digits_number(text);
    }
    if text.len() == 1 { Some(0) } else { None }
}

// The value of the digits; none where a byte is no digit, or where the value does not fit.
fn digits_number(text: &[u8]) -> Option<u64>
    ensures digits { IfSome result (λ n. AllDigits 10 text.now) }
    ensures value { IfSome result (λ n. digits_value 10 text.now ≡ n) }
    ensures fits { IfSome result (λ n. n < 2 ^ 64) }
    ensures none { IsNone result → AllDigits 10 text.now → 2 ^ 64 ≤ digits_value 10 text.now }
{
    let mut number = 0;
    for digit in text {
        number = with_digit(number, *digit)?;
    }
    Some(number)
}

fn with_digit(number: u64, digit: u8) -> Option<u64>
    ensures digit { IfSome result (λ n. digit_value digit < 10) }
    ensures value { IfSome result (λ n. n ≡ number * 10 + digit_value digit) }
    ensures fits { IfSome result (λ n. n < 2 ^ 64) }
    ensures none { IsNone result → digit_value digit < 10 → 2 ^ 64 ≤ number * 10 + digit_value digit }
{
    if digit < b'0' {
        return None;
    }
    if digit > b'9' {
        return None;
    }
    number.checked_mul(10)?.checked_add(u64::from(digit - b'0'))
}

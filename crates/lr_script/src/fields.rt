//! The fields of a line.
ghost use Rattle.std.specs.Prelude.{◌≡◌, ◌≢◌, ◌==◌, ◌+◌, ◌↔◌, IsTrue, IfSome, IsNone, MatchOption, position};
ghost use Rattle.lr_script.specs.Fields.{IsField, spaces, word_text};
ghost use Rattle.lr_script.specs.declared.fields.EventWord.{EventWord};

// The word that an event's line begins with.
#[derive(Clone, Copy)]
pub enum EventWord {
    Call,
    Resend,
    Ack,
    Deliver,
    Tick,
    Gossip,
    Show,
}

fn first_space(line: &[u8]) -> Option<usize>
    ensures { result ≡ position (λ byte. byte == 32) line.now }
{
    line.iter().position(|byte| *byte == b' ')
}

// The first field of a line, and what follows the space behind it.
pub fn split_field(line: &[u8]) -> (&[u8], Option<&[u8]>)
    ensures field { IsField line.now result.0.now result.1 }
    ensures spaces { MatchOption result.1 (spaces line.now ≡ 0) (λ rest. spaces line.now ≡ 1 + spaces rest.now) }
{
    match first_space(line) {
        Some(end) => (&line[..end], Some(&line[end + 1..])),
        None => (line, None),
    }
}

// Whether the line is one field.
pub fn is_one_field(line: &[u8]) -> bool
    ensures { IsTrue result ↔ (spaces line.now ≡ 0) }
{
    match first_space(line) {
        Some(_) => false,
        None => true,
    }
}

// The event's word that a field is.
pub fn word_of(field: &[u8]) -> Option<EventWord>
    ensures some { IfSome result (λ word. field.now ≡ word_text word) }
    ensures none { IsNone result → (word : EventWord) → field.now ≢ word_text word }
{
    if field == b"call".as_slice() {
        return Some(EventWord::Call);
    }
    if field == b"resend".as_slice() {
        return Some(EventWord::Resend);
    }
    if field == b"ack".as_slice() {
        return Some(EventWord::Ack);
    }
    if field == b"deliver".as_slice() {
        return Some(EventWord::Deliver);
    }
    if field == b"tick".as_slice() {
        return Some(EventWord::Tick);
    }
    if field == b"gossip".as_slice() {
        return Some(EventWord::Gossip);
    }
    if field == b"show".as_slice() {
        return Some(EventWord::Show);
    }
    None
}

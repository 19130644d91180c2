//! Whom an event's text names.
ghost use Rattle.std.specs.Prelude.{◌≡◌, ◌≢◌, IfSome, IsNone};
ghost use Rattle.lr_draw.specs.Acts.{IsAct, IsActBy, IsNoAct, IsNoActBy, IsNoReplicaWord, word_text};
ghost use Rattle.lr_draw.specs.declared.acts.Word.{Word};

use crate::fields::{behind_first, first_of, number_below};
use lr_base::{Actor, MOST_CLIENTS, read_number};

/// How many replicas a history may name.
pub const MOST_REPLICAS: u8 = 15;

/// What an event does to whom, as far as it is drawn.
#[derive(Clone, Copy)]
pub enum Act {
    /// A message is delivered.
    Deliver { message: u64 },
    /// Something happens at a client or a replica.
    At { actor: Actor },
    /// A replica restarts.
    Restart { replica: u8 },
    /// A replica sends gossip to another.
    Gossip { from: u8, to: u8 },
    /// The text names none of them.
    Elsewhere,
}

/// The word that an event's text begins with.
#[derive(Clone, Copy)]
pub enum Word {
    Deliver,
    Call,
    Resend,
    Ack,
    Gossip,
    Restart,
    Tick,
    View,
    Drive,
    FailSave,
    HalfSave,
    Show,
}

fn word_of(field: &[u8]) -> Option<Word>
    ensures some { IfSome result (λ word. field.now ≡ word_text word) }
    ensures none { IsNone result → (word : Word) → field.now ≢ word_text word }
{
    if field == b"deliver".as_slice() {
        return Some(Word::Deliver);
    }
    if field == b"call".as_slice() {
        return Some(Word::Call);
    }
    if field == b"resend".as_slice() {
        return Some(Word::Resend);
    }
    if field == b"ack".as_slice() {
        return Some(Word::Ack);
    }
    if field == b"gossip".as_slice() {
        return Some(Word::Gossip);
    }
    if field == b"restart".as_slice() {
        return Some(Word::Restart);
    }
    replica_word_of(field)
}

// The last six words.
fn replica_word_of(field: &[u8]) -> Option<Word>
    ensures some { IfSome result (λ word. field.now ≡ word_text word) }
    ensures none { IsNone result → IsNoReplicaWord field.now }
{
    if field == b"tick".as_slice() {
        return Some(Word::Tick);
    }
    if field == b"view".as_slice() {
        return Some(Word::View);
    }
    if field == b"drive".as_slice() {
        return Some(Word::Drive);
    }
    if field == b"failsave".as_slice() {
        return Some(Word::FailSave);
    }
    if field == b"halfsave".as_slice() {
        return Some(Word::HalfSave);
    }
    if field == b"show".as_slice() {
        return Some(Word::Show);
    }
    None
}

/// What an event's text says. A text whose first word is another than those known names nobody.
pub fn act_of(text: &[u8]) -> Option<Act>
    ensures some { IfSome result (IsAct text.now) }
    ensures none { IsNone result → IsNoAct text.now }
{
    match word_of(first_of(text)) {
        Some(word) => act_by(word, behind_first(text)),
        None => Some(Act::Elsewhere),
    }
}

// What an event with this word, and these fields behind it, says.
fn act_by(word: Word, fields: &[u8]) -> Option<Act>
    ensures some { IfSome result (IsActBy word fields.now) }
    ensures none { IsNone result → IsNoActBy word fields.now }
{
    match word {
        Word::Deliver => match read_number(fields) {
            Some(message) => Some(Act::Deliver { message }),
            None => None,
        },
        Word::Call | Word::Resend | Word::Ack => {
            match number_below(first_of(fields), MOST_CLIENTS as u64) {
                Some(client) => Some(Act::At {
                    actor: Actor::Client(client as u32),
                }),
                None => None,
            }
        }
        Word::Gossip => gossip_of(fields),
        Word::Restart => match number_below(first_of(fields), MOST_REPLICAS as u64) {
            Some(replica) => Some(Act::Restart {
                replica: replica as u8,
            }),
            None => None,
        },
        Word::Tick | Word::View | Word::Drive | Word::FailSave | Word::HalfSave | Word::Show =>
            match number_below(first_of(fields), MOST_REPLICAS as u64) {
                Some(replica) => Some(Act::At {
                    actor: Actor::Replica(replica as u8),
                }),
                None => None,
            },
    }
}

fn gossip_of(fields: &[u8]) -> Option<Act>
    ensures some { IfSome result (IsActBy Word.Gossip fields.now) }
    ensures none { IsNone result → IsNoActBy Word.Gossip fields.now }
{
    let Some(from) = number_below(first_of(fields), MOST_REPLICAS as u64) else {
        return None;
    };
    let Some(to) = number_below(first_of(behind_first(fields)), MOST_REPLICAS as u64) else {
        return None;
    };
    Some(Act::Gossip {
        from: from as u8,
        to: to as u8,
    })
}

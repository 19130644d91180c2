//! Lines that tell that a message was sent.
ghost use Rattle.std.specs.Prelude.{◌≡◌, IfSome, IsNone};
ghost use Rattle.lr_base.specs.declared.names.Actor.{Actor};
ghost use Rattle.lr_draw.specs.Sends.{IsActor, IsWay, IsNoWay};

use crate::acts::MOST_REPLICAS;
use crate::fields::{behind, behind_first, first_of, number_below};
use crate::kinds::{Kind, kind_of};
use lr_base::{Actor, MOST_CLIENTS};

/// From whom to whom a message goes, and what it is.
#[derive(Clone, Copy)]
pub struct Way {
    pub from: Actor,
    pub to: Actor,
    pub kind: Kind,
}

// The client or replica that is written so.
fn actor_of(field: &[u8]) -> Option<Actor>
    ensures some { IfSome result (IsActor field.now) }
    ensures none { IsNone result → (actor : Actor) → ¬ (IsActor field.now actor) }
{
    if let Some(digits) = behind(field, b"c") {
        return match number_below(digits, MOST_CLIENTS as u64) {
            Some(client) => Some(Actor::Client(client as u32)),
            None => None,
        };
    }
    if let Some(digits) = behind(field, b"r") {
        return match number_below(digits, MOST_REPLICAS as u64) {
            Some(replica) => Some(Actor::Replica(replica as u8)),
            None => None,
        };
    }
    None
}

/// What stands behind a message's number in the line that tells that it was sent.
pub fn way_of(fields: &[u8]) -> Option<Way>
    ensures some { IfSome result (IsWay fields.now) }
    ensures none { IsNone result → IsNoWay fields.now }
{
    let Some(from) = actor_of(first_of(fields)) else {
        return None;
    };
    let later = behind_first(fields);
    let Some(to) = actor_of(first_of(later)) else {
        return None;
    };
    let what = behind_first(later);
    if what.is_empty() {
        return None;
    }
    let kind = kind_of(first_of(what));
    Some(Way { from, to, kind })
}

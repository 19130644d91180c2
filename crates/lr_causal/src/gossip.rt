//! Gossip among replicas: what is told, and what of it is new.
ghost use Rattle.std.specs.Prelude.{◌≡◌, IfOk};
ghost use Rattle.lr_base.specs.Rules.{new_acks as new_acks_of, new_updates as new_updates_of};
ghost use Rattle.lr_value.specs.Waiting.{behind};

use lr_base::{LogAck, LogUpdate, NoMemory, Stamp};
use lr_log::is_new;
use std::alloc::Global;

/// The updates that are new, in their order.
pub fn new_updates<'a, O: Drop>(
    alloc: Global,
    updates: &'a [LogUpdate<O>],
    rep_ts: &Stamp,
) -> Result<Vec<&'a LogUpdate<O>>, NoMemory>
    ensures { IfOk result (λ found. behind found.items ≡ new_updates_of rep_ts.now updates.now) }
{
    let mut found = Vec::new(alloc);
    for update in updates {
        if is_new(rep_ts, update.spot) {
            found.push(update)?;
        }
    }
    Ok(found)
}

/// The acknowledgements that are new, in their order.
pub fn new_acks(alloc: Global, acks: &[LogAck], rep_ts: &Stamp) -> Result<Vec<LogAck>, NoMemory>
    ensures { IfOk result (λ found. found.items ≡ new_acks_of rep_ts.now acks.now) }
{
    let mut found = Vec::new(alloc);
    for ack in acks {
        if is_new(rep_ts, ack.spot) {
            found.push(*ack)?;
        }
    }
    Ok(found)
}

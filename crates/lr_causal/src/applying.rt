//! Applying what is ready, while it is noted which calls are entered.
ghost use Rattle.std.specs.Prelude.{◌≡◌, length, IfOk, OnOk, OnErr};
ghost use Rattle.lr_calls.specs.Tables.{without};
ghost use Rattle.lr_value.specs.Applied.{GoesOn, IsOlderOf, all_ready, progress};
ghost use Rattle.lr_value.specs.Remembered.{IsLogOf, IsSettledAt};

use crate::entering::Entering;
use lr_base::lr_service::Service;
use lr_base::{Cid, NoMemory, Stamp};
use lr_calls::CallTable;
use lr_log::Log;
use lr_value::{Older, Value};
use std::mem;

/// Applies the logged updates that are ready. The calls that are entered are noted behind those that were before.
pub(crate) fn apply_ready<S: Service>(
    value: &mut Value<S>,
    log: &Log<S::Op>,
    received: &Stamp,
    calls: &mut CallTable,
    entered: &mut Vec<Cid>,
) -> Result<Option<Older<S>>, NoMemory>
    requires { IsLogOf S.Op.kind_of received.now log.now.updates value.old }
    // what is applied
    ensures ok { OnOk result
        (progress value.new calls.new ≡ all_ready S.meaning log.now.updates (progress value.old calls.old)) }
    ensures settled { OnOk result (IsSettledAt received.now log.now.updates value.new
        × GoesOn (progress value.old calls.old) (progress value.new calls.new)) }
    ensures older { IfOk result (IsOlderOf (progress value.old calls.old) (progress value.new calls.new)) }
    // what stays, and can be taken out again
    ensures err { OnErr result
        ((value.new ≡ value.old) × (calls.new ≡ calls.old) × (entered.new.items ≡ entered.old.items)) }
    ensures undo { without entered.new.items calls.new ≡ without entered.old.items calls.old }
{
    if value.is_settled(log, received) {
        return Ok(None);
    }
    let alloc = log.allocator();
    let table = mem::replace(calls, CallTable::new(alloc));
    let noted = mem::replace(entered, Vec::new(alloc));
    let mut entering = Entering::new(table, noted);
    match value.apply_ready(log, received, &mut entering) {
        Ok(older) => {
            entering.end(calls, entered);
            Ok(older)
        }
        Err(NoMemory) => {
            entering.undo();
            entering.end(calls, entered);
            Err(NoMemory)
        }
    }
}

//! What a front end does, as far as a history's facts say it.
ghost use Rattle.std.specs.Prelude.{◌≡◌, ◌==◌, ◌^◌, None, IfOk};
ghost use Rattle.std.specs.Option.{option_or};
ghost use Rattle.lr_graph.specs.After.{call_read, clock_read, replied};
ghost use Rattle.lr_graph.specs.Told.{front_of, first_front as none_called, set_of};

use crate::facts::items::{CallCopy, FrontNow};
use crate::facts::spots::{SpotList, add_all};
use lr_base::lr_service::Operation;
use lr_base::{Cid, NoMemory};
use std::alloc::Global;

// How many calls a front end makes at the most.
const MOST_CALLS: u64 = 1 << 62;

/// A front end that made no call.
pub fn first_front<O: Drop>(alloc: Global) -> FrontNow<O>
    ensures { front_of result ≡ none_called }
{
    FrontNow {
        label: SpotList::new(alloc),
        calls: 0,
        clock: 0,
        open_call: None,
        answered: None,
    }
}

/// A front end after a clock reading.
pub fn after_reading<O: Drop>(front: FrontNow<O>, reading: u64) -> FrontNow<O>
    ensures { front_of result ≡ clock_read reading (front_of front) }
{
    let FrontNow {
        label,
        calls,
        clock,
        open_call,
        answered,
    } = front;
    FrontNow {
        label,
        calls,
        clock: clock.max(reading),
        open_call,
        answered,
    }
}

/// A front end after a call of an operation at a clock reading.
pub fn after_call<O: Operation>(
    client: u32,
    reading: u64,
    op: &O,
    front: FrontNow<O>,
) -> Result<FrontNow<O>, NoMemory>
    ensures { IfOk result (λ after. front_of after
        ≡ call_read client reading op.now (front_of front)
        (front_of front).open_call ((front_of front).calls == 2 ^ 62)) }
{
    let FrontNow {
        label,
        calls,
        clock,
        open_call,
        answered,
    } = front;
    let clock = clock.max(reading);
    if open_call.is_some() || calls >= MOST_CALLS {
        return Ok(FrontNow {
            label,
            calls,
            clock,
            open_call,
            answered,
        });
    }
    let calls = calls + 1;
    let cid = Cid { client, seq: calls };
    let call = CallCopy {
        cid,
        op: op.copy()?,
        label: label.copy()?,
    };
    Ok(FrontNow {
        label,
        calls,
        clock,
        open_call: Some(call),
        answered,
    })
}

/// A front end after it took the reply to its open call, which stands for these spots; the call is this one if it is an
/// update.
pub fn after_reply<O: Operation>(
    front: FrontNow<O>,
    names: &SpotList,
    update: Option<Cid>,
) -> Result<FrontNow<O>, NoMemory>
    ensures { IfOk result (λ after. front_of after
        ≡ replied (set_of names.now) (option_or update (front_of front).answered) (front_of front)) }
{
    let FrontNow {
        mut label,
        calls,
        clock,
        open_call: _open_call,
        answered,
    } = front;
    add_all(&mut label, names)?;
    Ok(FrontNow {
        label,
        calls,
        clock,
        open_call: None,
        answered: update.or(answered),
    })
}

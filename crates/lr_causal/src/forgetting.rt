//! Which calls are forgotten.
ghost use Rattle.std.specs.Prelude.{◌≡◌};
ghost use Rattle.lr_base.specs.Rules.{undone_calls};

use lr_calls::CallTable;
use lr_log::Log;

/// Forgets the calls that are done: an acknowledgement is logged, and no update. It takes no memory, and looks up one
/// call an acknowledgement.
pub fn forget_done<O: Drop>(calls: &mut CallTable, log: &Log<O>)
    ensures { calls.new ≡ undone_calls log.now.updates log.now.acks calls.old }
{
    log.keeps();
    for place in 0..log.ack_places() {
        calls.forget(log, log.acks_of(place));
    }
}

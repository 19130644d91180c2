//! What bytes are written to.
ghost use Rattle.lr_outside.specs.Calls.{IsWriteCall};
ghost use Rattle.lr_outside.specs.Seen.{sink_change, SinkSeen};

use crate::source::Failed;

/// Takes bytes, in order. It means the bytes held, where it tells them, and a count of its faults.
pub trait Sink {
    ghost seen: { Self → SinkSeen };

    /// Adds some first bytes of the piece behind those held, and answers how many. A write that fails leaves the bytes
    /// held as they were, and so fails one of which nothing is taken, unless it is empty.
    fn write(&mut self, piece: &[u8]) -> Result<usize, Failed>
        ensures { IsWriteCall (sink_change seen self.old self.new) result piece.now };
}

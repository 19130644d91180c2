//! What bytes are read from.
ghost use Rattle.lr_outside.specs.Calls.{IsReadCall};
ghost use Rattle.lr_outside.specs.Seen.{source_change, SourceSeen};

/// A read or a write failed.
#[derive(Clone, Copy, Debug, PartialEq, Eq)]
pub struct Failed;

/// Bytes that come in, in order. It means the bytes left, where it tells them, and a count of its faults.
pub trait Source {
    ghost seen: { Self → SourceSeen };

    /// Reads some first bytes of those left into the front of the buffer, and answers how many. A 0 for a buffer that
    /// isn't empty is the end. A read that fails leaves the bytes left as they were.
    fn read(&mut self, into: &mut [u8]) -> Result<usize, Failed>
        ensures { IsReadCall (source_change seen self.old self.new) result into.new };
}

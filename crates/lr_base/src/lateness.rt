//! Times against clocks.
ghost use Rattle.std.specs.Prelude.{◌+◌, ◌<◌, ◌↔◌, IsTrue};

/// Whether a message of this time lies further back than a clock with this reading allows.
pub fn late(time: u64, delta: u64, clock: u64) -> bool
    ensures { IsTrue result ↔ (time + delta < clock) }
{
    match time.checked_add(delta) {
        Some(last) => last < clock,
        // The sum is past every reading of a clock.
        None => false,
    }
}

//! The tally's operations, and how they are written.
use lr_words::Word;

/// An operation of the tally.
#[derive(Drop)]
pub enum TallyOp {
    /// Adds to a counter, modulo 2^64. Written `add NAME AMOUNT`, and causal.
    Add { name: Word, amount: u64 },
    /// Asks for a counter. Written `read NAME`, and a query.
    Read { name: Word },
}

//! The operations of claims.
use lr_words::Word;

/// An operation of claims.
#[derive(Drop)]
pub enum ClaimsOp {
    /// Adds a word to the notes of a name. Written `note NAME WORD`, and causal.
    Note { name: Word, word: Word },
    /// Gives a name its owner, unless it has one. Written `claim NAME WHO`, and forced.
    Claim { name: Word, who: Word },
    /// Takes a name's owner and notes away. Written `clear NAME`, and immediate.
    Clear { name: Word },
    /// Asks for a name's owner and notes. Written `who NAME`, and a query.
    Who { name: Word },
}

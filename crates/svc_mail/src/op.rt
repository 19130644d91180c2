//! The operations of mail.
use lr_words::Word;

/// An operation of mail.
#[derive(Drop)]
pub enum MailOp {
    /// Puts a word into a user's box, known or not. Written `send USER WORD`, and causal.
    Send { user: Word, word: Word },
    /// Gives a user the next number, from 1 and modulo 2^64, if it has none. Written `add USER`, and forced.
    Add { user: Word },
    /// Takes a user's number and all words of its box away. Written `delete USER`, and immediate.
    Delete { user: Word },
    /// Asks for a user's number and words. Written `read USER`, and a query.
    Read { user: Word },
}

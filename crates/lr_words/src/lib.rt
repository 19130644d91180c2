//! What services are made of: words, and tables of values by word.
#![tactic(auto)]

mod entries;
mod laws;
mod lists;
mod stored;
mod table;
mod texts;
mod word;

pub use laws::tables_are_exact;
pub use lists::WordList;
pub use stored::Stored;
pub use table::Table;
pub use texts::{behind, put_two_words, put_word, read_two_words};
pub use word::Word;

#[cfg(test)]
mod tests;

//! One line of a table.

/// A number with its value.
#[derive(Drop)]
pub struct Entry<T> {
    pub key: u32,
    pub value: T,
}

//! The facts of a history, read line by line.
pub mod causes;
pub mod copies;
pub mod entry;
pub mod fronts;
pub mod gathered;
pub mod items;
pub mod newest;
pub mod reading;
pub mod spots;
pub mod table;

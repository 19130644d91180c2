//! Mail: a service of users with numbers, and boxes of words.
#![tactic(auto)]

mod op;
mod texts;
mod value;

pub use op::MailOp;
pub use value::Mail;

#[cfg(test)]
mod tests;

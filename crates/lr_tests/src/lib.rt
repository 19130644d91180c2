//! Tests, over the tally, of what stands on no service.
#![tactic(auto)]

#[cfg(test)]
mod items;
#[cfg(test)]
mod log;
#[cfg(test)]
mod log_model;
#[cfg(test)]
mod pruning;
#[cfg(test)]
mod taking;
#[cfg(test)]
mod value;

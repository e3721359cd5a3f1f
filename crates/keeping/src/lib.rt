// The stage kinds that keep the format: largest, rectifier and repeat, each a set of one kind.
#![tactic(auto)]

pub mod kind;
pub mod largest;
pub mod laws;
mod lists;
pub mod operation;
mod record;
pub mod rectifier;
pub mod repeat;
mod signal;
#[cfg(test)]
mod tests;

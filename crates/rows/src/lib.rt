// Stages that multiply and accumulate: full and taps.
#![tactic(auto)]

mod coefficients;
mod evaluated;
pub mod full;
pub mod kind;
pub mod laws;
pub mod layout;
mod outputs;
pub mod plan;
mod quantity;
mod range;
mod row;
pub mod row_format;
pub mod scales;
pub mod taps;
#[cfg(test)]
mod tests;
mod through;

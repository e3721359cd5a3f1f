// The settings file: its records, its header, and why it is refused.
#![tactic(auto)]

pub mod fields;
pub mod head;
pub mod header;
pub mod inputs;
pub mod record;
pub mod refusal;
#[cfg(test)]
mod tests;

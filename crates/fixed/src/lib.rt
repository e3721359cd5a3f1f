// Numbers of the relay: bytes, formats, words, shifts and wires.
#![tactic(auto)]

pub mod bytes;
pub mod floor;
pub mod format;
pub mod row;
#[cfg(test)]
mod tests;
pub mod wire;
pub mod word;

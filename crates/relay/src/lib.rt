// The relay: its calls, and what holds of every list of them.
#![tactic(auto)]

pub mod certificate;
pub mod kept;
pub mod relay;
pub mod replay;

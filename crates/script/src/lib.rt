// Scripts of calls on a relay: read from text, and what each call answered printed.
#![tactic(auto)]

pub mod account;
pub mod block;
mod hex;
pub mod line;
mod number;
mod part;
pub mod script_text;

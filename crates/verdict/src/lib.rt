// The verdict on a settings file, and what its network makes of codes.
#![tactic(auto)]

pub mod bench;
pub mod file;
pub mod frame;
pub mod front;
pub mod judging;
pub mod line;
pub mod loaded;
pub mod network;
pub mod output;
pub mod running;
pub mod stage;
pub mod wires;

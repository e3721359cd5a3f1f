// What stage kinds mean, sets of kinds, and the law of a network of stages.
#![tactic(auto)]

pub mod kind_set;
pub mod network;
pub mod pair;
pub mod shape;
pub mod stage;
pub mod wires;

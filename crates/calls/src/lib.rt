// What a program may ask of a relay, and what it is told.
#![tactic(auto)]

pub mod certificate_row;
pub mod reply;
pub mod request;
pub mod status;

// A relay over any set of stage kinds.
use crate::kept::Kept;
use calls::status::Status;
use stages::kind_set::KindSet;

// It holds its kinds by value, the file of the last taken load with its certified bound, and the status of its counter.
#[derive(Drop)]
pub struct Relay<K: KindSet> {
    kinds: K,
    kept: Kept,
    bound: u32,
    status: Status,
}

pub mod changes;
pub mod questions;

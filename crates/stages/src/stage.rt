// A stage, as a kind is given it.
use crate::shape::Shape;

// The bytes of its record, the accumulator's width, and what stands before it.
#[derive(Clone, Copy)]
pub struct Stage<'a> {
    pub bytes: &'a [u8],
    pub accumulator: u8,
    pub before: Shape,
}

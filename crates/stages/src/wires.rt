// What is passed between stages, in fixed memory.
ghost use Rattle.stages.specs.Containment.{Stands};
ghost use Rattle.stages.specs.Facts.{stands-prop};

use crate::shape::Shape;
use arrayvec::ArrayVec;
use fixed::row::WireRow;

// At most 64 codes.
pub type Codes = ArrayVec<i32, 64>;

// At most 64 wires.
pub type WireRows = ArrayVec<WireRow, 64>;

// Wires, and the shape that they stand in.
#[derive(Drop)]
pub struct Wires {
    pub shape: Shape,
    pub rows: WireRows,
    ghost stands: { Stands shape rows.items } by { stands-prop shape rows.items },
}

// Wires after a stage, as callers hold them.
ghost use Rattle.std.specs.Prelude.{take};
ghost use Rattle.stages.specs.Containment.{Stands};
ghost use Rattle.stages.specs.Facts.{stands-prop};

use fixed::row::WireRow;
use stages::shape::Shape;

// Wires in front of a table, as many as their shape says; they stand in it.
#[derive(Clone, Copy)]
pub struct Wires {
    pub shape: Shape,
    pub rows: [WireRow; 64],
    ghost stands: { Stands shape (take shape.count rows) } by { stands-prop shape (take shape.count rows) },
}

mod after;

pub use after::wires_after;

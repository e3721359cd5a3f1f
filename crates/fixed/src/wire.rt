// Checked wires, with their limits in the type.
ghost use Rattle.fixed.specs.Wire.{Proper};

use crate::format::Format;
use crate::row::WireRow;

// A wire in a format.
#[derive(Clone, Copy)]
pub struct Wire {
    format: Format,
    row: WireRow,
    ghost proper: { Proper format.word row },
}

pub mod checks;

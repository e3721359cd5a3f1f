// A frame on its way through the stages.
ghost use Rattle.std.specs.Prelude.{◌≡◌, length};

use stages::wires::{Codes, Wires};

// Wires, and a code for each of them.
#[derive(Drop)]
pub struct Frame {
    pub(crate) wires: Wires,
    pub(crate) codes: Codes,
    ghost many: { length codes.items ≡ wires.shape.count },
}

pub mod runs;

// One row: the weights of an output, its bias, and the inputs that it is over.
ghost use Rattle.std.specs.Prelude.{◌≤◌, length};

use crate::row_format::RowFormat;

#[derive(Drop)]
pub(crate) struct Row<'a, V> {
    pub(crate) format: RowFormat,
    pub(crate) weights: &'a [i32],
    pub(crate) bias: i32,
    pub(crate) inputs: &'a [V],
    ghost few: { length weights.now ≤ 64 },
}

mod code;
mod error;
mod sum;
mod wire;

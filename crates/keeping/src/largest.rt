// Kind 3: the largest of each block of inputs.
ghost use Rattle.std.specs.Prelude.{◌≡◌};
ghost use Rattle.keeping.specs.Lists.{pooled};
ghost use Rattle.keeping.specs.Keeping.{largest_within, largest_outputs};
ghost use Rattle.keeping.specs.Owed.{keeps-largest};

use crate::lists::pool;
use crate::operation::{Operation, Outputs};
use crate::signal::Signal;

#[derive(Clone, Copy)]
pub struct Largest;

impl Operation for Largest {
    ghost NUMBER = { 3 };

    ghost within = { λ p n. largest_within p };

    ghost count = { largest_outputs };

    ghost outputs = { λ larger rectified. pooled larger };

    ghost keeps = { keeps-largest };

    const NUMBER: u8 = 3;

    fn within(&self, size: u8, _inputs: u8) -> bool {
        matches!(size, 2..=64)
    }

    fn outputs<T: Signal>(&self, size: u8, from: &[T], out: &mut Outputs<T>) {
        pool(size, from, out);
    }
}

// Kind 5: each input several times in a row.
ghost use Rattle.std.specs.Prelude.{◌≡◌, ◌*◌};
ghost use Rattle.keeping.specs.Lists.{repeated};
ghost use Rattle.keeping.specs.Keeping.{repeat_within};
ghost use Rattle.keeping.specs.Owed.{keeps-repeat};

use crate::lists::repeat;
use crate::operation::{Operation, Outputs};
use crate::signal::Signal;

#[derive(Clone, Copy)]
pub struct Repeat;

impl Operation for Repeat {
    ghost NUMBER = { 5 };

    ghost within = { repeat_within };

    ghost count = { λ s n. n * s };

    ghost outputs = { λ larger rectified. repeated };

    ghost keeps = { keeps-repeat };

    const NUMBER: u8 = 5;

    fn within(&self, size: u8, inputs: u8) -> bool {
        matches!(size, 2..=8) && u16::from(inputs) * u16::from(size) <= 64
    }

    fn outputs<T: Signal>(&self, size: u8, from: &[T], out: &mut Outputs<T>) {
        repeat(size, from, out);
    }
}

// Kind 4: negative signals become 0.
ghost use Rattle.std.specs.Prelude.{◌≡◌, map, nat_eq};
ghost use Rattle.keeping.specs.Owed.{keeps-rectifier};

use crate::lists::rectify;
use crate::operation::{Operation, Outputs};
use crate::signal::Signal;

#[derive(Clone, Copy)]
pub struct Rectifier;

impl Operation for Rectifier {
    ghost NUMBER = { 4 };

    ghost within = { λ p n. nat_eq p 0 };

    ghost count = { λ p n. n };

    ghost outputs = { λ larger rectified p. map rectified };

    ghost keeps = { keeps-rectifier };

    const NUMBER: u8 = 4;

    fn within(&self, size: u8, _inputs: u8) -> bool {
        size == 0
    }

    fn outputs<T: Signal>(&self, _size: u8, from: &[T], out: &mut Outputs<T>) {
        rectify(from, out);
    }
}

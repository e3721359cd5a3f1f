// What the kinds that keep the format differ in.
ghost use Rattle.std.specs.Prelude.{◌≡◌, ℕ, ◌≤◌, Bool, List, length, IsTrue};
ghost use Rattle.std.specs.Int.{int_max};
ghost use Rattle.keeping.specs.Signals.{rectified, larger_row, rectified_row};
ghost use Rattle.keeping.specs.Kept.{Keeps};

use crate::signal::Signal;
use arrayvec::ArrayVec;

// At most 64 codes or wires.
pub type Outputs<T> = ArrayVec<T, 64>;

// Of the size and the count of inputs: whether they are within limits, and how many outputs there are. Of the size: the
// outputs of a list, by the larger of two elements and by an element without its negative part.
pub trait Operation {
    ghost NUMBER: { ℕ };

    ghost within: { ℕ → ℕ → Bool };

    ghost count: { ℕ → ℕ → ℕ };

    ghost outputs: { {X : Type 0} → (X → X → X) → (X → X) → ℕ → List X → List X };

    const NUMBER: u8;

    fn within(&self, size: u8, inputs: u8) -> bool
        ensures { result ≡ within size inputs };

    // The outputs, in place of what stood in the list.
    fn outputs<T: Signal>(&self, size: u8, from: &[T], out: &mut Outputs<T>)
        requires limits { IsTrue (within size (length from.now)) }
        requires some { 1 ≤ length from.now }
        requires few { length from.now ≤ 64 }
        ensures { out.new.items ≡ outputs T.larger T.rectified size from.now };

    ghost keeps: { Keeps within count (outputs larger_row rectified_row) (outputs int_max rectified) };
}

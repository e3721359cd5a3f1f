// What the kinds do to a list: the outputs take the place of what stood in a lent one. That at most 64 signals come of it is a
// premise: a type for so short a slice would be made at each call.
ghost use Rattle.std.specs.Prelude.{◌≡◌, ◌*◌, ◌≤◌, map, length};
ghost use Rattle.std.specs.List.{reduce};
ghost use Rattle.keeping.specs.Lists.{pooled, repeated};

use crate::operation::Outputs;
use crate::signal::Signal;

// The largest element of a block, if it has any.
fn largest_of<T: Signal>(block: &[T]) -> Option<T>
    ensures { result ≡ reduce T.larger block.now }
{
    block.iter().copied().reduce(T::larger_of)
}

// The largest of each block of `size`.
pub(crate) fn pool<T: Signal>(size: u8, from: &[T], out: &mut Outputs<T>)
    requires size { 1 ≤ size }
    requires few { length from.now ≤ 64 }
    ensures { out.new.items ≡ pooled T.larger size from.now }
{
    out.clear();
    for block in from.chunks(usize::from(size)) {
        if let Some(largest) = largest_of(block) {
            out.push(largest);
        }
    }
}

// Each element without its negative part.
pub(crate) fn rectify<T: Signal>(from: &[T], out: &mut Outputs<T>)
    requires { length from.now ≤ 64 }
    ensures { out.new.items ≡ map T.rectified from.now }
{
    out.clear();
    for x in from {
        out.push(x.rectify());
    }
}

// Each element `times` times in a row.
#[tactic(auto, using(crate::proofs::Loops::repeat_room, crate::proofs::Loops::repeated_more))]
pub(crate) fn repeat<T: Signal>(times: u8, from: &[T], out: &mut Outputs<T>)
    requires { length from.now * times ≤ 64 }
    ensures { out.new.items ≡ repeated times from.now }
{
    out.clear();
    for &x in from {
        for _ in 0..times {
            out.push(x);
        }
    }
}

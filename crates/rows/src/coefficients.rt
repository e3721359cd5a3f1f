// The numbers of a record of rows.
ghost use Rattle.std.specs.Prelude.{◌≡◌, ◌+◌, ◌*◌, ◌≤◌};
ghost use Rattle.rows.specs.Layout.{number_at, weights_at, bias_at};

use crate::layout::Layout;
use arrayvec::ArrayVec;
use fixed::bytes::i32_at;

// The weights and biases of a stage, by where they stand in its record.
#[derive(Clone, Copy)]
pub(crate) struct Coefficients<'a> {
    pub(crate) layout: Layout,
    pub(crate) bytes: &'a [u8],
    ghost short: { layout.length ≤ 64 },
}

fn number_at(bytes: &[u8], j: u32) -> i32
    requires { j ≤ 1000000 }
    ensures { result ≡ number_at bytes.now j }
{
    i32_at(bytes, 6 + 4 * j)
}

impl Coefficients<'_> {
    fn weight(&self, output: u8, j: u8) -> i32
        ensures { result ≡ number_at self.now.bytes.now (output * self.now.layout.stride + j) }
    {
        number_at(
            self.bytes,
            u32::from(output) * u32::from(self.layout.stride) + u32::from(j),
        )
    }

    // The weights of an output.
    pub(crate) fn weights(&self, output: u8) -> ArrayVec<i32, 64>
        ensures { result.items ≡ weights_at self.now.layout self.now.bytes.now output }
    {
        let mut weights = ArrayVec::new();
        for j in 0..self.layout.length {
            weights.push(self.weight(output, j));
        }
        weights
    }

    pub(crate) fn bias(&self, output: u8) -> i32
        ensures { result ≡ bias_at self.now.layout self.now.bytes.now output }
    {
        number_at(
            self.bytes,
            u32::from(self.layout.biases) + u32::from(output) * u32::from(self.layout.spacing),
        )
    }
}

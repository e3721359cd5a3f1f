// The error of a row.
ghost use Rattle.std.specs.Prelude.{◌≡◌, ◌*◌, ◌^◌, ◌<◌, ◌≤◌};
ghost use Rattle.rows.specs.Row.{remainder, reach, spread_of, spread, row_error};

use super::Row;
use crate::row_format::RowFormat;
use fixed::row::WireRow;

// 2^places. Here places are at most 24, as formats that go together have it; a type for them would be made at each call.
#[tactic(auto, using(std::proofs::Common::pow_mono))]
fn unit(places: u8) -> u32
    requires { places ≤ 24 }
    ensures value { result ≡ 2 ^ places }
    ensures bound { result ≤ 2 ^ 24 }
{
    1u32 << places
}

// What rounding to a multiple of 2^places drops.
fn remainder(value: i32, places: u8) -> u64
    requires { places ≤ 24 }
    ensures value { result ≡ remainder value places }
    ensures bound { result ≤ 2 ^ 24 }
{
    // In 32 bits: a division of 64 is slower, and stands in the inner loop.
    u64::from(value.rem_euclid(unit(places).cast_signed()).unsigned_abs())
}

// The largest magnitude of a wire in grains.
fn reach(fraction: u8, row: WireRow) -> u64
    requires { fraction ≤ 24 }
    ensures value { result ≡ reach fraction row }
    ensures bound { result ≤ 2 ^ 55 }
{
    let most = row.low.unsigned_abs().max(row.high.unsigned_abs());
    u64::from(most) * u64::from(unit(24 - fraction))
}

// What one input adds to the error, in units of 2^-48.
fn spread_of(format: RowFormat, weight: i32, row: WireRow) -> u128
    ensures value { result ≡ spread_of format.scales weight row }
    ensures bound { result ≤ 2 ^ 80 }
{
    let scales = format.scales;
    let weighted = u128::from(weight.unsigned_abs()) * u128::from(row.error);
    weighted + u128::from(remainder(weight, 24 - scales.fw)) * u128::from(reach(scales.fx, row))
}

impl Row<'_, WireRow> {
    fn spread(&self) -> u128
        ensures value { result ≡ spread self.now.format.scales self.now.weights.now self.now.inputs.now }
        ensures bound { result ≤ 64 * 2 ^ 80 }
    {
        let mut total = 0u128;
        for (weight, wire) in self.weights.iter().zip(self.inputs) {
            total += spread_of(self.format, *weight, *wire);
        }
        total
    }

    #[tactic(auto, using(std::proofs::Common::pow_mono))]
    pub(crate) fn error(&self) -> u128
        ensures { result ≡ row_error self.now.format.scales self.now.weights.now self.now.bias self.now.inputs.now }
    {
        let scales = self.format.scales;
        let product = 24 - scales.fw - scales.fx;
        let inputs = self.spread().div_ceil(16_777_216);
        let output = unit(24 - scales.fy) - unit(product);
        inputs + u128::from(remainder(self.bias, product)) + u128::from(output)
    }
}

// The inputs of a header record as wire rows.
ghost use Rattle.std.specs.Prelude.{◌≡◌, ◌≤◌};
ghost use Rattle.fixed.specs.Wire.{is_proper};
ghost use Rattle.settings.specs.Firsts.{first_failing};
ghost use Rattle.settings.specs.Head.{input_row, input_rows};

use arrayvec::ArrayVec;
use fixed::bytes::{i32_at, u32_at};
use fixed::format::Format;
use fixed::row::WireRow;
use fixed::wire::Wire;

fn input_row(bytes: &[u8], i: u8) -> WireRow
    ensures { result ≡ input_row bytes.now i }
{
    let start = 21 + 12 * u32::from(i);
    WireRow {
        low: i32_at(bytes, start),
        high: i32_at(bytes, start + 4),
        error: u32_at(bytes, start + 8),
    }
}

pub(crate) fn inputs_in(bytes: &[u8], count: u8) -> ArrayVec<WireRow, 64>
    requires { count ≤ 64 }
    ensures { result.items ≡ input_rows bytes.now count }
{
    let mut inputs = ArrayVec::new();
    for i in 0..count {
        inputs.push(input_row(bytes, i));
    }
    inputs
}

// The first input that is no proper wire of the format.
pub(crate) fn first_improper(bytes: &[u8], format: Format, count: u8) -> Option<u8>
    ensures { result ≡ first_failing (λ i. is_proper format.word (input_row bytes.now i)) 0 count }
{
    (0..count).find(|input| Wire::new(format, input_row(bytes, *input)).is_none())
}

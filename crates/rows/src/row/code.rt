// The output code of a row.
ghost use Rattle.std.specs.Prelude.{◌≡◌, ◌≤◌};
ghost use Rattle.fixed.specs.Word.{fits_word};
ghost use Rattle.rows.specs.Row.{row_code};
ghost use Rattle.rows.specs.Walk.{tested};

use super::Row;
use crate::evaluated::Evaluated;
use crate::quantity::Quantity;
use fixed::floor::floor_shift;
use stages::shape::RunRefusal;

// The value as a code, if it fits a word of at most 24 bits. `TryFrom` is no plainer, since it tests for 32 bits alone.
pub(crate) fn code_in(word: u8, value: i64) -> Option<i32>
    requires { word ≤ 24 }
    ensures { result ≡ tested (fits_word word) value }
{
    if value.fits(word) {
        Some(value as i32)
    } else {
        None
    }
}

impl Evaluated for i32 {
    type Refusal = RunRefusal;

    ghost row_of = { row_code };

    fn output(row: &Row<'_, i32>, output: u8) -> Result<i32, RunRefusal> {
        let sum = row.sum::<i64>().ok_or(RunRefusal::Sum { output })?;
        let shifted = floor_shift(sum, u32::from(row.format.dropped()));
        code_in(row.format.scales.wy, shifted).ok_or(RunRefusal::Output { output })
    }
}

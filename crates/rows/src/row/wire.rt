// The output wire of a row.
ghost use Rattle.std.specs.Prelude.{◌≡◌};
ghost use Rattle.std.specs.List.{list_all};
ghost use Rattle.fixed.specs.Word.{fits_word};
ghost use Rattle.rows.specs.Row.{weight_code, ends_of, row_wire};

use super::Row;
use super::code::code_in;
use crate::evaluated::Evaluated;
use crate::range::SumRange;
use crate::row_format::RowFormat;
use fixed::row::WireRow;
use fixed::wire::checks::MOST_ERROR;
use fixed::word::fits_word;
use stages::shape::KindRefusal;

// The ends of a sum's range as those of a wire.
fn ends(format: RowFormat, sum: SumRange) -> Option<(i32, i32)>
    ensures { result ≡ ends_of format.scales sum }
{
    let range = sum.shift(format.dropped());
    let word = format.scales.wy;
    Some((code_in(word, range.low)?, code_in(word, range.high)?))
}

impl Row<'_, WireRow> {
    // Whether every weight's code fits its word.
    fn weights_fit(&self) -> bool
        ensures { result ≡ list_all (λ w. fits_word self.now.format.scales.ww (weight_code self.now.format.scales w)) self.now.weights.now }
    {
        let format = self.format;
        let word = u32::from(format.scales.ww);
        self.weights.iter().all(|weight| fits_word(i64::from(format.weight_code(*weight)), word))
    }
}

impl Evaluated for WireRow {
    type Refusal = KindRefusal;

    ghost row_of = { row_wire };

    #[tactic(auto, using(crate::proofs::Codes::all_fit_is))]
    fn output(row: &Row<'_, WireRow>, output: u8) -> Result<WireRow, KindRefusal> {
        if !row.weights_fit() {
            return Err(KindRefusal::WeightCode { output });
        }
        let sum = row
            .sum::<SumRange>()
            .ok_or(KindRefusal::RangeSum { output })?;
        let (low, high) = ends(row.format, sum).ok_or(KindRefusal::RangeOutput { output })?;
        let error = row.error();
        if error > u128::from(MOST_ERROR) {
            return Err(KindRefusal::WireError { output });
        }
        Ok(WireRow {
            low,
            high,
            error: error as u32,
        })
    }
}

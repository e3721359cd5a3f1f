// How a wire is made from a row.
ghost use Rattle.std.specs.Prelude.{◌≡◌, is_some, IfSome};
ghost use Rattle.fixed.specs.Wire.{is_proper};

use super::Wire;
use crate::format::Format;
use crate::row::WireRow;
use crate::word::fits_word;

// The largest error of a wire in grains.
pub const MOST_ERROR: u32 = 16_777_216;

impl Wire {
    // Answers exactly where the row is proper in the format. An Option and no `TryFrom` of a pair: an error would say no more than `None`.
    pub fn new(format: Format, row: WireRow) -> Option<Wire>
        ensures test { is_some result ≡ is_proper format.word row }
        ensures parts { IfSome result (λ w. (w.format ≡ format) × (w.row ≡ row)) }
    {
        let bits = u32::from(format.word());
        let ends = fits_word(i64::from(row.low), bits) && fits_word(i64::from(row.high), bits);
        if row.low <= row.high && row.error <= MOST_ERROR && ends {
            Some(Wire { format, row })
        } else {
            None
        }
    }

    pub fn format(&self) -> Format
        ensures { result ≡ self.now.format }
    {
        self.format
    }

    pub fn row(&self) -> WireRow
        ensures { result ≡ self.now.row }
    {
        self.row
    }
}

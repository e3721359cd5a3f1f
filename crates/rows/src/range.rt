// Ranges of sums.
ghost use Rattle.std.specs.Prelude.{◌≡◌};
ghost use Rattle.rows.specs.Range.{range_shift};

use fixed::floor::floor_shift;

// From the least to the greatest value that a sum can have.
#[derive(Clone, Copy, PartialEq, Eq, Debug)]
pub struct SumRange {
    pub low: i64,
    pub high: i64,
}

impl SumRange {
    // Both ends by 2^places, rounded toward minus infinity.
    pub(crate) fn shift(self, places: u8) -> SumRange
        ensures { result ≡ range_shift self places }
    {
        let places = u32::from(places);
        SumRange {
            low: floor_shift(self.low, places),
            high: floor_shift(self.high, places),
        }
    }
}

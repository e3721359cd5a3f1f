// Formats of a row that go together, with their limits in the type.
ghost use Rattle.fixed.specs.Format.{IsFormat};
ghost use Rattle.rows.specs.Scales.{WeightLimits, ShiftLimits, SumLimits};

use crate::scales::Scales;

#[derive(Clone, Copy)]
pub struct RowFormat {
    pub(crate) scales: Scales,
    ghost weights: { WeightLimits scales },
    ghost shifts: { ShiftLimits scales },
    ghost sums: { SumLimits scales },
    ghost outputs: { IsFormat scales.wy scales.fy },
}

pub mod checks;

// What the rows of a stage are worked out for: codes, or wires.
ghost use Rattle.std.specs.Prelude.{◌≡◌, ℕ, List, ℤ, Result as Outcome};
ghost use Rattle.rows.specs.declared.scales.Scales.{Scales};

use crate::row::Row;

pub(crate) trait Evaluated: Copy + Default {
    type Refusal;

    ghost row_of: { Scales → ℕ → List ℤ → ℤ → List Self → Outcome Self Self.Refusal };

    fn output(row: &Row<'_, Self>, output: u8) -> Result<Self, Self::Refusal>
        ensures { result ≡ row_of row.now.format.scales output row.now.weights.now row.now.bias row.now.inputs.now };
}

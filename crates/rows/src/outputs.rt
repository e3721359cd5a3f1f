// All outputs of a stage of rows.
ghost use Rattle.std.specs.Prelude.{◌≡◌, ◌<◌, ◌≤◌, length, IfErr};
ghost use Rattle.stages.specs.Kind.{map_ok};
ghost use Rattle.rows.specs.Layout.{row_at, outputs_from};
ghost use Rattle.rows.specs.Plan.{Windows};

use crate::coefficients::Coefficients;
use crate::evaluated::Evaluated;
use crate::row::Row;
use crate::row_format::RowFormat;
use arrayvec::ArrayVec;

// The formats of the rows, their weights and biases, and the inputs that they are over.
#[derive(Drop)]
pub(crate) struct Outputs<'a, V> {
    pub(crate) format: RowFormat,
    pub(crate) coefficients: Coefficients<'a>,
    pub(crate) inputs: &'a [V],
    ghost windows: { Windows coefficients.layout (length inputs.now) },
}

impl<V: Evaluated> Outputs<'_, V> {
    // One output over its window of the inputs.
    fn one(&self, output: u8) -> Result<V, V::Refusal>
        requires { output < self.now.coefficients.layout.outputs }
        ensures { result ≡ row_at (V.row_of self.now.format.scales) self.now.coefficients.layout self.now.coefficients.bytes.now self.now.inputs.now output }
    {
        let layout = self.coefficients.layout;
        let start = layout.start(output);
        let end = start + usize::from(layout.length);
        let weights = self.coefficients.weights(output);
        let row = Row {
            format: self.format,
            weights: &weights,
            bias: self.coefficients.bias(output),
            inputs: &self.inputs[start..end],
        };
        V::output(&row, output)
    }

    // Each output in turn, in a lent list, or the first refusal, which leaves the list as it is.
    #[tactic(auto, using(crate::specs::Outputs::outputs_more, crate::specs::Outputs::outputs_fail))]
    pub(crate) fn all(&self, out: &mut ArrayVec<V, 64>) -> Result<(), V::Refusal>
        ensures answer { map_ok (λ _. out.new.items) result ≡ outputs_from (row_at (V.row_of self.now.format.scales) self.now.coefficients.layout self.now.coefficients.bytes.now self.now.inputs.now) 0 self.now.coefficients.layout.outputs }
        ensures stays { IfErr result (λ _. out.new ≡ out.old) }
    {
        let mut made = ArrayVec::new();
        for o in 0..self.coefficients.layout.outputs {
            made.push(self.one(o)?);
        }
        *out = made;
        Ok(())
    }
}

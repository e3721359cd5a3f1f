// The walk of a row, one text for every quantity.
ghost use Rattle.std.specs.Prelude.{◌≡◌};
ghost use Rattle.rows.specs.Row.{weight_codes, bias_code};
ghost use Rattle.rows.specs.Walk.{walked};

use super::Row;
use crate::quantity::Quantity;

impl<V: Copy> Row<'_, V> {
    // The bias, and to it each product in input order, or nothing if a sum on the way does not fit.
    pub(crate) fn sum<Q: Quantity<Input = V>>(&self) -> Option<Q>
        ensures { result ≡ walked (Q.fitting self.now.format.scales.bits) Q.plus Q.times (Q.biased (bias_code self.now.format.scales self.now.bias)) (weight_codes self.now.format.scales self.now.weights.now) self.now.inputs.now }
    {
        let bits = self.format.scales.bits;
        let mut sum = Q::from_bias(self.format.bias_code(self.bias));
        for (weight, input) in self.weights.iter().zip(self.inputs) {
            if !sum.fits(bits) {
                return None;
            }
            sum = sum.plus(Q::product(self.format.weight_code(*weight), *input));
        }
        sum.fits(bits).then_some(sum)
    }
}

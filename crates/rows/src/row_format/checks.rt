// How the formats of a row are made, and the codes of its weights and its bias.
ghost use Rattle.std.specs.Prelude.{◌≡◌, ◌≤◌, is_some, IfSome};
ghost use Rattle.rows.specs.Scales.{scales_fit, dropped};
ghost use Rattle.rows.specs.Row.{weight_code, bias_code};

use super::RowFormat;
use crate::scales::Scales;
use fixed::floor::floor_shift;
use fixed::format::Format;

impl RowFormat {
    // Answers exactly where the formats go together. It has a premise, which a `TryFrom` may not have.
    pub(crate) fn new(scales: Scales) -> Option<RowFormat>
        requires { (16 ≤ scales.bits) × ((scales.bits ≤ 56) × (scales.fx ≤ 20)) }
        ensures test { is_some result ≡ scales_fit scales }
        ensures parts { IfSome result (λ f. f.scales ≡ scales) }
    {
        let weighted = matches!(scales.fw, 4..=20) && matches!(scales.ww, 2..=24);
        if !weighted || Format::new(scales.wy, scales.fy).is_none() {
            return None;
        }
        let product = scales.fw + scales.fx;
        if product <= 24 && scales.fy <= product {
            Some(RowFormat { scales })
        } else {
            None
        }
    }

    // The bits that the output drops from a sum.
    pub(crate) fn dropped(&self) -> u8
        ensures { result ≡ dropped self.now.scales }
    {
        self.scales.fw + self.scales.fx - self.scales.fy
    }

    pub(crate) fn weight_code(&self, weight: i32) -> i32
        ensures { result ≡ weight_code self.now.scales weight }
    {
        floor_shift(i64::from(weight), u32::from(24 - self.scales.fw)) as i32
    }

    pub(crate) fn bias_code(&self, bias: i32) -> i64
        ensures { result ≡ bias_code self.now.scales bias }
    {
        floor_shift(
            i64::from(bias),
            u32::from(24 - self.scales.fw - self.scales.fx),
        )
    }
}

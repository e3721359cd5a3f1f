// A wire as a certificate tells it.
ghost use Rattle.std.specs.Prelude.{◌≡◌, Some};
ghost use Rattle.calls.specs.Certified.{certified_row};
ghost use Rattle.calls.specs.Texts.{certified_text};

use fixed::row::WireRow;
use std::fmt;

// The wire, and the bits that its codes need.
#[derive(Clone, Copy, PartialEq, Eq, Debug, Default)]
pub struct CertificateRow {
    pub wire: WireRow,
    pub bits: u32,
}

impl From<WireRow> for CertificateRow {
    ghost from_gives = { λ wire row. row ≡ certified_row wire };

    fn from(wire: WireRow) -> CertificateRow {
        CertificateRow {
            wire,
            bits: wire.bits_needed(),
        }
    }
}

impl fmt::Display for CertificateRow {
    ghost output = { λ row. Some (certified_text row) };

    #[tactic(auto, unfolding(crate::specs::Texts::certified_text))]
    fn fmt<W: fmt::Write>(&self, f: &mut fmt::Formatter<W>) -> fmt::Result {
        let CertificateRow { wire, bits } = *self;
        let WireRow { low, high, error } = wire;
        write!(f, "low {low} high {high} error {error} bits {bits}")
    }
}

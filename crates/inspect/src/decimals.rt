// Grains as decimals that a person can read.
ghost use Rattle.std.specs.Prelude.{◌≡◌, ◌+◌, ◌*◌, ◌≤◌, Some};
ghost use Rattle.inspect.specs.Decimals.{in_places, unsigned_text, grains_text};

use std::fmt;

// Units of 10^-8 in one.
const PER_ONE: u128 = 100_000_000;

// A number of grains, with its sign.
#[derive(Clone, Copy)]
pub struct Grains(pub i64);

// A number of units of 10^-8.
#[derive(Clone, Copy)]
pub struct Places(pub u128);

// To the nearest unit of 10^-8.
pub fn in_places(grains: u64) -> u128
    ensures value { result ≡ in_places grains }
    ensures nearest { (2 * (result * 16777216) ≤ 2 * (grains * 100000000) + 16777216) × (2 * (grains * 100000000) ≤ 2 * (result * 16777216) + 16777216) }
{
    (u128::from(grains) * PER_ONE + 8_388_608) / 16_777_216
}

impl fmt::Display for Places {
    ghost output = { λ x. Some (unsigned_text x.0) };

    #[tactic(auto, using(crate::proofs::Eight::eight_places))]
    fn fmt<W: fmt::Write>(&self, f: &mut fmt::Formatter<W>) -> fmt::Result {
        let whole = self.0 / PER_ONE;
        let fraction = (self.0 % PER_ONE) as u32;
        write!(f, "{whole}.{fraction:08}")
    }
}

impl fmt::Display for Grains {
    ghost output = { λ x. Some (grains_text x.0) };

    #[tactic(auto, unfolding(crate::specs::Decimals::grains_text))]
    fn fmt<W: fmt::Write>(&self, f: &mut fmt::Formatter<W>) -> fmt::Result {
        let grains = self.0;
        let places = Places(in_places(grains.unsigned_abs()));
        if grains < 0 {
            write!(f, "-{places}")
        } else {
            write!(f, "{places}")
        }
    }
}

// What a row is walked over: codes, or ranges of codes.
ghost use Rattle.std.specs.Prelude.{◌≡◌, ℕ, ◌^◌, ◌≤◌, Bool, true, ℤ, ◌+ℤ◌, ◌*ℤ◌, unsigned_abs};
ghost use Rattle.fixed.specs.Word.{fits_word};
ghost use Rattle.rows.specs.Range.{range_plus, range_times, range_fits};
ghost use Rattle.rows.specs.Sizes.{fits_wider, range-wider};

use crate::range::SumRange;
use fixed::row::WireRow;
use fixed::word::fits_word;

// A bias, a sum, a product of a weight code and an input, and a test for the accumulator's bits.
// `Add` and `Mul` are no plainer: what a sum asks is said by the trait's own test, so they would need laws that tie them to it.
pub(crate) trait Quantity: Copy {
    type Input: Copy;

    ghost biased: { ℤ → Self };

    ghost plus: { Self → Self → Self };

    ghost times: { ℤ → Self.Input → Self };

    ghost fitting: { ℕ → Self → Bool };

    // small enough to be added to what fits 56 bits
    ghost small: { Self → Type 0 };

    fn from_bias(bias: i64) -> Self
        ensures { result ≡ biased bias };

    fn plus(self, other: Self) -> Self
        requires { (fitting 56 self ≡ true) × (small other) }
        ensures { result ≡ plus self other };

    fn product(weight: i32, input: Self::Input) -> Self
        ensures value { result ≡ times weight input }
        ensures small { small result };

    fn fits(self, bits: u8) -> bool
        ensures { result ≡ fitting bits self };

    ghost wider: { (v w : ℕ) (x : Self) → v ≤ w → fitting v x ≡ true → fitting w x ≡ true };
}

impl Quantity for i64 {
    type Input = i32;

    ghost biased = { λ b. b };

    ghost plus = { ◌+ℤ◌ };

    ghost times = { ◌*ℤ◌ };

    ghost fitting = { fits_word };

    ghost small = { λ z. unsigned_abs z ≤ 2 ^ 62 };

    ghost wider = { fits_wider };

    fn from_bias(bias: i64) -> i64 {
        bias
    }

    fn plus(self, other: i64) -> i64 {
        self + other
    }

    fn product(weight: i32, input: i32) -> i64 {
        i64::from(weight) * i64::from(input)
    }

    fn fits(self, bits: u8) -> bool {
        fits_word(self, u32::from(bits))
    }
}

impl Quantity for SumRange {
    type Input = WireRow;

    ghost biased = { λ b. record { low = b; high = b } };

    ghost plus = { range_plus };

    ghost times = { range_times };

    ghost fitting = { range_fits };

    ghost small = { λ r. (unsigned_abs r.low ≤ 2 ^ 62) × (unsigned_abs r.high ≤ 2 ^ 62) };

    ghost wider = { range-wider };

    fn from_bias(bias: i64) -> SumRange {
        SumRange {
            low: bias,
            high: bias,
        }
    }

    fn plus(self, other: SumRange) -> SumRange {
        SumRange {
            low: self.low.plus(other.low),
            high: self.high.plus(other.high),
        }
    }

    fn product(weight: i32, input: WireRow) -> SumRange {
        let low = <i64 as Quantity>::product(weight, input.low);
        let high = <i64 as Quantity>::product(weight, input.high);
        if weight < 0 {
            SumRange {
                low: high,
                high: low,
            }
        } else {
            SumRange { low, high }
        }
    }

    fn fits(self, bits: u8) -> bool {
        self.low.fits(bits) && self.high.fits(bits)
    }
}

// How many bits a number needs.
ghost use Rattle.std.specs.Prelude.{◌≡◌, ℕ, ◌+◌, ◌≤◌, nat_lt};
ghost use Rattle.std.specs.Int.Signed.{mag};
ghost use Rattle.fixed.specs.Word.{fits_word, Least};

// The bits below the sign as a number, inverted where the sign is set: n for n, and n - 1 for -n.
pub fn below_sign(value: i64) -> u64
    ensures { result ≡ mag value }
{
    if value < 0 {
        (-(value + 1)) as u64
    } else {
        value as u64
    }
}

// The bits that the codes from low to high need below their sign: none from -1 to 0.
pub(crate) fn length(low: i64, high: i64) -> u32
    ensures least { Least low high (result + 1) }
    ensures bound { result ≤ 64 }
{
    let below = below_sign(low.min(0)).leading_zeros();
    let above = below_sign(high.max(0)).leading_zeros();
    64 - below.min(above)
}

// The bits of one value below its sign: a word holds the value exactly where it has more.
fn value_length(value: i64) -> u32
    ensures words { (w : ℕ) → nat_lt result w ≡ fits_word w value }
    ensures least { Least value value (result + 1) }
    ensures bound { result ≤ 64 }
{
    length(value, value)
}

// The least word that holds the value.
pub fn word_needed(value: i64) -> u32
    ensures { Least value value result }
{
    value_length(value) + 1
}

pub fn fits_word(value: i64, bits: u32) -> bool
    ensures { result ≡ fits_word bits value }
{
    value_length(value) < bits
}

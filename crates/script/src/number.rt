// Decimal numbers.
ghost use Rattle.std.specs.Prelude.{◌≡◌};
ghost use Rattle.script.specs.Numbers.{unsigned_in, signed_in};

// The number that digits write. A sign is none of them, and zeros may lead.
pub(crate) fn unsigned_in(digits: &[u8]) -> Option<u32>
    ensures { result ≡ unsigned_in digits.now }
{
    if digits.is_empty() {
        return None;
    }
    let mut value = 0u32;
    for c in digits {
        let digit = char::from(*c).to_digit(10)?;
        value = value.checked_mul(10)?.checked_add(digit)?;
    }
    Some(value)
}

// A number with at most one minus in front.
pub(crate) fn signed_in(part: &[u8]) -> Option<i32>
    ensures { result ≡ signed_in part.now }
{
    match part {
        [b'-', digits @ ..] => i32::try_from(-i64::from(unsigned_in(digits)?)).ok(),
        _ => i32::try_from(unsigned_in(part)?).ok(),
    }
}

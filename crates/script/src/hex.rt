// Bytes in hexadecimal digits.
ghost use Rattle.std.specs.Prelude.{◌≡◌, IfOk, vec_items};
ghost use Rattle.std.specs.Option.{option_map};
ghost use Rattle.script.specs.Numbers.{hex_digit, byte_by, bytes_in};

use std::alloc::{AllocError, Global};

// The byte that two digits write, in either case.
fn hex_byte(high: u8, low: u8) -> Option<u8>
    ensures { result ≡ byte_by (hex_digit high) (hex_digit low) }
{
    let high = char::from(high).to_digit(16)?;
    let low = char::from(low).to_digit(16)?;
    Some((16 * high + low) as u8)
}

// The bytes of a file, if the digits come in pairs. A slice pattern takes two and says what is left; chunks would hand an odd digit
// back apart.
pub(crate) fn bytes_in(heap: Global, digits: &[u8]) -> Result<Option<Vec<u8>>, AllocError>
    ensures { IfOk result (λ o. option_map vec_items o ≡ bytes_in digits.now) }
{
    let mut bytes = Vec::new(heap);
    let mut left = digits;
    while let [high, low, rest @ ..] = left {
        let Some(byte) = hex_byte(*high, *low) else {
            return Ok(None);
        };
        bytes.push(byte)?;
        left = rest;
    }
    Ok(left.is_empty().then_some(bytes))
}

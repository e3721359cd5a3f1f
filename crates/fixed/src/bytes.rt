// Numbers of several bytes, high byte first. Bytes past the end are read as 0, so that no place is out of bounds.
ghost use Rattle.std.specs.Prelude.{◌≡◌, slice_index};
ghost use Rattle.fixed.specs.Bytes.{u16_at, u32_at, i32_at};

fn byte_at(bytes: &[u8], i: usize) -> u8
    ensures { result ≡ slice_index bytes.now i }
{
    bytes.get(i).copied().unwrap_or(0)
}

pub fn u8_at(bytes: &[u8], i: u32) -> u8
    ensures { result ≡ slice_index bytes.now i }
{
    byte_at(bytes, i as usize)
}

pub fn u16_at(bytes: &[u8], i: u32) -> u16
    ensures { result ≡ u16_at bytes.now i }
{
    let i = i as usize;
    u16::from_be_bytes([byte_at(bytes, i), byte_at(bytes, i + 1)])
}

// Two bytes or four, each written out. Tried as one function over their number: with `array::from_fn`, and with a part of an
// array of const length, the proof did not close; a loop over the places is longer than the places.
pub fn u32_at(bytes: &[u8], i: u32) -> u32
    ensures { result ≡ u32_at bytes.now i }
{
    let i = i as usize;
    u32::from_be_bytes([
        byte_at(bytes, i),
        byte_at(bytes, i + 1),
        byte_at(bytes, i + 2),
        byte_at(bytes, i + 3),
    ])
}

pub fn i32_at(bytes: &[u8], i: u32) -> i32
    ensures { result ≡ i32_at bytes.now i }
{
    u32_at(bytes, i).cast_signed()
}

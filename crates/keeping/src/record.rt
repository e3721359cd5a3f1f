// What the records of these kinds have in common: their size.
ghost use Rattle.std.specs.Prelude.{◌≡◌};
ghost use Rattle.stages.specs.Kind.{size_of};

use fixed::bytes::u8_at;

// The second byte, or 0: a record of one byte is refused by its length at the latest.
pub(crate) fn size_of(bytes: &[u8]) -> u8
    ensures { result ≡ size_of bytes.now }
{
    u8_at(bytes, 1)
}

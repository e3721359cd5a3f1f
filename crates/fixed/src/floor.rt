// Shifts that round toward minus infinity.
ghost use Rattle.std.specs.Prelude.{◌≡◌, ◌^◌};
ghost use Rattle.fixed.specs.Floor.{floor_shift, Floors};

// The value by 2^places, whatever the number of places.
pub fn floor_shift(value: i64, places: u32) -> i64
    ensures value { result ≡ floor_shift value places }
    ensures floors { Floors value (2 ^ places) result }
{
    value >> places.min(63)
}

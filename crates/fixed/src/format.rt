// Fixed-point formats, with their limits in the type.
ghost use Rattle.fixed.specs.Format.{IsFormat};

// A two's complement word with some of its bits after the point.
#[derive(Clone, Copy)]
pub struct Format {
    word: u8,
    fraction: u8,
    ghost limits: { IsFormat word fraction },
}

pub mod makes;

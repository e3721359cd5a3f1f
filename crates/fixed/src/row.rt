// Wires as plain rows.
ghost use Rattle.std.specs.Prelude.{◌≡◌, ◌+◌, ◌≤◌};
ghost use Rattle.fixed.specs.Word.{Least, bits_needed};

use crate::word::length;

// One number that is passed between stages: the least and the greatest code, and the error in grains.
#[derive(Clone, Copy, PartialEq, Eq, Debug, Default)]
pub struct WireRow {
    pub low: i32,
    pub high: i32,
    pub error: u32,
}

impl WireRow {
    // The bits needed below the sign.
    fn length(&self) -> u32
        ensures value { result + 1 ≡ bits_needed self.now.low self.now.high }
        ensures least { Least self.now.low self.now.high (result + 1) }
        ensures bound { result ≤ 64 }
    {
        length(i64::from(self.low), i64::from(self.high))
    }

    // The least word that holds every code from low to high.
    pub fn bits_needed(&self) -> u32
        ensures value { result ≡ bits_needed self.now.low self.now.high }
        ensures least { Least self.now.low self.now.high result }
    {
        self.length() + 1
    }
}

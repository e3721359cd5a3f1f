// The fields of a header as they stand in a file.
ghost use Rattle.std.specs.Prelude.{◌≡◌};
ghost use Rattle.settings.specs.Limits.{fields_of, counts_fit, words_fit, times_fit};

use fixed::bytes::{i32_at, u8_at, u16_at, u32_at};
use fixed::format::Format;
use fixed::wire::checks::MOST_ERROR;

#[derive(Clone, Copy, PartialEq, Eq, Debug)]
pub struct Fields {
    pub inputs: u8,
    pub word: u8,
    pub fraction: u8,
    pub accumulator: u8,
    pub stages: u8,
    pub allowed_error: u32,
    pub level: i32,
    pub rise: u16,
    pub fall: u16,
    pub delay: u32,
}

impl Fields {
    pub(crate) fn read(bytes: &[u8]) -> Fields
        ensures { result ≡ fields_of bytes.now }
    {
        Fields {
            inputs: u8_at(bytes, 0),
            word: u8_at(bytes, 1),
            fraction: u8_at(bytes, 2),
            accumulator: u8_at(bytes, 3),
            stages: u8_at(bytes, 4),
            allowed_error: u32_at(bytes, 5),
            level: i32_at(bytes, 9),
            rise: u16_at(bytes, 13),
            fall: u16_at(bytes, 15),
            delay: u32_at(bytes, 17),
        }
    }

    pub fn counts_fit(&self) -> bool
        ensures { result ≡ counts_fit self.now }
    {
        matches!(self.inputs, 1..=64) && matches!(self.stages, 1..=16)
    }

    pub fn words_fit(&self) -> bool
        ensures { result ≡ words_fit self.now }
    {
        Format::new(self.word, self.fraction).is_some()
            && matches!(self.accumulator, 16..=56)
            && self.allowed_error <= MOST_ERROR
    }

    pub fn times_fit(&self) -> bool
        ensures { result ≡ times_fit self.now }
    {
        1 <= self.rise && matches!(self.delay, 1..=1_000_000)
    }
}

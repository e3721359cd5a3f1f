// The formats that meet in a row.

// Weight fraction bits and word, input fraction bits, output fraction bits and word, and the accumulator's bits.
#[derive(Clone, Copy, PartialEq, Eq, Debug)]
pub struct Scales {
    pub fw: u8,
    pub ww: u8,
    pub fx: u8,
    pub fy: u8,
    pub wy: u8,
    pub bits: u8,
}

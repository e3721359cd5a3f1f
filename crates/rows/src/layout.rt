// Where the rows of a stage stand in its record.
ghost use Rattle.std.specs.Prelude.{◌≡◌, ◌*◌};

// How many outputs there are, how many weights each has, and how many numbers the record holds. From one output to the
// next, how many numbers further its weights stand, and how many inputs further its window. The number that is the
// first bias, and how many numbers further the next stands.
#[derive(Clone, Copy, PartialEq, Eq, Debug)]
pub struct Layout {
    pub outputs: u8,
    pub length: u8,
    pub numbers: u16,
    pub stride: u8,
    pub slide: u8,
    pub biases: u16,
    pub spacing: u8,
}

impl Layout {
    // The input that the window of an output begins at.
    pub(crate) fn start(&self, output: u8) -> usize
        ensures { result ≡ output * self.now.slide }
    {
        usize::from(output) * usize::from(self.slide)
    }
}

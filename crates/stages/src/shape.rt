// What stands before or after a stage, and why a stage is refused.

// How many wires there are, and the format that they share.
#[derive(Clone, Copy, PartialEq, Eq, Debug)]
pub struct Shape {
    pub count: u8,
    pub word: u8,
    pub fraction: u8,
}

// Why a kind gives no wires. Outputs count from 0.
#[derive(Clone, Copy, PartialEq, Eq, Debug)]
pub enum KindRefusal {
    Unknown,
    Size,
    Length,
    Format,
    WeightCode { output: u8 },
    RangeSum { output: u8 },
    RangeOutput { output: u8 },
    WireError { output: u8 },
}

// Why a kind gives no codes.
#[derive(Clone, Copy, PartialEq, Eq, Debug)]
pub enum RunRefusal {
    Sum { output: u8 },
    Output { output: u8 },
}

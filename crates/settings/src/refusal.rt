// Why a call says no.
ghost use Rattle.std.specs.Prelude.{◌≡◌, Some};
ghost use Rattle.settings.specs.Refusals.{number_of, further_of, further_text, refusal_text};

use std::fmt;

// Every refusal of a load, a frame, a reset or a question. Stages count from 1, inputs and outputs from 0.
#[derive(Clone, Copy, PartialEq, Eq, Debug)]
pub enum Refusal {
    FileSize,
    Version,
    HeaderLength,
    HeaderField,
    InputWire { input: u8 },
    RecordLength { stage: u8 },
    UnknownKind { stage: u8 },
    StageSize { stage: u8 },
    StageLength { stage: u8 },
    StageFormat { stage: u8 },
    WeightCode { stage: u8, output: u8 },
    RangeSum { stage: u8, output: u8 },
    RangeOutput { stage: u8, output: u8 },
    WireError { stage: u8, output: u8 },
    TrailingBytes { stage: u8 },
    OutputCount { stage: u8 },
    AllowedError { stage: u8 },
    NoFile,
    CodeCount,
    CodeRange { input: u8 },
    NoStage,
    RunSum { output: u8 },
    RunOutput { output: u8 },
    ShortBuffer,
}

// What a refusal returns after its number.
#[derive(Clone, Copy, PartialEq, Eq, Debug)]
pub enum Further {
    Nothing,
    One(u8),
    Two(u8, u8),
}

impl Refusal {
    pub fn number(self) -> u8
        ensures { result ≡ number_of self }
    {
        match self {
            Refusal::FileSize => 10,
            Refusal::Version => 11,
            Refusal::HeaderLength => 12,
            Refusal::HeaderField => 13,
            Refusal::InputWire { .. } => 14,
            Refusal::RecordLength { .. } => 20,
            Refusal::UnknownKind { .. } => 21,
            Refusal::StageSize { .. } => 22,
            Refusal::StageLength { .. } => 23,
            Refusal::StageFormat { .. } => 24,
            Refusal::WeightCode { .. } => 25,
            Refusal::RangeSum { .. } => 26,
            Refusal::RangeOutput { .. } => 27,
            Refusal::WireError { .. } => 28,
            Refusal::TrailingBytes { .. } => 30,
            Refusal::OutputCount { .. } => 31,
            Refusal::AllowedError { .. } => 32,
            Refusal::NoFile => 40,
            Refusal::CodeCount => 41,
            Refusal::CodeRange { .. } => 42,
            Refusal::NoStage => 43,
            Refusal::RunSum { .. } => 44,
            Refusal::RunOutput { .. } => 45,
            Refusal::ShortBuffer => 46,
        }
    }

    pub fn further(self) -> Further
        ensures { result ≡ further_of self }
    {
        match self {
            Refusal::FileSize | Refusal::Version | Refusal::HeaderLength | Refusal::HeaderField =>
                Further::Two(0, 0),
            Refusal::InputWire { input } => Further::Two(0, input),
            Refusal::RecordLength { stage }
            | Refusal::UnknownKind { stage }
            | Refusal::StageSize { stage }
            | Refusal::StageLength { stage }
            | Refusal::StageFormat { stage }
            | Refusal::TrailingBytes { stage }
            | Refusal::OutputCount { stage }
            | Refusal::AllowedError { stage } => Further::Two(stage, 0),
            Refusal::WeightCode { stage, output }
            | Refusal::RangeSum { stage, output }
            | Refusal::RangeOutput { stage, output }
            | Refusal::WireError { stage, output } => Further::Two(stage, output),
            Refusal::CodeRange { input } => Further::One(input),
            Refusal::RunSum { output } | Refusal::RunOutput { output } => Further::One(output),
            Refusal::NoFile | Refusal::CodeCount | Refusal::NoStage | Refusal::ShortBuffer =>
                Further::Nothing,
        }
    }
}

impl fmt::Display for Further {
    ghost output = { λ x. Some (further_text x) };

    fn fmt<W: fmt::Write>(&self, f: &mut fmt::Formatter<W>) -> fmt::Result {
        match *self {
            Further::Nothing => Ok(()),
            Further::One(a) => write!(f, " {a}"),
            Further::Two(a, b) => write!(f, " {a} {b}"),
        }
    }
}

impl fmt::Display for Refusal {
    ghost output = { λ x. Some (refusal_text x) };

    fn fmt<W: fmt::Write>(&self, f: &mut fmt::Formatter<W>) -> fmt::Result {
        let number = self.number();
        let further = self.further();
        write!(f, "refused {number}{further}")
    }
}

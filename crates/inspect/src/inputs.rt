// The inputs of a settings file, each on a line of its own.
ghost use Rattle.std.specs.Prelude.{Some};
ghost use Rattle.inspect.specs.Account.{code_text, range_text, error_text, input_text, inputs_text};

use crate::decimals::Grains;
use fixed::format::Format;
use fixed::row::WireRow;
use std::fmt;

// A code in a format, and its value.
#[derive(Clone, Copy)]
pub struct Code {
    pub format: Format,
    pub code: i32,
}

// From the least code of an input to its greatest.
#[derive(Clone, Copy)]
pub struct CodeRange {
    pub format: Format,
    pub row: WireRow,
}

// The error of an input, and the bits that its codes need.
#[derive(Clone, Copy)]
pub struct ErrorAndBits(pub WireRow);

// All that there is to say of one input.
#[derive(Clone, Copy)]
pub struct InputLine {
    pub format: Format,
    pub index: usize,
    pub row: WireRow,
}

// The inputs in their order, counted from 0.
#[derive(Clone, Copy)]
pub struct InputLines<'a> {
    pub format: Format,
    pub rows: &'a [WireRow],
}

impl fmt::Display for Code {
    ghost output = { λ x. Some (code_text x.format.fraction x.code) };

    #[tactic(auto, unfolding(crate::specs::Account::code_text))]
    fn fmt<W: fmt::Write>(&self, f: &mut fmt::Formatter<W>) -> fmt::Result {
        let number = self.code;
        let value = Grains(self.format.grains(self.code));
        write!(f, "{number} ({value})")
    }
}

impl fmt::Display for CodeRange {
    ghost output = { λ x. Some (range_text x.format.fraction x.row) };

    #[tactic(auto, unfolding(crate::specs::Account::range_text))]
    fn fmt<W: fmt::Write>(&self, f: &mut fmt::Formatter<W>) -> fmt::Result {
        let format = self.format;
        let low = Code {
            format,
            code: self.row.low,
        };
        let high = Code {
            format,
            code: self.row.high,
        };
        write!(f, "low {low}, high {high}")
    }
}

impl fmt::Display for ErrorAndBits {
    ghost output = { λ x. Some (error_text x.0) };

    #[tactic(auto, unfolding(crate::specs::Account::error_text))]
    fn fmt<W: fmt::Write>(&self, f: &mut fmt::Formatter<W>) -> fmt::Result {
        let error = self.0.error;
        let value = Grains(i64::from(error));
        let bits = self.0.bits_needed();
        write!(f, "error {error} grains ({value}), bits {bits}")
    }
}

impl fmt::Display for InputLine {
    ghost output = { λ x. Some (input_text x.format.fraction x.index x.row) };

    #[tactic(auto, unfolding(crate::specs::Account::input_text))]
    fn fmt<W: fmt::Write>(&self, f: &mut fmt::Formatter<W>) -> fmt::Result {
        let InputLine { format, index, row } = *self;
        let range = CodeRange { format, row };
        let error = ErrorAndBits(row);
        writeln!(f, "input {index}: {range}, {error}")
    }
}

impl fmt::Display for InputLines<'_> {
    ghost output = { λ x. Some (inputs_text x.format.fraction 0 x.rows.now) };

    fn fmt<W: fmt::Write>(&self, f: &mut fmt::Formatter<W>) -> fmt::Result {
        let format = self.format;
        for (index, row) in self.rows.iter().enumerate() {
            let row = *row;
            let line = InputLine { format, index, row };
            write!(f, "{line}")?;
        }
        Ok(())
    }
}

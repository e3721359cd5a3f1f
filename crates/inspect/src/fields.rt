// The fields of a header, as lines.
ghost use Rattle.std.specs.Prelude.{Some};
ghost use Rattle.inspect.specs.Account.{format_text, allowed_text, pickup_text, fields_text};

use crate::decimals::Grains;
use settings::fields::Fields;
use std::fmt;

// The version, the inputs' count and format, the accumulator and the stages.
#[derive(Clone, Copy)]
pub struct FormatLines(pub Fields);

// The largest bound that is accepted.
#[derive(Clone, Copy)]
pub struct AllowedLine(pub Fields);

// What picks up and trips.
#[derive(Clone, Copy)]
pub struct PickupLines(pub Fields);

// All that a header says.
#[derive(Clone, Copy)]
pub struct FieldLines(pub Fields);

impl fmt::Display for FormatLines {
    ghost output = { λ x. Some (format_text x.0) };

    #[tactic(auto, unfolding(crate::specs::Account::format_text))]
    fn fmt<W: fmt::Write>(&self, f: &mut fmt::Formatter<W>) -> fmt::Result {
        let Fields {
            inputs,
            word,
            fraction,
            accumulator,
            stages,
            ..
        } = self.0;
        writeln!(
            f,
            "version 1\ninputs {inputs}\nword {word}, fraction {fraction}\naccumulator {accumulator}\nstages {stages}"
        )
    }
}

impl fmt::Display for AllowedLine {
    ghost output = { λ x. Some (allowed_text x.0) };

    #[tactic(auto, unfolding(crate::specs::Account::allowed_text))]
    fn fmt<W: fmt::Write>(&self, f: &mut fmt::Formatter<W>) -> fmt::Result {
        let allowed = self.0.allowed_error;
        let value = Grains(i64::from(allowed));
        writeln!(f, "allowed error {allowed} grains, {value}")
    }
}

impl fmt::Display for PickupLines {
    ghost output = { λ x. Some (pickup_text x.0) };

    #[tactic(auto, unfolding(crate::specs::Account::pickup_text))]
    fn fmt<W: fmt::Write>(&self, f: &mut fmt::Formatter<W>) -> fmt::Result {
        let Fields {
            level,
            rise,
            fall,
            delay,
            ..
        } = self.0;
        let value = Grains(i64::from(level));
        writeln!(
            f,
            "pickup level {level} grains, {value}\nrise {rise}\nfall {fall}\ndelay {delay}"
        )
    }
}

impl fmt::Display for FieldLines {
    ghost output = { λ x. Some (fields_text x.0) };

    #[tactic(auto, unfolding(crate::specs::Account::fields_text))]
    fn fmt<W: fmt::Write>(&self, f: &mut fmt::Formatter<W>) -> fmt::Result {
        let formats = FormatLines(self.0);
        let allowed = AllowedLine(self.0);
        let pickup = PickupLines(self.0);
        write!(f, "{formats}{allowed}{pickup}")
    }
}

// Checked headers, with their limits in the type.
ghost use Rattle.settings.specs.Limits.{Counts, Words, Times};

use crate::fields::Fields;

#[derive(Clone, Copy)]
pub struct Header {
    fields: Fields,
    ghost counts: { Counts fields },
    ghost words: { Words fields },
    ghost times: { Times fields },
}

pub mod checks;

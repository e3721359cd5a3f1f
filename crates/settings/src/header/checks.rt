// How a header is made from its fields.
ghost use Rattle.std.specs.Prelude.{◌≡◌, is_some, IfSome};
ghost use Rattle.settings.specs.Limits.{in_limits};

use super::Header;
use crate::fields::Fields;
use fixed::format::Format;

impl Header {
    // Answers exactly where every field is inside its limits. An Option and no `TryFrom`: an error would say no more than `None`.
    pub fn new(fields: Fields) -> Option<Header>
        ensures test { is_some result ≡ in_limits fields }
        ensures parts { IfSome result (λ h. h.fields ≡ fields) }
    {
        if fields.counts_fit() && fields.words_fit() && fields.times_fit() {
            Some(Header { fields })
        } else {
            None
        }
    }

    pub fn fields(&self) -> Fields
        ensures { result ≡ self.now.fields }
    {
        self.fields
    }

    // The format of the inputs.
    pub fn format(&self) -> Format
        ensures { (result.word ≡ self.now.fields.word) × (result.fraction ≡ self.now.fields.fraction) }
    {
        Format::new(self.fields.word, self.fields.fraction).unwrap()
    }
}

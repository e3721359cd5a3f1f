// How a format is made and read.
ghost use Rattle.std.specs.Prelude.{◌≡◌, ◌^◌, ◌≤◌, pos, ◌*ℤ◌, is_some, IfSome};
ghost use Rattle.fixed.specs.Format.{is_format, grains_of};

use super::Format;

impl Format {
    // Answers exactly where the two numbers are a format. An Option and no `TryFrom` of a pair: an error would say no more than `None`.
    pub fn new(word: u8, fraction: u8) -> Option<Format>
        ensures test { is_some result ≡ is_format word fraction }
        ensures parts { IfSome result (λ f. (f.word ≡ word) × (f.fraction ≡ fraction)) }
    {
        let sized = matches!(word, 2..=24) && fraction <= 20;
        if sized && fraction < word && word <= fraction + 10 {
            Some(Format { word, fraction })
        } else {
            None
        }
    }

    pub fn word(&self) -> u8
        ensures { result ≡ self.now.word }
    {
        self.word
    }

    pub fn fraction(&self) -> u8
        ensures { result ≡ self.now.fraction }
    {
        self.fraction
    }

    // What a code stands for.
    pub fn grains(&self, code: i32) -> i64
        ensures { result ≡ grains_of self.now.fraction code }
    {
        scaled(code, 24 - self.fraction)
    }
}

fn scaled(code: i32, places: u8) -> i64
    requires { places ≤ 24 }
    ensures { result ≡ code *ℤ pos (2 ^ places) }
{
    i64::from(code) * (1i64 << places)
}

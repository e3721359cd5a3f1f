// The memory that a relay keeps its file in.
ghost use Rattle.std.specs.Prelude.{◌≤◌};

// A fixed memory, and how much of it is in use; nothing where no file was taken.
#[derive(Clone, Copy)]
pub struct Kept {
    bytes: [u8; 65536],
    len: usize,
    ghost few: { len ≤ 65536 },
}

impl Kept {
    ghost use Rattle.std.specs.Prelude.{◌≡◌, length, None as none};
    ghost use Rattle.std.specs.Option.{option_map};
    ghost use Rattle.relay.specs.Kept.{bytes_in, file_in};

    pub(crate) fn empty() -> Kept
        ensures { file_in (bytes_in result) ≡ none }
    {
        Kept {
            bytes: [0; 65536],
            len: 0,
        }
    }

    pub(crate) fn keep(&mut self, file: &[u8])
        requires { length file.now ≤ 65536 }
        ensures { bytes_in self.new ≡ file.now }
    {
        self.bytes[0..file.len()].copy_from_slice(file);
        self.len = file.len();
    }

    // An Option: the calls say themselves that there is no file, as they say their other refusals.
    pub(crate) fn file(&self) -> Option<&[u8]>
        ensures { option_map (λ x. x.now) result ≡ file_in (bytes_in self.now) }
    {
        if self.len == 0 {
            None
        } else {
            Some(&self.bytes[0..self.len])
        }
    }
}

// Records, each led by its length in two bytes.
ghost use Rattle.std.specs.Prelude.{◌≡◌};
ghost use Rattle.std.specs.Option.{option_map};
ghost use Rattle.settings.specs.Records.{split_record};
ghost use Rattle.settings.specs.Answer.{split_in};

// A record, and the bytes after it.
#[derive(Clone, Copy)]
pub struct Record<'a> {
    pub front: &'a [u8],
    pub rest: &'a [u8],
}

// The record in front, or none where it runs past the end.
pub fn split_record(bytes: &[u8]) -> Option<Record<'_>>
    ensures { option_map split_in result ≡ split_record bytes.now }
{
    let [high, low, rest @ ..] = bytes else {
        return None;
    };
    let size = usize::from(u16::from_be_bytes([*high, *low]));
    let (front, rest) = rest.split_at_checked(size)?;
    Some(Record { front, rest })
}

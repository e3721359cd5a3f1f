// A call on a relay, written down.
ghost use Rattle.std.specs.Prelude.{◌≡◌};
ghost use Rattle.calls.specs.Call.{asked_stage};
ghost use Rattle.calls.specs.Written.{call_in};

// Loads hold the bytes of a file, frames and benches codes. Stages count from 1, and 0 asks for the
// inputs' certificate; places are those of the buffer that is lent.
#[derive(Drop)]
pub enum Request {
    Load(Vec<u8>),
    Frame(Vec<i32>),
    Reset,
    State,
    Certificate {
        stage: u32,
        places: u8,
    },
    Bench {
        stage: u32,
        places: u8,
        codes: Vec<i32>,
    },
}

impl Request {
    // The stage that it asks about, if it asks about one.
    pub fn stage(&self) -> Option<u32>
        ensures { result ≡ asked_stage (call_in self.now) }
    {
        match self {
            Request::Certificate { stage, .. } | Request::Bench { stage, .. } => Some(*stage),
            _ => None,
        }
    }
}

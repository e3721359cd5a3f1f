// A script, line by line.
ghost use Rattle.std.specs.Prelude.{◌≡◌, [], ◌∷◌, ◌++◌, map, is_some, IfOk, OnOk};
ghost use Rattle.std.specs.Option.{option_to_list};
ghost use Rattle.calls.specs.Written.{call_in};
ghost use Rattle.script.specs.Lines.{call_of};
ghost use Rattle.script.specs.Scripts.{lines_of, flags_of, calls_of};

use crate::line::read_request;
use calls::request::Request;
use std::alloc::{AllocError, Global};

// Whether each line is well formed, and the requests of those that are.
// Two lists: a list of Option<Request> would have to be taken apart again, since a replay takes the requests as one slice.
#[derive(Drop)]
pub struct Script {
    pub requests: Vec<Request>,
    pub well_formed: Vec<bool>,
}

impl Script {
    // Reads one line more.
    fn add_line(&mut self, heap: Global, line: &[u8]) -> Result<(), AllocError>
        ensures flags { OnOk result (self.new.well_formed.items ≡ self.old.well_formed.items ++ is_some (call_of line.now) ∷ []) }
        ensures calls { OnOk result (map call_in self.new.requests.items ≡ map call_in self.old.requests.items ++ option_to_list (call_of line.now)) }
    {
        let request = read_request(heap, line)?;
        self.well_formed.push(request.is_some())?;
        if let Some(request) = request {
            self.requests.push(request)?;
        }
        Ok(())
    }
}

// The requests of a script's well-formed lines, and which lines those are.
pub fn read_script(heap: Global, text: &[u8]) -> Result<Script, AllocError>
    ensures flags { IfOk result (λ s. s.well_formed.items ≡ flags_of (lines_of text.now)) }
    ensures calls { IfOk result (λ s. map call_in s.requests.items ≡ calls_of (lines_of text.now)) }
{
    let mut script = Script {
        requests: Vec::new(heap),
        well_formed: Vec::new(heap),
    };
    for line in text.split_inclusive(|c| *c == b'\n') {
        let line = line.strip_suffix(b"\n").unwrap_or(line);
        script.add_line(heap, line)?;
    }
    Ok(script)
}

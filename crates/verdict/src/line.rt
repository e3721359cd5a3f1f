// The verdict as a line of text.
ghost use Rattle.std.specs.Prelude.{◌≡◌, IfOk, string_bytes};
ghost use Rattle.verdict.specs.Line.{verdict_line};

use settings::refusal::Refusal;
use std::alloc::{AllocError, Global};

// The block of a load in a script has the same text, and is made apart: scripts know of no verdicts.
pub fn verdict_line(heap: Global, verdict: Result<u32, Refusal>) -> Result<String, AllocError>
    ensures { IfOk result (λ s. string_bytes s ≡ verdict_line verdict) }
{
    match verdict {
        Ok(bound) => format!(in heap; "accepted {bound}\n"),
        Err(refusal) => format!(in heap; "{refusal}\n"),
    }
}

// The verdict of this relay on a settings file, as a line.
#![tactic(auto)]

ghost use Rattle.std.specs.Prelude.{◌≡◌, IfOk, string_bytes};
ghost use Rattle.kinds.specs.Base.{base_kinds};
ghost use Rattle.verdict.specs.Verdict.{verdict_of};
ghost use Rattle.verdict.specs.Line.{verdict_line};

use kinds::BASE;
use std::alloc::{AllocError, Global};
use verdict::file::judge;
use verdict::line::verdict_line;

#[cfg(test)]
mod tests;

// Judged through the kinds of this relay.
pub fn line_for(heap: Global, file: &[u8]) -> Result<String, AllocError>
    ensures { IfOk result (λ s. string_bytes s ≡ verdict_line (verdict_of base_kinds file.now)) }
{
    verdict_line(heap, judge(&BASE, file))
}

// Standard input and output for programs.
#![tactic(auto)]

ghost use Rattle.std.specs.Prelude.{◌≡◌, ℕ, List, ◌+◌, ◌≤◌, Ok, IfOk, IfSome, OnOk, length, take, vec_len, string_bytes};
ghost use Rattle.std.specs.Fn.{FnOnceReturnsAt};
ghost use Rattle.std.specs.Io.KnownBytes.{Appends};

use std::alloc::{AllocError, Global};
use std::io;
use std::io::{Read, Write};

#[cfg(test)]
mod tests;

// At most one byte more than there may be: what is longer is seen to be, and is not read whole.
pub fn read_bounded<R: Read + Drop>(heap: Global, input: R, most: u32) -> io::Result<Vec<u8>>
    ensures bound { IfOk result (λ v. vec_len v ≤ most + 1) }
    ensures bytes { IfSome (R.remaining input) (λ all. IfOk result (λ v. v.items ≡ take (most + 1) all)) }
{
    let mut bytes = Vec::new(heap);
    let mut bounded = input.take(u64::from(most) + 1);
    bounded.read_to_end(&mut bytes)?;
    // Tried without, and the bound does not prove: of a reader whose bytes are not known `read_to_end` promises none.
    bytes.truncate(most as usize + 1);
    Ok(bytes)
}

// Writes what is told of the input, of which at most one byte more than there may be is read.
pub fn answer<R: Read + Drop, W: Write, F: FnOnce(&[u8]) -> Result<String, AllocError>>(
    heap: Global,
    input: R,
    output: &mut W,
    most: u32,
    told: F,
) -> io::Result<()>
    requires { F.IsAlwaysCallable told }
    ensures { OnOk result ((bytes : List ℕ) × (text : _) × (length bytes ≤ most + 1)
        × IfSome (R.remaining input) (λ all. bytes ≡ take (most + 1) all)
        × FnOnceReturnsAt F.FnOnce told bytes (Ok text) × Appends (W.contents output.old) (W.contents output.new) (string_bytes text)) }
{
    let bytes = read_bounded(heap, input, most)?;
    let text = told(&bytes)?;
    output.write_all(text.as_bytes())
}

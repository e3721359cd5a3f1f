// Prints the verdict on each settings file that stands in hexadecimal on a line of standard input.
#![tactic(auto)]

ghost use Rattle.std.specs.Prelude.{◌≡◌, ◌/◌, ◌≤◌, length, IfOk};
ghost use Rattle.trials.specs.Digits.{hex_digit_value, bytes_in};

use judging::line_for;
use std::alloc::{AllocError, Global};
use std::io;
use std::io::BufRead;

// By hand: the library's to_digit reads capital letters as digits too, which here count as 0.
fn digit_value(c: u8) -> u8
    ensures value { result ≡ hex_digit_value c }
    ensures most { result ≤ 15 }
{
    match c {
        b'0'..=b'9' => c - b'0',
        b'a'..=b'f' => c - b'a' + 10,
        _ => 0,
    }
}

// The bytes of a file, by the digits of its line. An odd digit at the end is left out.
fn bytes_in(heap: Global, line: &[u8]) -> Result<Vec<u8>, AllocError>
    ensures { IfOk result (λ v. v.items ≡ bytes_in line.now (length line.now / 2)) }
{
    let (pairs, _) = line.as_chunks::<2>();
    pairs
        .iter()
        .map(|[high, low]| 16 * digit_value(*high) + digit_value(*low))
        .collect(heap)
}

fn main(rt: HostRuntime) -> io::Result<()> {
    for line in rt.stdin().lines(rt.alloc()) {
        let line = line?;
        let file = bytes_in(rt.alloc(), line.as_bytes())?;
        let verdict = line_for(rt.alloc(), &file)?;
        print!(rt; "{verdict}")?;
    }
    Ok(())
}

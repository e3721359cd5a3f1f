// Prints the verdict on a settings file that stands on standard input.
#![tactic(auto)]

use console::answer;
use judging::line_for;
use settings::head::reads::MOST_BYTES;
use std::io;

fn main(rt: HostRuntime) -> io::Result<()> {
    answer(
        rt.alloc(),
        rt.stdin(),
        &mut rt.stdout(),
        MOST_BYTES as u32,
        |file| line_for(rt.alloc(), file),
    )
}

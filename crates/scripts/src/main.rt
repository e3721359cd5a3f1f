// The program `commission`, for the calls of the second evaluator.
// A program of its own, though it does the same: a program is tested on one script, and `commission` has the account.
#![tactic(auto)]

use console::answer;
use session::{MOST_BYTES, session_text};
use std::io;

fn main(rt: HostRuntime) -> io::Result<()> {
    answer(
        rt.alloc(),
        rt.stdin(),
        &mut rt.stdout(),
        MOST_BYTES,
        |script| session_text(rt.alloc(), script),
    )
}

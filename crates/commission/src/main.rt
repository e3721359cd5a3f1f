// Prints what each call of a script on standard input answers, made in order on one new relay.
#![tactic(auto)]

use console::answer;
use session::{MOST_BYTES, session_text};
use std::io;

fn main(rt: HostRuntime) -> io::Result<()> {
    answer(
        rt.alloc(),
        rt.stdin(),
        &mut rt.stdout(),
        MOST_BYTES,
        |script| session_text(rt.alloc(), script),
    )
}

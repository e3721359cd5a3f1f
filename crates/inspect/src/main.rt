// Prints an account of the head of a settings file that stands on standard input.
#![tactic(auto)]

mod account;
mod decimals;
mod fields;
mod inputs;

use account::account as account_of;
use console::answer;
use settings::head::reads::MOST_BYTES;
use std::io;

fn main(rt: HostRuntime) -> io::Result<()> {
    answer(
        rt.alloc(),
        rt.stdin(),
        &mut rt.stdout(),
        MOST_BYTES as u32,
        |file| account_of(rt.alloc(), file),
    )
}

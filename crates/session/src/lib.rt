// A script of calls, run on one new relay with the kinds of this relay.
#![tactic(auto)]

ghost use Rattle.std.specs.Prelude.{◌≡◌, ℕ, take, IfOk, string_bytes, OnOk};
ghost use Rattle.kinds.specs.Base.{base_kinds};
ghost use Rattle.relay.specs.Claims.{Claims};
ghost use Rattle.relay.specs.Ways.{begun, run_on};
ghost use Rattle.session.specs.Session.{calls_in, session_text};

use kinds::BASE;
use relay::replay::replay;
use script::account::account;
use script::script_text::read_script;
use std::alloc::{AllocError, Global};

// The longest script in bytes.
pub const MOST_BYTES: u32 = 1 << 30;

// What is printed of a script: a block for each line. After each of its calls the claims hold of the calls so far.
pub fn session_text(heap: Global, text: &[u8]) -> Result<String, AllocError>
    ensures text { IfOk result (λ s. string_bytes s ≡ session_text text.now) }
    ensures claims { OnOk result (((n : ℕ) → Claims base_kinds (run_on base_kinds begun (take n (calls_in text.now))).events (run_on base_kinds begun (take n (calls_in text.now))).state)) }
{
    let script = read_script(heap, text)?;
    let requests = script.requests.as_slice();
    let replies = replay(heap, BASE, requests)?;
    account(
        heap,
        script.well_formed.as_slice(),
        requests,
        replies.as_slice(),
    )
}

// What is printed of a script.
ghost use Rattle.std.specs.Prelude.{◌≡◌, map, IfOk, string_bytes};
ghost use Rattle.calls.specs.Written.{call_in, told_in};
ghost use Rattle.script.specs.Account.{account_text};

use crate::block::reply_block;
use calls::reply::Reply;
use calls::request::Request;
use std::alloc::{AllocError, Global};

// A block for each line: well-formed lines take the calls and their replies in order. Flags and requests come apart, and not as a
// `Script`: replies are of requests alone.
pub fn account(
    heap: Global,
    well_formed: &[bool],
    requests: &[Request],
    replies: &[Reply],
) -> Result<String, AllocError>
    ensures { IfOk result (λ s. string_bytes s ≡ account_text well_formed.now (map call_in requests.now) (map told_in replies.now)) }
{
    let mut text = String::new(heap);
    let mut asked = requests.iter();
    let mut told = replies.iter();
    for well_formed in well_formed {
        if !*well_formed {
            text.push_str("malformed\n")?;
        } else if let (Some(request), Some(reply)) = (asked.next(), told.next()) {
            text.push_str(reply_block(heap, request, reply)?.as_str())?;
        }
    }
    Ok(text)
}

// Every call of a list, on a new relay.
ghost use Rattle.std.specs.Prelude.{◌≡◌, ℕ, map, reverse, take, replicate, pos, IfOk};
ghost use Rattle.calls.specs.Call.{certificate, bench, told_by, no_certificate};
ghost use Rattle.calls.specs.Written.{call_in, told_in};
ghost use Rattle.relay.specs.Claims.{Claims};
ghost use Rattle.relay.specs.Held.{held};
ghost use Rattle.relay.specs.Rules.{called};
ghost use Rattle.relay.specs.Ways.{told_of, begun, run_on};

use crate::relay::Relay;
use calls::certificate_row::CertificateRow;
use calls::reply::Reply;
use calls::request::Request;
use stages::kind_set::KindSet;
use std::alloc::{AllocError, Global};

// A certificate, into a fresh buffer.
fn certificate_reply<K: KindSet>(
    heap: Global,
    relay: &Relay<K>,
    stage: u32,
    places: u8,
) -> Result<Reply, AllocError>
    ensures { IfOk result (λ reply. told_in reply ≡ told_of (K.meaning relay.now.kinds) (held relay.now) (certificate stage (replicate places no_certificate))) }
{
    let mut buffer = vec![in heap; CertificateRow::default(); usize::from(places)]?;
    let answer = relay.certificate(stage, buffer.as_mut_slice());
    Ok(Reply::Certificate { answer, buffer })
}

// A bench, into a fresh buffer. One function for both would take the call as a closure, say of the buffer what the closure does, and
// leave the replies to be put together apart: no plainer.
fn bench_reply<K: KindSet>(
    heap: Global,
    relay: &Relay<K>,
    stage: u32,
    places: u8,
    codes: &[i32],
) -> Result<Reply, AllocError>
    ensures { IfOk result (λ reply. told_in reply ≡ told_of (K.meaning relay.now.kinds) (held relay.now) (bench stage codes.now (replicate places (pos 0)))) }
{
    let mut buffer = vec![in heap; 0i32; usize::from(places)]?;
    let answer = relay.bench(stage, codes, buffer.as_mut_slice());
    Ok(Reply::Bench { answer, buffer })
}

// One call.
fn make<K: KindSet>(
    heap: Global,
    relay: &mut Relay<K>,
    request: &Request,
) -> Result<Reply, AllocError>
    ensures told { IfOk result (λ reply. told_in reply ≡ told_of (K.meaning relay.old.kinds) (held relay.old) (call_in request.now)) }
    ensures state { held relay.new ≡ (called (K.meaning relay.old.kinds) (held relay.old) (call_in request.now)).after }
    ensures set { relay.new.kinds ≡ relay.old.kinds }
{
    match request {
        Request::Load(file) => Ok(Reply::Load(relay.load(file.as_slice()))),
        Request::Frame(codes) => Ok(Reply::Frame(relay.frame(codes.as_slice()))),
        Request::Reset => Ok(Reply::Reset(relay.reset())),
        Request::State => Ok(Reply::State(relay.state())),
        Request::Certificate { stage, places } => certificate_reply(heap, relay, *stage, *places),
        Request::Bench {
            stage,
            places,
            codes,
        } => bench_reply(heap, relay, *stage, *places, codes.as_slice()),
    }
}

// What every call told, by the rules.
fn replies_to<K: KindSet + Drop>(
    heap: Global,
    kinds: K,
    requests: &[Request],
) -> Result<Vec<Reply>, AllocError>
    ensures { IfOk result (λ replies. map told_in replies.items ≡ map told_by (reverse (run_on (K.meaning kinds) begun (map call_in requests.now)).events)) }
{
    let mut relay = Relay::new(kinds);
    let mut replies = Vec::new(heap);
    for request in requests {
        let reply = make(heap, &mut relay, request)?;
        replies.push(reply)?;
    }
    Ok(replies)
}

// Makes every call on a new relay and gives back what each told. The answers and buffers are the rules', and after each call
// the claims hold of the calls so far.
pub fn replay<K: KindSet + Drop>(
    heap: Global,
    kinds: K,
    requests: &[Request],
) -> Result<Vec<Reply>, AllocError>
    ensures answers { IfOk result (λ replies. map told_in replies.items ≡ map told_by (reverse (run_on (K.meaning kinds) begun (map call_in requests.now)).events)) }
    ensures claims { (n : ℕ) → Claims (K.meaning kinds) (run_on (K.meaning kinds) begun (map call_in (take n requests.now))).events (run_on (K.meaning kinds) begun (map call_in (take n requests.now))).state }
{
    replies_to(heap, kinds, requests)
}

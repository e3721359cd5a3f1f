// A line of a script.
ghost use Rattle.std.specs.Prelude.{◌≡◌, min, IfOk, vec_items};
ghost use Rattle.std.specs.Option.{option_map};
ghost use Rattle.calls.specs.Written.{call_in};
ghost use Rattle.script.specs.Parts.{parts_behind};
ghost use Rattle.script.specs.Numbers.{codes_in};
ghost use Rattle.script.specs.Lines.{load_of, frame_of, alone, certificate_of, bench_of, call_by, call_of};

use crate::hex::bytes_in;
use crate::number::{signed_in, unsigned_in};
use crate::part::first_part;
use calls::request::Request;
use std::alloc::{AllocError, Global};

// The codes behind a word, or behind a stage and places.
fn codes_in(heap: Global, behind: Option<&[u8]>) -> Result<Option<Vec<i32>>, AllocError>
    ensures { IfOk result (λ o. option_map vec_items o ≡ codes_in (parts_behind behind.entry)) }
{
    let mut codes = Vec::new(heap);
    let mut left = behind;
    while let Some(text) = left {
        let next = first_part(text);
        let Some(code) = signed_in(next.part) else {
            return Ok(None);
        };
        codes.push(code)?;
        left = next.behind;
    }
    Ok(Some(codes))
}

// Nothing behind the word is an empty file, and one part, if it is not empty, its bytes.
fn read_load(heap: Global, behind: Option<&[u8]>) -> Result<Option<Request>, AllocError>
    ensures { IfOk result (λ o. option_map call_in o ≡ load_of (parts_behind behind.entry)) }
{
    let Some(text) = behind else {
        return Ok(Some(Request::Load(Vec::new(heap))));
    };
    let digits = first_part(text);
    match digits.behind {
        Some(_) => Ok(None),
        None if digits.part.is_empty() => Ok(None),
        None => Ok(bytes_in(heap, digits.part)?.map(Request::Load)),
    }
}

fn read_frame(heap: Global, behind: Option<&[u8]>) -> Result<Option<Request>, AllocError>
    ensures { IfOk result (λ o. option_map call_in o ≡ frame_of (parts_behind behind.entry)) }
{
    Ok(codes_in(heap, behind)?.map(Request::Frame))
}

// A buffer has at most 64 places.
fn capped(places: u32) -> u8
    ensures { result ≡ min places 64 }
{
    places.min(64) as u8
}

// A stage and places, and nothing more.
fn read_certificate(behind: Option<&[u8]>) -> Option<Request>
    ensures { option_map call_in result ≡ certificate_of (parts_behind behind.entry) }
{
    let stage = first_part(behind?);
    let places = first_part(stage.behind?);
    let stage = unsigned_in(stage.part)?;
    alone(
        Request::Certificate {
            stage,
            places: capped(unsigned_in(places.part)?),
        },
        places.behind,
    )
}

// A stage, places and codes.
fn read_bench(heap: Global, behind: Option<&[u8]>) -> Result<Option<Request>, AllocError>
    ensures { IfOk result (λ o. option_map call_in o ≡ bench_of (parts_behind behind.entry)) }
{
    let Some(stage) = behind.map(first_part) else {
        return Ok(None);
    };
    let Some(places) = stage.behind.map(first_part) else {
        return Ok(None);
    };
    let (Some(stage), Some(most)) = (unsigned_in(stage.part), unsigned_in(places.part)) else {
        return Ok(None);
    };
    let codes = codes_in(heap, places.behind)?;
    let places = capped(most);
    Ok(codes.map(|codes| Request::Bench {
        stage,
        places,
        codes,
    }))
}

// A request behind which nothing stands.
fn alone(request: Request, behind: Option<&[u8]>) -> Option<Request>
    ensures { option_map call_in result ≡ alone (call_in request) (parts_behind behind.entry) }
{
    match behind {
        None => Some(request),
        Some(_) => None,
    }
}

// The call of a word and what stands behind it.
fn read_call(
    heap: Global,
    word: &[u8],
    behind: Option<&[u8]>,
) -> Result<Option<Request>, AllocError>
    ensures { IfOk result (λ o. option_map call_in o ≡ call_by word.now (parts_behind behind.entry)) }
{
    match word {
        b"load" => read_load(heap, behind),
        b"frame" => read_frame(heap, behind),
        b"reset" => Ok(alone(Request::Reset, behind)),
        b"state" => Ok(alone(Request::State, behind)),
        b"certificate" => Ok(read_certificate(behind)),
        b"bench" => read_bench(heap, behind),
        _ => Ok(None),
    }
}

// The call that a line asks for, or none where the line is malformed.
pub fn read_request(heap: Global, line: &[u8]) -> Result<Option<Request>, AllocError>
    ensures { IfOk result (λ o. option_map call_in o ≡ call_of line.now) }
{
    let word = first_part(line);
    read_call(heap, word.part, word.behind)
}

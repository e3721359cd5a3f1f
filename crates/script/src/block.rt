// What is printed of a reply.
ghost use Rattle.std.specs.Prelude.{◌≡◌, ◌++◌, IfOk, MatchResult, string_bytes, codes, take};
ghost use Rattle.calls.specs.Call as call;
ghost use Rattle.calls.specs.Written.{call_in, answer_in, left_in};
ghost use Rattle.settings.specs.Refusals.{refusal_text};
ghost use Rattle.script.specs.Block.{rows_text, codes_text, written_text, block_text};

use calls::certificate_row::CertificateRow;
use calls::reply::Reply;
use calls::request::Request;
use settings::refusal::Refusal;
use std::alloc::{AllocError, Global};

// A line for each row.
fn rows_text(heap: Global, rows: &[CertificateRow]) -> Result<String, AllocError>
    ensures { IfOk result (λ s. string_bytes s ≡ rows_text 0 rows.now) }
{
    let mut text = String::new(heap);
    for (i, row) in rows.iter().enumerate() {
        writeln!(text, "  {i}: {row}")?;
    }
    Ok(text)
}

// A space before each code.
fn codes_text(heap: Global, codes: &[i32]) -> Result<String, AllocError>
    ensures { IfOk result (λ s. string_bytes s ≡ codes_text codes.now) }
{
    let mut text = String::new(heap);
    for code in codes {
        write!(text, " {code}")?;
    }
    Ok(text)
}

// The places of a buffer that a call wrote.
fn written<T>(buffer: &[T], count: usize) -> &[T]
    ensures { result.now ≡ take count buffer.now }
{
    &buffer[..count.min(buffer.len())]
}

fn certificate_text(
    heap: Global,
    stage: u32,
    count: usize,
    buffer: &[CertificateRow],
) -> Result<String, AllocError>
    ensures { IfOk result (λ s. string_bytes s ≡ written_text stage count (call.rows buffer.now)) }
{
    let rows = rows_text(heap, written(buffer, count))?;
    format!(in heap; "stage {stage}: {count} wires\n{rows}")
}

// Apart from the rows of a certificate: one function for both would take the text of the rows as a closure, and be no shorter.
fn bench_text(heap: Global, stage: u32, count: usize, buffer: &[i32]) -> Result<String, AllocError>
    ensures { IfOk result (λ s. string_bytes s ≡ written_text stage count (call.codes buffer.now)) }
{
    let codes = codes_text(heap, written(buffer, count))?;
    format!(in heap; "stage {stage}:{codes}\n")
}

// The text of what a call gave, or its refusal.
fn answer_text<T, F: FnOnce(T) -> Result<String, AllocError>>(
    heap: Global,
    answer: Result<T, Refusal>,
    text: F,
) -> Result<String, AllocError>
    requires { F.IsAlwaysCallable text }
    ensures { MatchResult answer (λ x. F.post text x result) (λ e. IfOk result (λ s. string_bytes s ≡ refusal_text e ++ codes "\n")) }
{
    match answer {
        Ok(x) => text(x),
        Err(refusal) => format!(in heap; "{refusal}\n"),
    }
}

// What is printed of a call.
pub fn reply_block(heap: Global, request: &Request, reply: &Reply) -> Result<String, AllocError>
    ensures { IfOk result (λ s. string_bytes s ≡ block_text (call_in request.now) (answer_in reply.now) (left_in reply.now)) }
{
    let stage = request.stage().unwrap_or(0);
    match reply {
        Reply::Load(answer) => {
            answer_text(
                heap,
                *answer,
                |bound| format!(in heap; "accepted {bound}\n"),
            )
        }
        Reply::Frame(answer) => {
            answer_text(heap, *answer, |status| format!(in heap; "{status}\n"))
        }
        Reply::Reset(answer) => {
            answer_text(heap, *answer, |()| String::from_str(heap, "reset\n"))
        }
        Reply::State(answer) => {
            answer_text(heap, *answer, |report| format!(in heap; "{report}\n"))
        }
        Reply::Certificate { answer, buffer } => answer_text(heap, *answer, |count| {
            certificate_text(heap, stage, count, buffer.as_slice())
        }),
        Reply::Bench { answer, buffer } => answer_text(heap, *answer, |count| {
            bench_text(heap, stage, count, buffer.as_slice())
        }),
    }
}

// How the head of a file is read.
ghost use Rattle.std.specs.Prelude.{◌≡◌, ◌+◌, ◌*◌, drop, IfOk};
ghost use Rattle.std.specs.Result.{result_map_both};
ghost use Rattle.settings.specs.Records.{split_record};
ghost use Rattle.settings.specs.Head.{input_rows, records_of, header_record, limited_fields, checked_inputs, head_of};
ghost use Rattle.settings.specs.HeadLaw.{HeadLaw};
ghost use Rattle.settings.specs.Answer.{split_in, head_in};

use super::Head;
use crate::fields::Fields;
use crate::header::Header;
use crate::inputs::{first_improper, inputs_in};
use crate::record::{Record, split_record};
use crate::refusal::Refusal;
use arrayvec::ArrayVec;
use fixed::row::WireRow;

// The largest file in bytes.
pub const MOST_BYTES: usize = 65_536;

impl Head<'_> {
    // The wires of the inputs, as the header counts them.
    pub fn inputs(&self) -> ArrayVec<WireRow, 64>
        ensures { result.items ≡ (head_in self.now).inputs }
    {
        inputs_in(self.record, self.header.fields().inputs)
    }
}

// The records of a file of version 1.
fn records(file: &[u8]) -> Result<&[u8], Refusal>
    ensures { result_map_both (λ x. x.now) (λ e. e) result ≡ records_of file.now }
{
    let [version, rest @ ..] = file else {
        return Err(Refusal::FileSize);
    };
    if file.len() > MOST_BYTES {
        return Err(Refusal::FileSize);
    }
    if *version != 1 {
        return Err(Refusal::Version);
    }
    Ok(rest)
}

fn header_record(records: &[u8]) -> Result<Record<'_>, Refusal>
    ensures { result_map_both split_in (λ e. e) result ≡ header_record (split_record records.now) }
{
    let split = split_record(records).ok_or(Refusal::HeaderLength)?;
    let inputs = split.front.first().ok_or(Refusal::HeaderLength)?;
    if split.front.len() < 33 || split.front.len() != 21 + 12 * usize::from(*inputs) {
        return Err(Refusal::HeaderLength);
    }
    Ok(split)
}

fn header_in(bytes: &[u8]) -> Result<Header, Refusal>
    ensures { result_map_both (λ h. h.fields) (λ e. e) result ≡ limited_fields bytes.now }
{
    Header::new(Fields::read(bytes)).ok_or(Refusal::HeaderField)
}

// Refuses the first of a header's inputs that is not proper.
fn checked_inputs(bytes: &[u8], header: Header) -> Result<(), Refusal>
    ensures { result_map_both (λ _. input_rows bytes.now header.fields.inputs) (λ e. e) result ≡ checked_inputs bytes.now header.fields }
{
    match first_improper(bytes, header.format(), header.fields().inputs) {
        Some(input) => Err(Refusal::InputWire { input }),
        None => Ok(()),
    }
}

// The head of a file, or the first refusal.
#[tactic(auto, using(crate::proofs::HeadLaws::head_law))]
pub fn read_head(file: &[u8]) -> Result<Head<'_>, Refusal>
    ensures answer { result_map_both head_in (λ e. e) result ≡ head_of file.now }
    ensures start { IfOk result (λ h. h.rest.now ≡ drop (24 + 12 * h.header.fields.inputs) file.now) }
    ensures law { HeadLaw file.now }
{
    let Record { front, rest } = header_record(records(file)?)?;
    let header = header_in(front)?;
    checked_inputs(front, header)?;
    Ok(Head {
        header,
        record: front,
        rest,
    })
}

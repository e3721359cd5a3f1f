// How the output of a frame is worked out.
ghost use Rattle.std.specs.Prelude.{◌≡◌, ◌≤◌, not, zip, position, length, Ok as ok};
ghost use Rattle.fixed.specs.Format.{IsFormat, grains_of};
ghost use Rattle.stages.specs.Wires.{wires_in};
ghost use Rattle.verdict.specs.Frames.{frame_in};
ghost use Rattle.verdict.specs.Loaded.{loaded_in};
ghost use Rattle.verdict.specs.Output.{in_row, frame_fault, output_with, unless_fault, output_in};
ghost use Rattle.verdict.specs.Pass.{frame_pass};
ghost use Rattle.verdict.specs.Running.{frame};

use super::Output;
use crate::frame::Frame;
use crate::loaded::refused_or_none;
use crate::network::Network;
use crate::network::opens::open;
use fixed::format::Format;
use fixed::row::WireRow;
use settings::fields::Fields;
use settings::refusal::Refusal;
use stages::kind_set::KindSet;
use stages::shape::Shape;
use stages::wires::{Codes, Wires};

fn in_row(row: WireRow, code: i32) -> bool
    ensures { result ≡ in_row row code }
{
    (row.low..=row.high).contains(&code)
}

// The place of the first code outside its input's range.
fn first_outside(inputs: &[WireRow], codes: &[i32]) -> Option<usize>
    ensures { result ≡ position (λ p. not (in_row p.0 p.1)) (zip inputs.now codes.now) }
{
    inputs
        .iter()
        .zip(codes)
        .position(|(row, code)| !in_row(*row, *code))
}

// Whether a frame's codes are taken at these inputs.
fn check_frame(inputs: &Wires, codes: &[i32]) -> Result<(), Refusal>
    ensures { result ≡ unless_fault (frame_fault inputs.now.rows.items codes.now) (ok tt) }
{
    let inputs = inputs.rows.as_slice();
    if codes.len() != inputs.len() {
        return Err(Refusal::CodeCount);
    }
    match first_outside(inputs, codes) {
        Some(input) => Err(Refusal::CodeRange { input: input as u8 }),
        None => Ok(()),
    }
}

// A frame's codes in fixed memory. That they are few is a premise: the caller's slice has no length in its type.
fn taken(codes: &[i32]) -> Codes
    requires { length codes.now ≤ 64 }
    ensures { result.items ≡ codes.now }
{
    let mut taken = Codes::new();
    taken.try_extend_from_slice(codes).unwrap();
    taken
}

fn grains(code: i32, shape: Shape) -> i64
    requires { IsFormat shape.word shape.fraction }
    ensures { result ≡ grains_of shape.fraction code }
{
    Format::new(shape.word, shape.fraction)
        .unwrap()
        .grains(code)
}

// The output of a frame that came through all stages.
fn output_with(fields: Fields, last: &Frame) -> Output
    ensures { result ≡ output_with fields (frame_in last.now).at.shape (frame_in last.now).codes }
{
    let code = last.codes.as_slice().first().copied().unwrap_or(0);
    let grains = grains(code, last.wires.shape);
    Output {
        fields,
        code,
        grains,
    }
}

// One pass over the stages with a frame.
fn run_frame<K: KindSet>(network: &Network<'_, K>, frame: Frame) -> Result<Output, Refusal>
    ensures { result ≡ frame_pass (K.meaning network.now.kinds.now) network.now.header.fields network.now.records.now (frame_in frame) }
{
    let fields = network.fields();
    let last = network.run_stages(fields.stages, frame)?;
    network.close(&last.wires)?;
    Ok(output_with(fields, &last))
}

// The pass of a frame whose codes are taken.
fn pass<K: KindSet>(
    network: &Network<'_, K>,
    inputs: Wires,
    codes: &[i32],
) -> Result<Output, Refusal>
    ensures { result ≡ unless_fault (frame_fault inputs.rows.items codes.now) (frame_pass (K.meaning network.now.kinds.now) network.now.header.fields network.now.records.now (frame (wires_in inputs) codes.now)) }
{
    check_frame(&inputs, codes)?;
    let codes = taken(codes);
    let frame = Frame {
        wires: inputs,
        codes,
    };
    run_frame(network, frame)
}

// The output of a frame, or the first refusal; with a file that is not accepted, that there is no file.
pub fn output_of<K: KindSet>(kinds: &K, file: &[u8], codes: &[i32]) -> Result<Output, Refusal>
    ensures { result ≡ output_in (K.meaning kinds.now) (loaded_in (K.meaning kinds.now) file.now) codes.now }
{
    let Ok((network, inputs)) = open(kinds, file) else {
        return Err(Refusal::NoFile);
    };
    pass(&network, inputs, codes).map_err(|refusal| refused_or_none(kinds, file, refusal))
}

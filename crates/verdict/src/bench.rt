// One stage of a file on a caller's codes.
ghost use Rattle.std.specs.Prelude.{◌≡◌, ◌+◌, ◌<◌, length};
ghost use Rattle.stages.specs.Kind.{map_ok, over};
ghost use Rattle.stages.specs.Wires.{wires_in};
ghost use Rattle.verdict.specs.Bench.{bench_in};
ghost use Rattle.verdict.specs.Loaded.{loaded_in};
ghost use Rattle.verdict.specs.Tried.{tried};
ghost use Rattle.verdict.specs.Stages.{stage_at};

use crate::file::judge_file;
use crate::front::write_front;
use crate::network::Network;
use crate::network::opens::open;
use crate::stage::stage_at;
use settings::refusal::Refusal;
use stages::kind_set::KindSet;
use stages::wires::{Codes, Wires};

// A stage by its record, with the wires that stand before it.
fn try_stage<K: KindSet>(
    network: &Network<'_, K>,
    k: u8,
    before: Wires,
    codes: &[i32],
    out: &mut [i32],
) -> Result<usize, Refusal>
    requires { k < 16 }
    ensures answer { result ≡ map_ok length (tried (K.meaning network.now.kinds.now) network.now.header.fields.accumulator (k + 1) (wires_in before) codes.now (length out.old) (stage_at network.now.records.now k)) }
    ensures buffer { out.new ≡ over (tried (K.meaning network.now.kinds.now) network.now.header.fields.accumulator (k + 1) (wires_in before) codes.now (length out.old) (stage_at network.now.records.now k)) out.old }
{
    if codes.len() != usize::from(before.shape.count) {
        return Err(Refusal::CodeCount);
    }
    let split = stage_at(network.records, k).ok_or(Refusal::NoFile)?;
    let shape = before.shape;
    let mut wires = before;
    let Ok(()) = network.judge_record(k, split.front, &mut wires) else {
        return Err(Refusal::NoFile);
    };
    if out.len() < usize::from(wires.shape.count) {
        return Err(Refusal::ShortBuffer);
    }
    let mut made = Codes::new();
    network.run_record(split.front, shape, codes, &mut made)?;
    write_front(made.as_slice(), out)
}

// The codes that a stage, counted from 1, makes of a caller's codes, in front of the buffer, and how many; or the first
// refusal. The rest of the buffer stays.
pub fn bench_of<K: KindSet>(
    kinds: &K,
    file: &[u8],
    stage: u32,
    codes: &[i32],
    out: &mut [i32],
) -> Result<usize, Refusal>
    ensures answer { result ≡ map_ok length (bench_in (K.meaning kinds.now) (loaded_in (K.meaning kinds.now) file.now) stage codes.now (length out.old)) }
    ensures buffer { out.new ≡ over (bench_in (K.meaning kinds.now) (loaded_in (K.meaning kinds.now) file.now) stage codes.now (length out.old)) out.old }
{
    // Why it is no file does not matter: `let .. else` drops the refusal, where `map_err` would take a closure to do it.
    let Ok((network, inputs)) = open(kinds, file) else {
        return Err(Refusal::NoFile);
    };
    let Ok(_) = judge_file(kinds, file) else {
        return Err(Refusal::NoFile);
    };
    if stage == 0 || stage > u32::from(network.fields().stages) {
        return Err(Refusal::NoStage);
    }
    let k = (stage - 1) as u8;
    let Ok(before) = network.judge_stages(k, inputs) else {
        return Err(Refusal::NoFile);
    };
    try_stage(&network, k, before, codes, out)
}

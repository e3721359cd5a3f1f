// The wires after a stage of a file.
ghost use Rattle.std.specs.Prelude.{◌≡◌, ◌≤◌, length, take};
ghost use Rattle.stages.specs.Kind.{map_ok};
ghost use Rattle.verdict.specs.Table.{wires_in};
ghost use Rattle.verdict.specs.Verdict.{wires_up_to};

use super::Wires;
use crate::network::opens::open;
use fixed::row::WireRow;
use settings::refusal::Refusal;
use stages::kind_set::KindSet;

// Rows in front of a table.
fn table_of(rows: &[WireRow]) -> [WireRow; 64]
    requires { length rows.now ≤ 64 }
    ensures { take (length rows.now) result ≡ rows.now }
{
    let mut table = [WireRow::default(); 64];
    table[..rows.len()].copy_from_slice(rows);
    table
}

// Stage 0 is the inputs, and a number past the last stage is the last.
pub fn wires_after<K: KindSet>(kinds: &K, file: &[u8], stage: u8) -> Result<Wires, Refusal>
    ensures { map_ok wires_in result ≡ wires_up_to (K.meaning kinds.now) file.now stage }
{
    let (network, inputs) = open(kinds, file)?;
    let stages = stage.min(network.fields().stages);
    let wires = network.judge_stages(stages, inputs)?;
    Ok(Wires {
        shape: wires.shape,
        rows: table_of(wires.rows.as_slice()),
    })
}

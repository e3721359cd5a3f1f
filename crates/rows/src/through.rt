// Stages of rows through a plan.
ghost use Rattle.std.specs.Prelude.{◌≡◌, length, IfErr};
ghost use Rattle.stages.specs.Kind.{map_ok};
ghost use Rattle.stages.specs.Containment.{Given, Passes};
ghost use Rattle.stages.specs.Network.{stand, wires_by};
ghost use Rattle.stages.specs.Wires.{setting_in};
ghost use Rattle.rows.specs.Plan.{rows_kind, scales_in, plan_in};

use crate::coefficients::Coefficients;
use crate::layout::Layout;
use crate::outputs::Outputs;
use crate::plan::Plan;
use crate::row_format::RowFormat;
use crate::scales::Scales;
use fixed::bytes::u8_at;
use fixed::row::WireRow;
use stages::shape::{KindRefusal, RunRefusal, Shape};
use stages::stage::Stage;
use stages::wires::{Codes, WireRows};

fn layout_in<P: Plan>(stage: Stage<'_>) -> Option<Layout>
    ensures { result ≡ plan_in P.plan (setting_in stage.entry) }
{
    P::layout(u8_at(stage.bytes, 1), stage.before.count)
}

fn scales_in(stage: Stage<'_>) -> Scales
    ensures { result ≡ scales_in (setting_in stage.entry) }
{
    Scales {
        fw: u8_at(stage.bytes, 2),
        ww: u8_at(stage.bytes, 3),
        fx: stage.before.fraction,
        fy: u8_at(stage.bytes, 4),
        wy: u8_at(stage.bytes, 5),
        bits: stage.accumulator,
    }
}

// The shape after the stage, and its wires in a lent list.
pub(crate) fn judge_plan<'a, P: Plan>(
    stage: Stage<'a>,
    wires: &'a [WireRow],
    after: &mut WireRows,
) -> Result<Shape, KindRefusal>
    requires { Given (setting_in stage) wires.now }
    ensures answer { map_ok (λ s. stand s after.new.items) result ≡ wires_by (rows_kind P.plan) (setting_in stage.entry) wires.now }
    ensures stays { IfErr result (λ _. after.new ≡ after.old) }
{
    let layout = layout_in::<P>(stage).ok_or(KindRefusal::Size)?;
    if stage.bytes.len() != 6 + 4 * usize::from(layout.numbers) {
        return Err(KindRefusal::Length);
    }
    let format = RowFormat::new(scales_in(stage)).ok_or(KindRefusal::Format)?;
    let outputs = Outputs {
        format,
        coefficients: Coefficients {
            layout,
            bytes: stage.bytes,
        },
        inputs: wires,
    };
    outputs.all(after)?;
    Ok(Shape {
        count: layout.outputs,
        word: format.scales.wy,
        fraction: format.scales.fy,
    })
}

// The codes after a stage that some wires pass. `Outputs` are made as above: a function for it would have more premises than lines.
pub(crate) fn run_plan<'a, P: Plan>(
    stage: Stage<'a>,
    codes: &'a [i32],
    after: &mut Codes,
) -> Result<(), RunRefusal>
    requires passes { Passes (rows_kind P.plan) (setting_in stage) }
    requires many { length codes.now ≡ stage.before.count }
    ensures answer { map_ok (λ _. after.new.items) result ≡ (rows_kind P.plan).code (setting_in stage.entry) codes.now }
    ensures stays { IfErr result (λ _. after.new ≡ after.old) }
{
    let layout = layout_in::<P>(stage).unwrap();
    let format = RowFormat::new(scales_in(stage)).unwrap();
    let outputs = Outputs {
        format,
        coefficients: Coefficients {
            layout,
            bytes: stage.bytes,
        },
        inputs: codes,
    };
    outputs.all(after)
}

// The wires after the stages of a file.
ghost use Rattle.std.specs.Prelude.{◌≡◌, ◌+◌, ◌<◌, ◌≤◌, IfErr};
ghost use Rattle.stages.specs.Kind.{setting, map_ok};
ghost use Rattle.stages.specs.Network.{wires_after};
ghost use Rattle.stages.specs.Wires.{setting_in, wires_in};
ghost use Rattle.verdict.specs.Stages.{refused_at, at_stage, stage_at, wires_past, wires_from};
ghost use Rattle.verdict.specs.Verdict.{closed};

use crate::network::Network;
use crate::stage::{from_stage, stage_at};
use fixed::bytes::u8_at;
use settings::refusal::Refusal;
use stages::kind_set::KindSet;
use stages::shape::{KindRefusal, Shape};
use stages::stage::Stage;
use stages::wires::{WireRows, Wires};

// The refusal of a kind, at a stage. It is no `From`: the stage is not in the kind's refusal.
fn refused_at(stage: u8, why: KindRefusal) -> Refusal
    ensures { result ≡ refused_at stage why }
{
    match why {
        KindRefusal::Unknown => Refusal::UnknownKind { stage },
        KindRefusal::Size => Refusal::StageSize { stage },
        KindRefusal::Length => Refusal::StageLength { stage },
        KindRefusal::Format => Refusal::StageFormat { stage },
        KindRefusal::WeightCode { output } => Refusal::WeightCode { stage, output },
        KindRefusal::RangeSum { output } => Refusal::RangeSum { stage, output },
        KindRefusal::RangeOutput { output } => Refusal::RangeOutput { stage, output },
        KindRefusal::WireError { output } => Refusal::WireError { stage, output },
    }
}

impl<K: KindSet> Network<'_, K> {
    // What a kind is given of a record.
    pub(crate) fn stage<'b>(&self, bytes: &'b [u8], before: Shape) -> Stage<'b>
        ensures { setting_in result ≡ setting bytes.now self.now.header.fields.accumulator before }
    {
        Stage {
            bytes,
            accumulator: self.fields().accumulator,
            before,
        }
    }

    // One stage, by its record: the wires after it take the place of those before it, which a refusal leaves. Here a stage is asked for by
    // its index, below 16 as the header says; a type for the index would be made and taken apart at each step.
    pub(crate) fn judge_record(&self, k: u8, bytes: &[u8], wires: &mut Wires) -> Result<(), Refusal>
        requires { k < 16 }
        ensures answer { map_ok (λ _. wires_in wires.new) result ≡ at_stage (k + 1) (wires_after (K.meaning self.now.kinds.now) self.now.header.fields.accumulator bytes.now (wires_in wires.old)) }
        ensures stays { IfErr result (λ _. wires.new ≡ wires.old) }
    {
        let stage = self.stage(bytes, wires.shape);
        let mut rows = WireRows::new();
        let shape = self
            .kinds
            .judge(u8_at(bytes, 0), stage, wires.rows.as_slice(), &mut rows)
            .map_err(|why| refused_at(k + 1, why))?;
        wires.shape = shape;
        wires.rows = rows;
        Ok(())
    }

    fn judge_stage(&self, k: u8, wires: &mut Wires) -> Result<(), Refusal>
        requires { k < 16 }
        ensures answer { map_ok (λ _. wires_in wires.new) result ≡ wires_past (K.meaning self.now.kinds.now) self.now.header.fields.accumulator (k + 1) (wires_in wires.old) (stage_at self.now.records.now k) }
        ensures stays { IfErr result (λ _. wires.new ≡ wires.old) }
    {
        let split = stage_at(self.records, k).ok_or(Refusal::RecordLength { stage: k + 1 })?;
        self.judge_record(k, split.front, wires)
    }

    // The first stages, from the wires of the inputs on.
    pub(crate) fn judge_stages(&self, stages: u8, inputs: Wires) -> Result<Wires, Refusal>
        requires { stages ≤ 16 }
        ensures { map_ok wires_in result ≡ wires_from (K.meaning self.now.kinds.now) self.now.header.fields.accumulator self.now.records.now 0 stages (wires_in inputs) }
    {
        let mut wires = inputs;
        for k in 0..stages {
            self.judge_stage(k, &mut wires)?;
        }
        Ok(wires)
    }

    // The last checks: no bytes left, one output, and its error within the allowed one.
    pub(crate) fn close(&self, last: &Wires) -> Result<u32, Refusal>
        ensures { result ≡ closed self.now.header.fields self.now.records.now (wires_in last.now) }
    {
        let fields = self.fields();
        let stage = fields.stages;
        let Some([]) = from_stage(self.records, stage) else {
            return Err(Refusal::TrailingBytes { stage });
        };
        if last.shape.count != 1 {
            return Err(Refusal::OutputCount { stage });
        }
        let bound = last.rows.as_slice()[0].error;
        if bound > fields.allowed_error {
            return Err(Refusal::AllowedError { stage });
        }
        Ok(bound)
    }
}

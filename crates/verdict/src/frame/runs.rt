// How a frame goes through the stages.
ghost use Rattle.std.specs.Prelude.{◌≡◌, ◌+◌, ◌<◌, ◌≤◌, length, IfOk, IfErr};
ghost use Rattle.stages.specs.Kind.{map_ok};
ghost use Rattle.std.specs.Result.{result_unwrap_or};
ghost use Rattle.verdict.specs.Stages.{stage_at, wires_past};
ghost use Rattle.stages.specs.Wires.{wires_in};
ghost use Rattle.verdict.specs.Running.{frame, frame_past, frame_from};
ghost use Rattle.verdict.specs.Frames.{frame_in};

use super::Frame;
use crate::network::Network;
use crate::stage::stage_at;
use settings::refusal::Refusal;
use stages::kind_set::KindSet;
use stages::wires::{Codes, Wires};

impl<K: KindSet> Network<'_, K> {
    // One stage: judged, and then run. The wires and codes after it take the place of those before it: the codes unless it is refused, the
    // wires wherever the stage passes.
    fn run_stage(&self, k: u8, wires: &mut Wires, codes: &mut Codes) -> Result<(), Refusal>
        requires few { k < 16 }
        requires many { length codes.old.items ≡ wires.old.shape.count }
        ensures value { map_ok (λ _. frame (wires_in wires.new) codes.new.items) result ≡ frame_past (K.meaning self.now.kinds.now) self.now.header.fields.accumulator (k + 1) (frame (wires_in wires.old) codes.old.items) (stage_at self.now.records.now k) }
        ensures many { IfOk result (λ _. length codes.new.items ≡ wires.new.shape.count) }
        ensures stays { IfErr result (λ _. codes.new ≡ codes.old) }
        ensures wires { wires_in wires.new ≡ result_unwrap_or (wires_past (K.meaning self.now.kinds.now) self.now.header.fields.accumulator (k + 1) (wires_in wires.old) (stage_at self.now.records.now k)) (wires_in wires.old) }
    {
        let split = stage_at(self.records, k).ok_or(Refusal::RecordLength { stage: k + 1 })?;
        let before = wires.shape;
        self.judge_record(k, split.front, wires)?;
        let mut after = Codes::new();
        self.run_record(split.front, before, codes.as_slice(), &mut after)?;
        *codes = after;
        Ok(())
    }

    // The first stages, from the inputs on. The loop stands in `judge_stages` too: with the step as a closure, its contract would say
    // by the closure's what these two lines say.
    pub(crate) fn run_stages(&self, stages: u8, inputs: Frame) -> Result<Frame, Refusal>
        requires { stages ≤ 16 }
        ensures { map_ok frame_in result ≡ frame_from (K.meaning self.now.kinds.now) self.now.header.fields.accumulator self.now.records.now 0 stages (frame_in inputs) }
    {
        let Frame {
            mut wires,
            mut codes,
        } = inputs;
        for k in 0..stages {
            self.run_stage(k, &mut wires, &mut codes)?;
        }
        Ok(Frame { wires, codes })
    }
}

// The codes after a stage of a file.
ghost use Rattle.std.specs.Prelude.{◌≡◌, length, IfErr};
ghost use Rattle.stages.specs.Containment.{Passes};
ghost use Rattle.stages.specs.Kind.{setting, map_ok};
ghost use Rattle.stages.specs.Network.{kind_in};
ghost use Rattle.verdict.specs.Running.{run_refusal, ran, codes_by};

use crate::network::Network;
use fixed::bytes::u8_at;
use settings::refusal::Refusal;
use stages::kind_set::KindSet;
use stages::shape::{RunRefusal, Shape};
use stages::wires::Codes;

// The refusal of a run, as a call tells it. It is no `From`: neither of the two types' crates knows the other.
fn run_refusal(why: RunRefusal) -> Refusal
    ensures { result ≡ run_refusal why }
{
    match why {
        RunRefusal::Sum { output } => Refusal::RunSum { output },
        RunRefusal::Output { output } => Refusal::RunOutput { output },
    }
}

impl<K: KindSet> Network<'_, K> {
    // One stage that some wires pass, by its record: its codes in a lent list, which a refusal leaves as it is.
    pub(crate) fn run_record(
        &self,
        bytes: &[u8],
        before: Shape,
        codes: &[i32],
        after: &mut Codes,
    ) -> Result<(), Refusal>
        requires passes { Passes (kind_in (K.meaning self.now.kinds.now) bytes.now) (setting bytes.now self.now.header.fields.accumulator before) }
        requires many { length codes.now ≡ before.count }
        ensures answer { map_ok (λ _. after.new.items) result ≡ ran (codes_by (K.meaning self.now.kinds.now) self.now.header.fields.accumulator bytes.now before codes.now) }
        ensures stays { IfErr result (λ _. after.new ≡ after.old) }
    {
        self.kinds
            .run(u8_at(bytes, 0), self.stage(bytes, before), codes, after)
            .map_err(|why| run_refusal(why))
    }
}

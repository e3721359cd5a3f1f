// The questions to a relay, which change nothing in it.
ghost use Rattle.std.specs.Prelude.{◌≡◌, List, length};
ghost use Rattle.stages.specs.Kind.{map_ok, over};
ghost use Rattle.calls.specs.Call.{Event};
ghost use Rattle.relay.specs.Claims.{Claims};
ghost use Rattle.relay.specs.Held.{held};
ghost use Rattle.relay.specs.Rules.{state_answer, certificate_rows, bench_codes};
ghost use Rattle.relay.specs.Ways.{Way};

use super::Relay;
use crate::certificate::certificate_of;
use calls::certificate_row::CertificateRow;
use calls::status::Report;
use settings::refusal::Refusal;
use stages::kind_set::KindSet;
use verdict::bench::bench_of;

impl<K: KindSet> Relay<K> {
    fn report(&self) -> Result<Report, Refusal>
        ensures { result ≡ state_answer (held self.now) }
    {
        self.kept.file().ok_or(Refusal::NoFile)?;
        Ok(Report {
            bound: self.bound,
            status: self.status,
        })
    }

    // The certified bound of the file, and the status of the counter. The claims hold of every list of calls on a new relay
    // that led to this one.
    pub fn state(&self) -> Result<Report, Refusal>
        ensures answer { result ≡ state_answer (held self.now) }
        ensures claims { (events : List Event) → Way (K.meaning self.now.kinds) events (held self.now) → Claims (K.meaning self.now.kinds) events (held self.now) }
    {
        self.report()
    }

    // The wires after a stage, 0 meaning the inputs, with the bits that they need, in front of the buffer, and how many.
    pub fn certificate(&self, stage: u32, out: &mut [CertificateRow]) -> Result<usize, Refusal>
        ensures answer { result ≡ map_ok length (certificate_rows (K.meaning self.now.kinds) (held self.now) stage (length out.old)) }
        ensures buffer { out.new ≡ over (certificate_rows (K.meaning self.now.kinds) (held self.now) stage (length out.old)) out.old }
    {
        let file = self.kept.file().ok_or(Refusal::NoFile)?;
        certificate_of(&self.kinds, file, stage, out)
    }

    // A stage, counted from 1, run on the caller's codes, in front of the buffer, and how many.
    pub fn bench(&self, stage: u32, codes: &[i32], out: &mut [i32]) -> Result<usize, Refusal>
        ensures answer { result ≡ map_ok length (bench_codes (K.meaning self.now.kinds) (held self.now) stage codes.now (length out.old)) }
        ensures buffer { out.new ≡ over (bench_codes (K.meaning self.now.kinds) (held self.now) stage codes.now (length out.old)) out.old }
    {
        let file = self.kept.file().ok_or(Refusal::NoFile)?;
        bench_of(&self.kinds, file, stage, codes, out)
    }
}

// The calls that change a relay.
ghost use Rattle.std.specs.Prelude.{◌≡◌};
ghost use Rattle.stages.specs.Kind.{map_ok};
ghost use Rattle.verdict.specs.Verdict.{verdict_of};
ghost use Rattle.relay.specs.Held.{held};
ghost use Rattle.relay.specs.Rules.{fresh, load_after, frame_answer, with_status, reset_answer};

use super::Relay;
use crate::kept::Kept;
use calls::status::Status;
use counter::{idle_status, step};
use settings::refusal::Refusal;
use stages::kind_set::KindSet;
use verdict::file::judge;
use verdict::output::works::output_of;

// Each call says that the kinds stay: no type says of a `&mut self` which of its fields do.
impl<K: KindSet> Relay<K> {
    // No file, count 0, no trip.
    pub fn new(kinds: K) -> Relay<K>
        ensures state { held result ≡ fresh }
        ensures set { result.kinds ≡ kinds }
    {
        Relay {
            kinds,
            kept: Kept::empty(),
            bound: 0,
            status: idle_status(),
        }
    }

    // Judges the whole file; a taken file is kept, and the counter starts again. Answers the certified bound.
    pub fn load(&mut self, file: &[u8]) -> Result<u32, Refusal>
        ensures answer { result ≡ verdict_of (K.meaning self.old.kinds) file.now }
        ensures state { held self.new ≡ load_after file.now (verdict_of (K.meaning self.old.kinds) file.now) (held self.old) }
        ensures set { self.new.kinds ≡ self.old.kinds }
    {
        let bound = judge(&self.kinds, file)?;
        self.kept.keep(file);
        self.bound = bound;
        self.status = idle_status();
        Ok(bound)
    }

    // Works out the output code of a frame and counts.
    pub fn frame(&mut self, codes: &[i32]) -> Result<Status, Refusal>
        ensures answer { result ≡ frame_answer (K.meaning self.old.kinds) (held self.old) codes.now }
        ensures state { held self.new ≡ with_status (frame_answer (K.meaning self.old.kinds) (held self.old) codes.now) (held self.old) }
        ensures set { self.new.kinds ≡ self.old.kinds }
    {
        let file = self.kept.file().ok_or(Refusal::NoFile)?;
        let output = output_of(&self.kinds, file, codes)?;
        let status = step(output, self.status);
        self.status = status;
        Ok(status)
    }

    // Sets the count to 0 and clears the trip; the last code and whether it was picked stay.
    pub fn reset(&mut self) -> Result<(), Refusal>
        ensures answer { result ≡ map_ok (λ _. tt) (reset_answer (held self.old)) }
        ensures state { held self.new ≡ with_status (reset_answer (held self.old)) (held self.old) }
        ensures set { self.new.kinds ≡ self.old.kinds }
    {
        self.kept.file().ok_or(Refusal::NoFile)?;
        self.status.count = 0;
        self.status.trip = false;
        Ok(())
    }
}

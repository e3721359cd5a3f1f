// A set of stage kinds, by what each number that it knows means.
ghost use Rattle.std.specs.Prelude.{◌≡◌, ℕ, length, is_some, IfErr, Some as some};
ghost use Rattle.stages.specs.Kind.{Kind, Kinds, kind_of, map_ok};
ghost use Rattle.stages.specs.Containment.{Lawful, Given, Passes};
ghost use Rattle.stages.specs.Network.{stand, wires_by};
ghost use Rattle.stages.specs.Wires.{setting_in};

use crate::shape::{KindRefusal, RunRefusal, Shape};
use crate::stage::Stage;
use crate::wires::{Codes, WireRows};
use fixed::row::WireRow;

// A kind is asked for by a number and not by an enum: which kinds there are is open, and a file may name one that no set knows.
pub trait KindSet {
    ghost meaning: { Self → Kinds };

    fn knows(&self, number: u8) -> bool
        ensures { result ≡ is_some (meaning self.now number) };

    // The shape after a stage, and its wires in a lent list, which a refusal leaves as it is. Handed back, so large a value would be moved
    // at each step on its way.
    fn judge(
        &self,
        number: u8,
        stage: Stage<'_>,
        wires: &[WireRow],
        after: &mut WireRows,
    ) -> Result<Shape, KindRefusal>
        requires { Given (setting_in stage) wires.now }
        ensures answer { map_ok (λ s. stand s after.new.items) result ≡ wires_by (kind_of (meaning self.now number)) (setting_in stage.entry) wires.now }
        ensures stays { IfErr result (λ _. after.new ≡ after.old) };

    // The codes after a stage that some wires pass, in a lent list, which a refusal leaves as it is. That there is a code for each of the
    // wires is a premise: a run is not given them.
    fn run(
        &self,
        number: u8,
        stage: Stage<'_>,
        codes: &[i32],
        after: &mut Codes,
    ) -> Result<(), RunRefusal>
        requires passes { Passes (kind_of (meaning self.now number)) (setting_in stage) }
        requires many { length codes.now ≡ stage.before.count }
        ensures answer { map_ok (λ _. after.new.items) result ≡ (kind_of (meaning self.now number)).code (setting_in stage.entry) codes.now }
        ensures stays { IfErr result (λ _. after.new ≡ after.old) };

    ghost lawful: { (s : Self) (n : ℕ) (k : Kind) → meaning s n ≡ some k → Lawful k };
}

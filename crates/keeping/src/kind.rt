// A kind that keeps the format, as a set of one kind.
ghost use Rattle.std.specs.Prelude.{◌≡◌};
ghost use Rattle.std.specs.Int.{int_max};
ghost use Rattle.stages.specs.Kind.{only};
ghost use Rattle.stages.proofs.Sets.{only-lawful};
ghost use Rattle.keeping.specs.Signals.{rectified, larger_row, rectified_row};
ghost use Rattle.keeping.specs.Keeping.{keeping};
ghost use Rattle.keeping.specs.Kept.{lawful-keeping};

use crate::operation::Operation;
use crate::record::size_of;
use fixed::row::WireRow;
use stages::kind_set::KindSet;
use stages::shape::{KindRefusal, RunRefusal, Shape};
use stages::stage::Stage;
use stages::wires::{Codes, WireRows};

#[derive(Clone, Copy)]
pub struct Keeping<O>(pub O);

// `Rows` of the kinds that multiply is such a set too: a trait between the two would repeat the contracts of `judge` and `run`.
impl<O: Operation> KindSet for Keeping<O> {
    ghost meaning = { λ _. only O.NUMBER (keeping O.within O.count (O.outputs larger_row rectified_row) (O.outputs int_max rectified)) };

    ghost lawful = { λ s. only-lawful O.NUMBER _ (lawful-keeping O.keeps) };

    fn knows(&self, number: u8) -> bool {
        number == O::NUMBER
    }

    fn judge(
        &self,
        number: u8,
        stage: Stage<'_>,
        wires: &[WireRow],
        after: &mut WireRows,
    ) -> Result<Shape, KindRefusal> {
        if !self.knows(number) {
            return Err(KindRefusal::Unknown);
        }
        let size = size_of(stage.bytes);
        if !self.0.within(size, stage.before.count) {
            return Err(KindRefusal::Size);
        }
        if stage.bytes.len() != 2 {
            return Err(KindRefusal::Length);
        }
        self.0.outputs(size, wires, after);
        Ok(Shape {
            count: after.len() as u8,
            ..stage.before
        })
    }

    fn run(
        &self,
        number: u8,
        stage: Stage<'_>,
        codes: &[i32],
        after: &mut Codes,
    ) -> Result<(), RunRefusal> {
        self.0.outputs(size_of(stage.bytes), codes, after);
        Ok(())
    }
}

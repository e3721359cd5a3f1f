// The kind of the stages of rows with a plan.
ghost use Rattle.stages.specs.Kind.{only};
ghost use Rattle.rows.specs.Plan.{rows_kind};
ghost use Rattle.stages.proofs.Sets.{only-lawful};
ghost use Rattle.rows.specs.StageLaw.{rows-lawful};

use crate::plan::Plan;
use crate::through::{judge_plan, run_plan};
use fixed::row::WireRow;
use stages::kind_set::KindSet;
use stages::shape::{KindRefusal, RunRefusal, Shape};
use stages::stage::Stage;
use stages::wires::{Codes, WireRows};

// The set that knows the plan's number alone.
#[derive(Clone, Copy)]
pub struct Rows<P>(pub P);

impl<P: Plan> KindSet for Rows<P> {
    ghost meaning = { λ _. only P.NUMBER (rows_kind P.plan) };

    ghost lawful = { λ s. only-lawful P.NUMBER (rows_kind P.plan) (rows-lawful P.plan P.good) };

    fn knows(&self, number: u8) -> bool {
        number == P::NUMBER
    }

    fn judge(
        &self,
        number: u8,
        stage: Stage<'_>,
        wires: &[WireRow],
        after: &mut WireRows,
    ) -> Result<Shape, KindRefusal> {
        if !self.knows(number) {
            return Err(KindRefusal::Unknown);
        }
        judge_plan::<P>(stage, wires, after)
    }

    fn run(
        &self,
        number: u8,
        stage: Stage<'_>,
        codes: &[i32],
        after: &mut Codes,
    ) -> Result<(), RunRefusal> {
        run_plan::<P>(stage, codes, after)
    }
}

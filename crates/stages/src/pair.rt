// Two sets side by side: numbers that the first knows go to it, all others to the second.
ghost use Rattle.std.specs.Prelude.{◌≡◌};
ghost use Rattle.stages.specs.Kind.{or_else};
ghost use Rattle.std.proofs.Common.{rules};

use crate::kind_set::KindSet;
use crate::shape::{KindRefusal, RunRefusal, Shape};
use crate::stage::Stage;
use crate::wires::{Codes, WireRows};
use fixed::row::WireRow;

#[derive(Clone, Copy)]
pub struct Pair<A, B> {
    pub first: A,
    pub second: B,
}

// `judge` and `run` choose apart: one function that chooses would take two closures for each of them, and be no plainer.
impl<A: KindSet, B: KindSet> KindSet for Pair<A, B> {
    ghost meaning = { λ s n. or_else (A.KindSet.meaning s.first n) (B.KindSet.meaning s.second n) };

    ghost lawful = { Prim.search rules };

    fn knows(&self, number: u8) -> bool {
        self.first.knows(number) || self.second.knows(number)
    }

    fn judge(
        &self,
        number: u8,
        stage: Stage<'_>,
        wires: &[WireRow],
        after: &mut WireRows,
    ) -> Result<Shape, KindRefusal> {
        let Pair { first, second } = self;
        if first.knows(number) {
            first.judge(number, stage, wires, after)
        } else {
            second.judge(number, stage, wires, after)
        }
    }

    fn run(
        &self,
        number: u8,
        stage: Stage<'_>,
        codes: &[i32],
        after: &mut Codes,
    ) -> Result<(), RunRefusal> {
        let Pair { first, second } = self;
        if first.knows(number) {
            first.run(number, stage, codes, after)
        } else {
            second.run(number, stage, codes, after)
        }
    }
}

// Stages of rows: what full and taps differ in.
ghost use Rattle.std.specs.Prelude.{◌≡◌, ℕ, Option as Maybe};
ghost use Rattle.rows.specs.declared.layout.Layout.{Layout as Placing};
ghost use Rattle.rows.specs.Plan.{GoodPlan};

use crate::layout::Layout;

// The number of a kind, and the layout of its stages of some size over some inputs, if the size is inside its limits.
pub trait Plan {
    const NUMBER: u8;

    ghost NUMBER: { ℕ };

    ghost plan: { ℕ → ℕ → Maybe Placing };

    fn layout(size: u8, count: u8) -> Option<Layout>
        ensures { result ≡ plan size count };

    ghost good: { GoodPlan plan };
}

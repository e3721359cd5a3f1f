// Taps, kind 2: one row over every window of the inputs.
ghost use Rattle.rows.specs.Plan.{taps_plan};
ghost use Rattle.std.proofs.Common.{rules};

use crate::layout::Layout;
use crate::plan::Plan;

#[derive(Clone, Copy)]
pub struct Taps;

impl Plan for Taps {
    const NUMBER: u8 = 2;

    ghost NUMBER = { 2 };

    ghost plan = { taps_plan };

    ghost good = { Prim.search rules };

    fn layout(size: u8, count: u8) -> Option<Layout> {
        if !matches!(size, 1..=31) || size > count {
            return None;
        }
        Some(Layout {
            outputs: count - size + 1,
            length: size,
            numbers: u16::from(size) + 1,
            stride: 0,
            slide: 1,
            biases: u16::from(size),
            spacing: 0,
        })
    }
}

// The full stage, kind 1: every output is a row over all inputs.
ghost use Rattle.rows.specs.Plan.{full_plan};
ghost use Rattle.std.proofs.Common.{rules};

use crate::layout::Layout;
use crate::plan::Plan;

#[derive(Clone, Copy)]
pub struct Full;

impl Plan for Full {
    const NUMBER: u8 = 1;

    ghost NUMBER = { 1 };

    ghost plan = { full_plan };

    ghost good = { Prim.search rules };

    fn layout(size: u8, count: u8) -> Option<Layout> {
        if !matches!(size, 1..=64) {
            return None;
        }
        let biases = u16::from(size) * u16::from(count);
        Some(Layout {
            outputs: size,
            length: count,
            numbers: biases + u16::from(size),
            stride: count,
            slide: 0,
            biases,
            spacing: 1,
        })
    }
}

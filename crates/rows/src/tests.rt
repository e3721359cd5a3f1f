use crate::evaluated::Evaluated;
use crate::row::Row;
use crate::row_format::RowFormat;
use crate::scales::Scales;
use fixed::row::WireRow;
use stages::shape::KindRefusal;
use std::test::Fail;

const SCALES: Scales = Scales {
    fw: 4,
    ww: 8,
    fx: 8,
    fy: 8,
    wy: 10,
    bits: 17,
};

#[test]
fn weight_codes(rt: HostRuntime) -> Result<(), Fail> {
    let Some(format) = RowFormat::new(SCALES) else {
        assert!(rt; false);
        return Ok(());
    };
    assert_eq!(rt; format.weight_code(5_033_165), 4);
    assert_eq!(rt; format.weight_code(-5_033_165), -5);
    Ok(())
}

// Weights of opposite sign: their inputs' errors add up, and only the first partial sum needs 17 bits.
#[test]
fn opposite_weights(rt: HostRuntime) -> Result<(), Fail> {
    let weights = [8_388_608, -8_388_608];
    let rows = [WireRow {
        low: 4_096,
        high: 5_000,
        error: 65_536,
    }; 2];
    let Some(wide) = RowFormat::new(SCALES) else {
        assert!(rt; false);
        return Ok(());
    };
    let row = Row {
        format: wide,
        weights: &weights,
        bias: 0,
        inputs: &rows,
    };
    match Evaluated::output(&row, 0) {
        Ok(wire) => assert_eq!(rt; (wire.low, wire.high, wire.error), (-452, 452, 126_976)),
        Err(_) => assert!(rt; false),
    }
    let Some(narrow) = RowFormat::new(Scales { bits: 16, ..SCALES }) else {
        assert!(rt; false);
        return Ok(());
    };
    let row = Row {
        format: narrow,
        weights: &weights,
        bias: 0,
        inputs: &rows,
    };
    match Evaluated::output(&row, 3) {
        Err(KindRefusal::RangeSum { output }) => {
            assert_eq!(rt; output, 3);
            Ok(())
        },
        _ => {
            assert!(rt; false);
            Ok(())
        },
    }
}

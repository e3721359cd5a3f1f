use crate::floor::floor_shift;
use crate::format::Format;
use crate::row::WireRow;
use crate::wire::Wire;
use crate::word::fits_word;
use std::test::Fail;

#[test]
fn formats(rt: HostRuntime) -> Result<(), Fail> {
    assert!(rt; Format::new(24, 14).is_some());
    assert!(rt; Format::new(24, 13).is_none());
    assert!(rt; Format::new(25, 15).is_none());
    assert!(rt; Format::new(2, 1).is_some());
    assert!(rt; Format::new(2, 2).is_none());
    let Some(format) = Format::new(12, 8) else {
        assert!(rt; false);
        return Ok(());
    };
    assert_eq!(rt; format.grains(-3), -196_608);
    Ok(())
}

#[test]
fn bits_needed(rt: HostRuntime) {
    // low, high, bits
    let table = [
        (0, 0, 1),
        (-1, -1, 1),
        (-1, 0, 1),
        (-2048, 0, 12),
        (-2049, 0, 13),
        (0, 2047, 12),
        (0, 2048, 13),
        (-5, 2047, 12),
        (5, 7, 4),
        (i32::MIN, i32::MAX, 32),
    ];
    for (low, high, bits) in table {
        assert_eq!(rt;
            WireRow {
                low,
                high,
                error: 0,
            }
            .bits_needed(),
            bits
        );
    }
}

#[test]
fn floors_and_words(rt: HostRuntime) {
    assert_eq!(rt; floor_shift(-5, 1), -3);
    assert_eq!(rt; floor_shift(5, 1), 2);
    assert_eq!(rt; floor_shift(-1, 4_000_000_000), -1);
    assert!(rt; fits_word(-128, 8));
    assert!(rt; !fits_word(128, 8));
    assert!(rt; !fits_word(0, 0));
}

#[test]
fn wires(rt: HostRuntime) {
    let Some(format) = Format::new(12, 8) else {
        assert!(rt; false);
        return;
    };
    assert!(rt;
        Wire::new(
            format,
            WireRow {
                low: -2048,
                high: 2047,
                error: 16_777_216,
            },
        )
        .is_some()
    );
    assert!(rt;
        Wire::new(
            format,
            WireRow {
                low: 1,
                high: 0,
                error: 0,
            },
        )
        .is_none()
    );
    assert!(rt;
        Wire::new(
            format,
            WireRow {
                low: 0,
                high: 2048,
                error: 0,
            },
        )
        .is_none()
    );
    assert!(rt;
        Wire::new(
            format,
            WireRow {
                low: -2049,
                high: 0,
                error: 0,
            },
        )
        .is_none()
    );
    assert!(rt;
        Wire::new(
            format,
            WireRow {
                low: 0,
                high: 0,
                error: 16_777_217,
            },
        )
        .is_none()
    );
}

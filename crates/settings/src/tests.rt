use crate::head::reads::read_head;
use crate::refusal::Refusal;
use fixed::row::WireRow;
use std::test::Fail;

// Version 1, a header with one input from -256 to 255, and two bytes of a stage.
const FILE: [u8; 38] = [
    1, 0, 33, 1, 12, 8, 32, 1, 0, 1, 0, 0, 0, 64, 0, 0, 0, 2, 0, 1, 0, 0, 0, 6, 255, 255, 255, 0,
    0, 0, 0, 255, 0, 0, 0, 0, 0, 14,
];

// The number of the refusal, or 0 where the head is taken.
fn number(file: &[u8]) -> u8 {
    match read_head(file) {
        Ok(_) => 0,
        Err(refusal) => refusal.number(),
    }
}

#[test]
fn taken(rt: HostRuntime) -> Result<(), Fail> {
    let Ok(head) = read_head(&FILE) else {
        assert!(rt; false);
        return Ok(());
    };
    let fields = head.header.fields();
    assert_eq!(rt; fields.level, 4_194_304);
    assert_eq!(rt; fields.allowed_error, 65_536);
    assert_eq!(rt; (fields.rise, fields.fall, fields.delay), (2, 1, 6));
    let input = WireRow {
        low: -256,
        high: 255,
        error: 0,
    };
    assert!(rt; head.inputs().as_slice() == [input].as_slice());
    assert_eq!(rt; head.rest.len(), 2);
    Ok(())
}

#[test]
fn one_byte_altered(rt: HostRuntime) {
    // place, value, number
    let table = [
        (0, 2, 11),
        (1, 1, 12),
        (2, 32, 12),
        (2, 34, 12),
        (3, 0, 12),
        (3, 2, 12),
        (3, 255, 12),
        (4, 25, 13),
        (5, 12, 13),
        (5, 1, 13),
        (6, 15, 13),
        (6, 57, 13),
        (7, 0, 13),
        (7, 17, 13),
        (8, 2, 13),
        (12, 128, 0),
        (17, 0, 13),
        (19, 0, 0),
        (23, 0, 13),
        (20, 1, 13),
        (24, 0, 14),
        (30, 8, 14),
        (32, 2, 14),
        (32, 1, 0),
    ];
    for (place, value, expected) in table {
        let mut file = FILE;
        assert!(rt; place < 38);
        file[place] = value;
        assert_eq!(rt; number(&file), expected);
    }
}

#[test]
fn lengths(rt: HostRuntime) {
    assert_eq!(rt; number(&[]), 10);
    for n in 1..36 {
        assert_eq!(rt; number(&FILE[0..n]), 12);
    }
    assert_eq!(rt; number(&FILE[0..36]), 0);
    let mut long = [0u8; 65_537];
    long[0] = 1;
    assert_eq!(rt; number(&long), 10);
    assert_eq!(rt; number(&long[0..65_536]), 12);
    // 65 inputs with their length, and 255 with theirs
    long[1] = 3;
    long[2] = 33;
    long[3] = 65;
    assert_eq!(rt; number(&long[0..65_536]), 13);
    long[1] = 12;
    long[2] = 9;
    long[3] = 255;
    assert_eq!(rt; number(&long[0..65_536]), 13);
}

#[test]
fn refusals(rt: HostRuntime) -> Result<(), Fail> {
    let input = Refusal::InputWire { input: 3 }.to_string(rt.alloc())?;
    assert_eq!(rt; input.as_str(), "refused 14 0 3");
    let sum = Refusal::RunSum { output: 5 }.to_string(rt.alloc())?;
    assert_eq!(rt; sum.as_str(), "refused 44 5");
    let none = Refusal::NoFile.to_string(rt.alloc())?;
    assert_eq!(rt; none.as_str(), "refused 40");
    Ok(())
}

use crate::lists::{pool, repeat};
use crate::operation::Outputs;

#[test]
fn largest_of_blocks(rt: HostRuntime) {
    let mut out = Outputs::new();
    pool(2, &[1, 4, 2, 2, -7], &mut out);
    assert_eq!(rt; out.len(), 3);
    assert!(rt; out.as_slice() == [4, 2, -7].as_slice());
}

#[test]
fn repeated(rt: HostRuntime) {
    let mut out = Outputs::new();
    repeat(2, &[1, -2], &mut out);
    assert_eq!(rt; out.len(), 4);
    assert!(rt; out.as_slice() == [1, 1, -2, -2].as_slice());
}

use crate::answer;
use std::test::Fail;

// What is told of a text with `most` of 3: the count of the bytes that were read.
fn told(rt: &HostRuntime, input: &[u8]) -> Result<Vec<u8>, Fail> {
    let mut output = Vec::new(rt.alloc());
    answer(rt.alloc(), input, &mut output, 3, |bytes| {
        let count = bytes.len();
        format!(in rt.alloc(); "{count} bytes")
    })?;
    Ok(output)
}

#[test]
fn short_input(rt: HostRuntime) -> Result<(), Fail> {
    let output = told(&rt, b"ab")?;
    assert_eq!(rt; output.as_slice(), b"2 bytes".as_slice());
    Ok(())
}

// One byte past the bound is read, and no more.
#[test]
fn long_input(rt: HostRuntime) -> Result<(), Fail> {
    let output = told(&rt, b"abcdefgh")?;
    assert_eq!(rt; output.as_slice(), b"4 bytes".as_slice());
    Ok(())
}

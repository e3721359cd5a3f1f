use crate::line_for;
use std::test::Fail;

#[test]
fn empty_file(rt: HostRuntime) -> Result<(), Fail> {
    let line = line_for(rt.alloc(), &[])?;
    assert_eq!(rt; line.as_str(), "refused 10 0 0\n");
    Ok(())
}

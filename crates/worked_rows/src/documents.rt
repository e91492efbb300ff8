use crate::runs::{Documents, played, verified};
use std::process::Abort;
use std::test::Fail;

/// The documents end with this status and text.
pub fn expect(
    rt: &(impl Abort + AllocGlobal),
    documents: Documents<'_>,
    status: u8,
    text: &str,
) -> Result<(), Fail> {
    let (ended, sink) = verified(rt.alloc(), documents)?;
    assert_eq!(rt; sink.written(), text.as_bytes(), "{text}");
    assert_eq!(rt; ended, status, "{text}");
    Ok(())
}

/// Each run of a transcript ends as it says.
pub fn expect_played(rt: &(impl Abort + AllocGlobal), transcript: &str) -> Result<(), Fail> {
    assert_eq!(rt; played(rt.alloc(), transcript)?, None);
    Ok(())
}

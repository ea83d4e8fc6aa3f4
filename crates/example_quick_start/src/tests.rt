//! Test of the handler.
use crate::ByPath;
use std::test::Fail;
use tiny_http::{TestRequest, answer_of};

#[test]
fn it_answers_by_the_path(rt: HostRuntime) -> Result<(), Fail> {
    let request = TestRequest::new(rt.alloc())?.with_path(rt.alloc(), "/a?b")?;
    let answer = answer_of(rt, rt.alloc(), &ByPath, request)?;
    assert_eq!(rt; answer.body.as_slice(), b"/a".as_slice());
    Ok(())
}

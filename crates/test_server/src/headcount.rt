//! Test of `Headcount`.
use crate::same::{assert_holds, assert_same};
use tiny_http::headcount::Headcount;

#[test]
fn three_enter_and_leave(rt: HostRuntime) {
    let mut present = Headcount::new();
    for _ in 0..3u8 {
        assert_holds(&rt, "one enters", present.enter());
    }
    assert_same(&rt, present.count(), 3);
    for _ in 0..3u8 {
        assert_holds(&rt, "one leaves", present.leave());
    }
    assert_holds(&rt, "nobody is in", !present.leave());
    assert_same(&rt, present.count(), 0);
}

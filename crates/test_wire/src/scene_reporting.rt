//! Tests of the error messages for values that differ.
use crate::same::assert_same;
use std::alloc::Global;
use std::io::ErrorKind;
use std::process::Abort;
use std::test::Fail;
use test_scene_files::mishap::{
    Mishap, demand, demand_bytes, demand_fault, demand_number, demand_text,
};

// Asserts that an outcome's error message is `wanted`, or that `wanted` is empty if there is no error.
fn assert_said(
    rt: &impl Abort,
    alloc: Global,
    outcome: Result<(), Mishap>,
    wanted: &str,
) -> Result<(), Fail> {
    let said = match outcome {
        Ok(()) => String::new(alloc),
        Err(mishap) => format!(in alloc; "{mishap}")?,
    };
    assert_same(rt, said.as_str(), wanted);
    Ok(())
}

#[test]
fn what_differs_is_shown(rt: HostRuntime) -> Result<(), Fail> {
    let alloc = rt.alloc();
    assert_said(
        &rt,
        alloc,
        demand(alloc, "it ends", false),
        "\n    wanted it ends\n    came   not so",
    )?;
    assert_said(
        &rt,
        alloc,
        demand_text(alloc, "/a", "/b"),
        "\n    wanted /a\n    came   /b",
    )?;
    assert_said(
        &rt,
        alloc,
        demand_number(alloc, 1, 12),
        "\n    wanted 1\n    came   12",
    )?;
    let fault = demand_fault(alloc, None, Some(ErrorKind::TimedOut));
    assert_said(
        &rt,
        alloc,
        fault,
        "\n    wanted None\n    came   Some(TimedOut)",
    )?;
    let bytes = demand_bytes(alloc, b"a\r\n", b"a\xff");
    assert_said(&rt, alloc, bytes, "\n    wanted a\\r\\n\n    came   a\\xff")
}

#[test]
fn nothing_is_said_of_what_is_the_same(rt: HostRuntime) -> Result<(), Fail> {
    let alloc = rt.alloc();
    assert_said(&rt, alloc, demand(alloc, "it ends", true), "")?;
    assert_said(&rt, alloc, demand_text(alloc, "/a", "/a"), "")?;
    assert_said(&rt, alloc, demand_number(alloc, 1, 1), "")?;
    assert_said(&rt, alloc, demand_fault(alloc, None, None), "")?;
    assert_said(&rt, alloc, demand_bytes(alloc, b"a", b"a"), "")
}

// Only a part of a long text is shown, from 60 bytes before the first difference.
#[test]
fn a_part_of_a_long_text_is_shown(rt: HostRuntime) -> Result<(), Fail> {
    let alloc = rt.alloc();
    let long = [b'a'; 70];
    let bytes = demand_bytes(alloc, &long, &long[..65]);
    let wanted =
        "\n    wanted aaaaaaaaaaaaaaaaaaaaaaaaaaaaaaaaaaaaaaaaaaaaaaaaaaaaaaaaaaaaaaaaa (70 bytes from byte 5 \
        on)\n    came   aaaaaaaaaaaaaaaaaaaaaaaaaaaaaaaaaaaaaaaaaaaaaaaaaaaaaaaaaaaa (65 bytes from byte 5 on)";
    assert_said(&rt, alloc, bytes, wanted)
}

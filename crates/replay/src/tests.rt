//! Tests of whole scripts: their output, and the exit status.
use crate::fault::ReplayFault;
use crate::{call_in, read_call, replay_on, report};
use replay_script::reply::ReplyLine;
use std::alloc::{AllocError, Global};
use std::io::ErrorKind;
use std::process::Abort;
use std::test::Fail;
use tiny_http_core::driver::Reply;
use tiny_http_core::framing::Profile;

/// The output of a replay, and its exit status.
#[derive(Drop)]
struct Trial {
    status: u8,
    out: Vec<u8>,
    err: Vec<u8>,
}

fn replayed(alloc: Global, bytes: &str, script: &[u8]) -> Result<Trial, AllocError> {
    let bytes = bytes.as_bytes().to_vec(alloc)?;
    let mut out = Vec::new(alloc);
    let mut err = Vec::new(alloc);
    let status = replay_on(alloc, Profile::Lenient, bytes, script, &mut out, &mut err);
    Ok(Trial { status, out, err })
}

// Asserts that a script is refused at this line, and that nothing is run.
fn assert_bad(
    rt: &impl Abort,
    alloc: Global,
    script: &[u8],
    number: usize,
) -> Result<(), AllocError> {
    let run = replayed(alloc, "GET / HTTP/1.1\r\n\r\n", script)?;
    let line = format!(in alloc; "replay: bad line {number}\n")?;
    assert_eq!(rt; run.status, 2, "{script:?}");
    assert_eq!(rt; run.err.as_slice(), line.as_bytes(), "{script:?}");
    assert!(rt; run.out.is_empty(), "{script:?}");
    Ok(())
}

// Asserts the output of a script and the lines of its replies, and that its exit status is 0.
fn assert_good(
    rt: &impl Abort,
    alloc: Global,
    (bytes, script): (&str, &str),
    out: &str,
    err: &str,
) -> Result<(), AllocError> {
    let run = replayed(alloc, bytes, script.as_bytes())?;
    assert_eq!(rt; run.err.as_slice(), err.as_bytes(), "{script:?}");
    assert_eq!(rt; run.out.as_slice(), out.as_bytes(), "{script:?}");
    assert_eq!(rt; run.status, 0, "{script:?}");
    Ok(())
}

const HELLO: (&str, &str) = (
    "GET /hello HTTP/1.1\r\n\r\n",
    "ask\nrespond 0 200 text hello world\n",
);

const HELLO_OUT: &str =
    "HTTP/1.1 200 OK\r\nServer: tiny-http (Rust)\r\nDate: Wed, 04 May 1983 11:17:00 GMT\r\n\
    Content-Type: text/plain; charset=UTF-8\r\nContent-Length: 11\r\n\r\nhello world";

#[test]
fn bytes_are_printed_in_hexadecimal(rt: HostRuntime) -> Result<(), Fail> {
    for (bytes, want) in [
        (b"".as_slice(), "given"),
        (b"\0", "given 00"),
        (b"\x09\x0a\x0f\x10", "given 090a0f10"),
        (b"\x7f\x80\x9f\xa0\xbc\xde\xff", "given 7f809fa0bcdeff"),
        (b"hello", "given 68656c6c6f"),
    ] {
        let reply = Reply::Given(bytes.to_vec(rt.alloc())?);
        let line = format!(in rt.alloc(); "{}", ReplyLine(&reply))?;
        assert_eq!(rt; line.as_str(), want);
    }
    Ok(())
}

// Tries scripts without a step, a script with several kinds of replies, and a script with output.
#[test]
fn replies_are_written(rt: HostRuntime) -> Result<(), Fail> {
    let two = "GET /a HTTP/1.1\r\n\r\nPOST /b HTTP/1.1\r\nContent-Length: 5\r\n\r\nhello";
    let script = "ask\nask\nread 1 9\nrespond 1 200 empty\ndrop 1\nask\nread 1 1\n";
    let err =
        "handed 0 GET /a 1.1 0 -\nhanded 1 POST /b 1.1 1 5\ngiven 68656c6c6f\nnotyet\ndone\nended\nnosuch\n";
    for (bytes, script, err) in [("", "", ""), ("", "#ask", ""), (two, script, err)] {
        assert_good(&rt, rt.alloc(), (bytes, script), "", err)?;
    }
    assert_good(
        &rt,
        rt.alloc(),
        HELLO,
        HELLO_OUT,
        "handed 0 GET /hello 1.1 0 -\ndone\n",
    )?;
    Ok(())
}

#[test]
fn no_line_but_the_grammars(rt: HostRuntime) -> Result<(), Fail> {
    for line in [
        " ",
        "Ask",
        "asks",
        " ask",
        "ask ",
        "ask\r",
        "\task",
        "ask #",
        "now",
        "now ",
        "now x",
        "now +1",
        "now -1",
        "now  1",
        "now 1 ",
        "now 1\r",
        "now 253402300800",
        "now 18446744073709551616",
        "drop",
        "drop ",
        "drop x",
        "drop +1",
        "drop  0",
        "drop 0 ",
        "drop 0\r",
        "drop 18446744073709551616",
        "Drop 0",
        "asreader",
        "asreader ",
        "asreader x",
        "asreader  0",
        "asreader 0 ",
        "asreader 18446744073709551616",
        "Asreader 0",
        "writer",
        "writer ",
        "writer x",
        "writer 0 ",
        "writer 18446744073709551616",
        "write",
        "write ",
        "write 0",
        "write x y",
        "write 18446744073709551616 y",
        "flush",
        "flush 0 ",
        "flush 18446744073709551616",
        "finish",
        "finish 0 ",
        "finish 18446744073709551616",
        "upgrade",
        "upgrade 0",
        "upgrade 0 101",
        "upgrade 0 65536 foo",
        "upgrade x 101 foo",
        "upgrade 0 x foo",
        "upgrade 18446744073709551616 101 foo",
        "read",
        "read ",
        "read 0",
        "read 0 ",
        "read  0 5",
        "read 0  5",
        "read 0 5 ",
        "read 0 5\r",
        "read 0\t5",
        "read x 5",
        "read 0 x",
        "read +0 5",
        "read 0 +5",
        "read 0 -5",
        "read 0 65536",
        "read 0 18446744073709551621",
        "read 18446744073709551616 5",
        "Read 0 5",
    ] {
        assert_bad(&rt, rt.alloc(), line.as_bytes(), 1)?;
    }
    Ok(())
}

#[test]
fn no_answer_but_the_grammars(rt: HostRuntime) -> Result<(), Fail> {
    for line in [
        "respond",
        "respond ",
        "respond 0",
        "respond 0 200",
        "respond 0 200 ",
        "respond 0 200 text",
        "respond 0 200 Text x",
        "respond 0 200 empty ",
        "respond 0 200 empty x",
        "respond 0 200 empty\r",
        "respond  0 200 empty",
        "respond 0  200 empty",
        "respond 0 200  empty",
        "respond 0 200  text x",
        "respond +0 200 empty",
        "respond 0 -1 empty",
        "respond a 200 empty",
        "respond 0 65536 empty",
        "respond 18446744073709551616 200 empty",
        "respond 0 18446744073709551616 empty",
        "respond 0 200 stream",
        "respond 0 200 stream ",
        "respond 0 200 stream x",
        "respond 0 200 stream +5",
        "respond 0 200 stream 65536",
        "respond 0 200 stream 18446744073709551621",
        "respond 0 200 stream  5",
        "respond 0 200 stream 5 ",
        "respond 0 200 stream 5\r",
        "respond 0 200  stream 5",
        "respond 0 200 Stream 5",
        "respond 0 200 streams 5",
        "respond 0 200 broken",
        "respond 0 200 broken x",
        "respond 0 200 broken -1",
        "respond 0 200 broken 65536",
        "respond 0 200 broken 5 ",
    ] {
        assert_bad(&rt, rt.alloc(), line.as_bytes(), 1)?;
    }
    Ok(())
}

#[test]
fn the_first_bad_line_is_reported(rt: HostRuntime) -> Result<(), Fail> {
    for (script, number) in [
        ("ask\nrespond 0 200 text x\nbad\nworse\n", 3),
        ("\n# one\n\nask \nask", 4),
        ("ask\nask\r\nask", 2),
        ("# caf\u{e9}\nask", 1),
        ("ask\nrespond 0 200 text caf\u{e9}", 2),
        ("\n\n\n\n\n\n\n\n\nten", 10),
    ] {
        assert_bad(&rt, rt.alloc(), script.as_bytes(), number)?;
    }
    assert_bad(&rt, rt.alloc(), b"ask\n#\x80\n", 2)?;
    Ok(())
}

#[test]
fn an_output_that_refuses(rt: HostRuntime) -> Result<(), Fail> {
    let alloc = rt.alloc();
    let (bytes, script) = HELLO;
    let mut room = [0u8; 5];
    let mut full = room.as_mut_slice();
    let mut err = Vec::new(alloc);
    let request = bytes.as_bytes().to_vec(alloc)?;
    assert_eq!(rt;
        replay_on(
            alloc,
            Profile::Strict,
            request,
            script.as_bytes(),
            &mut full,
            &mut err
        ),
        1
    );
    assert_eq!(rt; err.as_slice(), b"replay: cannot write\n".as_slice());
    Ok(())
}

#[test]
fn an_error_stream_that_refuses(rt: HostRuntime) -> Result<(), Fail> {
    let alloc = rt.alloc();
    let (bytes, script) = HELLO;
    for script in [script, "bad"] {
        let mut room = [0u8; 5];
        let mut full = room.as_mut_slice();
        let mut out = Vec::new(alloc);
        let request = bytes.as_bytes().to_vec(alloc)?;
        assert_eq!(rt;
            replay_on(
                alloc,
                Profile::Lenient,
                request,
                script.as_bytes(),
                &mut out,
                &mut full
            ),
            1
        );
    }
    Ok(())
}

#[test]
fn faults_are_reported(rt: HostRuntime) -> Result<(), Fail> {
    let alloc = rt.alloc();
    for (fault, line, status) in [
        (
            ReplayFault::Usage,
            "replay: usage: replay [--strict | --standard] BYTES SCRIPT\n",
            2,
        ),
        (
            ReplayFault::CannotRead("a b"),
            "replay: cannot read a b\n",
            2,
        ),
        (ReplayFault::BadLine(12), "replay: bad line 12\n", 2),
        (ReplayFault::OutOfMemory, "replay: out of memory\n", 1),
        (ReplayFault::CannotWrite, "replay: cannot write\n", 1),
    ] {
        let mut err = Vec::new(alloc);
        assert_eq!(rt; report(&fault, &mut err), status);
        assert_eq!(rt; err.as_slice(), line.as_bytes());
    }
    Ok(())
}

#[test]
fn the_bytes_are_read_first(rt: HostRuntime) -> Result<(), Fail> {
    let alloc = rt.alloc();
    let mut words = Vec::new(alloc);
    for word in ["replay", "missing.request", "missing.script"] {
        assert_eq!(rt;
            read_call(&rt, words.as_slice()).err(),
            Some(ReplayFault::Usage)
        );
        words.push(String::from_str(alloc, word)?)?;
    }
    let fault = read_call(&rt, words.as_slice()).err();
    assert_eq!(rt; fault, Some(ReplayFault::CannotRead("missing.request")));
    Ok(())
}

#[test]
fn the_profile_is_named_first(rt: HostRuntime) -> Result<(), Fail> {
    let alloc = rt.alloc();
    for (call, want) in [
        ("replay a b", Some((Profile::Lenient, "a", "b"))),
        ("replay --strict a b", Some((Profile::Strict, "a", "b"))),
        ("replay --standard a b", Some((Profile::Standard, "a", "b"))),
        ("replay --standard --strict b", None),
        ("replay -strict b", Some((Profile::Lenient, "-strict", "b"))),
        ("replay --strict a", None),
        ("replay a --strict", None),
        ("replay a --strict b", None),
        ("replay a b --strict", None),
        ("replay --strict --strict b", None),
        ("replay --strict --strict a b", None),
        ("replay --lenient a b", None),
        ("replay --Strict a b", None),
        ("replay -strict a b", None),
        ("replay --strict a b c", None),
        ("replay --strict", None),
    ] {
        let mut words = Vec::new(alloc);
        for word in call.split(' ') {
            words.push(String::from_str(alloc, word)?)?;
        }
        assert_eq!(rt; call_in(words.as_slice()), want, "{call}");
    }
    Ok(())
}

// A head has two different content lengths: `Lenient` uses the first, and `Strict` refuses the head with 400.
#[test]
fn the_profile_decides(rt: HostRuntime) -> Result<(), Fail> {
    let alloc = rt.alloc();
    let client = "POST / HTTP/1.1\r\nContent-Length: 0\r\nContent-Length: 5\r\n\r\n";
    for (profile, want) in [
        (Profile::Lenient, "handed 0 POST / 1.1 2 0\n"),
        (Profile::Strict, "ended\n"),
    ] {
        let mut out = Vec::new(alloc);
        let mut err = Vec::new(alloc);
        let bytes = client.as_bytes().to_vec(alloc)?;
        assert_eq!(rt;
            replay_on(alloc, profile, bytes, b"ask\n", &mut out, &mut err),
            0
        );
        assert_eq!(rt; err.as_slice(), want.as_bytes());
    }
    Ok(())
}

#[test]
fn kinds_of_fault(rt: HostRuntime) -> Result<(), Fail> {
    for (kind, want) in [
        (ErrorKind::InvalidData, "fault InvalidData"),
        (ErrorKind::UnexpectedEof, "fault UnexpectedEof"),
        (ErrorKind::OutOfMemory, "fault OutOfMemory"),
        (ErrorKind::Other, "fault Other"),
        (ErrorKind::TimedOut, "fault Other"),
    ] {
        let reply = Reply::Fault(kind);
        let line = format!(in rt.alloc(); "{}", ReplyLine(&reply))?;
        assert_eq!(rt; line.as_str(), want);
    }
    let line = format!(in rt.alloc(); "{}", ReplyLine(&Reply::Memory))?;
    assert_eq!(rt; line.as_str(), "memory");
    Ok(())
}

//! Tests of the reader of case files, of the readers and writers of trials, and of the reports of runs that differ.
use crate::same::assert_same;
use std::alloc::Global;
use std::io::{ErrorKind, Write};
use std::process::Abort;
use std::test::Fail;
use test_case_files::case::Case;
use test_case_files::devices::{Reader, Trier};
use test_case_files::reading::read_cases;
use test_case_trials::front::{cut_difference, plain_difference};
use test_case_trials::outcome::{Difference, Outcome, first_difference};
use test_case_trials::report::{Runner, files_of, try_files};
use test_case_trials::steps::StepsFault;
use test_case_trials::trial::{Harm, Trial};
use test_data_files::fault::FilesFault;
use test_data_files::program::NamedFile;
use tiny_http_wire::device::ReadDevice;

// Invalid files, each with the number of the line at which reading fails, and the reason.
const BAD: &[(&str, usize, &str)] = &[
    ("", 1, "there is no case"),
    ("# a\n", 2, "there is no case"),
    ("ask\n", 1, "no case has begun"),
    ("case a b\n", 1, "a case has a name of one word"),
    (
        "case a\nask\n  done\ncase a\n",
        4,
        "an earlier case has this name",
    ),
    ("case a\ncase b\n", 2, "the case before has no step"),
    ("case a\nnow 5\n", 3, "the case before has no step"),
    (
        "case a\nanswer 0 200\n+ header no colon\n",
        3,
        "no such header line",
    ),
    (
        "case a\nask\ncase b\n",
        3,
        "the last step of the case before has no reply",
    ),
    (
        "case a\nask\n",
        3,
        "the last step of the case before has no reply",
    ),
    ("case a\nask\nask\n", 3, "the step before has no reply"),
    (
        "case a\nask\n  done\n  done\n",
        4,
        "the step before has a reply already",
    ),
    ("case a\n  done\n", 2, "no step comes before this reply"),
    ("case a\nasks\n", 2, "no such line"),
    ("case a\n#\n ask\n", 3, "no such line"),
    ("case a\nrespond 0 200 gzip\n", 2, "no such line"),
    ("case a\nstop Odd\n", 2, "no such kind of fault"),
    (
        "case a\nstop Other\nstop Other\n",
        3,
        "the case says so already",
    ),
    (
        "case a\ntakes 5\n",
        2,
        "a writer's room is a number and a kind",
    ),
    ("case a\ntakes +5 Other\n", 2, "a number is missing"),
    ("case a\nclient \\q\n", 2, "a backslash begins no escape"),
    ("case a\nclient \\x4\n", 2, "a backslash begins no escape"),
    (
        "case a\nclient \\{3a}\n",
        2,
        "a repeated piece is \\{COUNT TEXT}",
    ),
    ("case a\n+ data x\n", 2, "no answer comes before this part"),
    (
        "case a\nanswer 0\n",
        2,
        "an answer has a number and a status",
    ),
    ("case a\nanswer 0 65536\n", 2, "a status is below 65536"),
    (
        "case a\nanswer 0 200\n+ size 3\n",
        3,
        "an answer has no such part, or has it already",
    ),
    ("case a\nuncut x\n", 2, "nothing may follow uncut"),
    ("case a\nuncut\nuncut\n", 3, "the case says so already"),
    (
        "case a\nprofile lenient\n",
        2,
        "a case names no profile but strict and standard",
    ),
    (
        "case a\nprofile strict\nprofile strict\n",
        3,
        "the case says so already",
    ),
    (
        "case a\nprofile strict\nclient G\nvary 1\nask\n  ended\n",
        7,
        "the case before varies bytes, and the strict profile has no plain reading",
    ),
    (
        "case a\nclient G\nvary 2\nask\n  ended\n",
        6,
        "the case before varies more bytes than its client sends",
    ),
    (
        "case a\nclient caf\u{e9}\n",
        2,
        "a byte from 128 on is written \\xHH",
    ),
];

#[test]
fn lines_that_are_not_of_the_format(rt: HostRuntime) -> Result<(), Fail> {
    for (file, number, why) in BAD {
        let fault = read_cases(rt.alloc(), "a.cases", file.as_bytes()).err();
        assert_same(
            &rt,
            fault,
            Some(FilesFault::BadLine("a.cases", *number, why)),
        );
    }
    Ok(())
}

// The outcome of a trial, in brief.
#[derive(Clone, Copy, Debug)]
struct Found {
    reply: &'static str,
    output: &'static str,
    failures: u64,
    later: u64,
    end: &'static str,
}

// The outcome that `CASE` states.
const GOOD: Found = Found {
    reply: "ended",
    output: "a\r\nb",
    failures: 0,
    later: 0,
    end: "cut",
};

const CASE: &str = "case a\nclient G\nask\n  ended\noutput a\\r\\nb\nend cut\n";

impl Found {
    fn outcome(self, alloc: Global) -> Result<Outcome, StepsFault> {
        let mut replies = Vec::new(alloc);
        let reply = self.reply.as_bytes().to_vec(alloc)?;
        if replies.push(reply).is_err() {
            return Err(StepsFault::OutOfMemory);
        }
        Ok(Outcome {
            replies,
            output: self.output.as_bytes().to_vec(alloc)?,
            has_failed: self.failures > 0,
            failures: self.failures,
            later: self.later,
            end: Some(self.end.as_bytes().to_vec(alloc)?),
        })
    }
}

// Outcomes of `CASE`, each with whether a call was made to fail, and the outcome's first difference from the case.
const DIFFERENCES: &[(Found, bool, &str)] = &[
    (GOOD, false, ""),
    (GOOD, true, ""),
    (
        Found {
            reply: "done",
            ..GOOD
        },
        false,
        "reply 1: done, ended",
    ),
    (
        Found {
            output: "a\nb",
            ..GOOD
        },
        false,
        "output from byte 1: \\nb, \\r\\nb",
    ),
    (
        Found {
            output: "a\r\n",
            ..GOOD
        },
        true,
        "output from byte 3: , b",
    ),
    (
        Found {
            output: "a\r\nbc",
            ..GOOD
        },
        false,
        "output from byte 4: c, ",
    ),
    (
        Found {
            end: "closed",
            ..GOOD
        },
        false,
        "the end: closed, cut",
    ),
    (
        Found { later: 1, ..GOOD },
        false,
        "calls after a failure: 1, 0",
    ),
    (
        Found {
            failures: 1,
            ..GOOD
        },
        false,
        "failures: 1, 0",
    ),
    // After an injected failure a prefix of the output is enough. Only the reply to a step that responds, writes or
    // flushes may report the failure.
    (
        Found {
            failures: 1,
            output: "a",
            ..GOOD
        },
        true,
        "",
    ),
    (
        Found {
            failures: 1,
            output: "b",
            ..GOOD
        },
        true,
        "output from byte 0: b, a\\r\\nb",
    ),
    (
        Found {
            failures: 2,
            ..GOOD
        },
        true,
        "failures: 2, 1",
    ),
    (
        Found {
            failures: 1,
            reply: "fault Interrupted",
            ..GOOD
        },
        true,
        "reply 1: fault Interrupted, ended",
    ),
];

// Returns the first difference of this outcome from `CASE`, or an empty text if there is none.
fn difference_of(alloc: Global, found: Found, is_made_to_fail: bool) -> Result<String, Fail> {
    let Ok(cases) = read_cases(alloc, "a.cases", CASE.as_bytes()) else {
        return Err("no case".into());
    };
    let outcome = found.outcome(alloc)?;
    let Some(case) = cases.first() else {
        return Err("no case".into());
    };
    shown(
        alloc,
        first_difference(alloc, case, &outcome, is_made_to_fail)?,
    )
}

#[test]
fn outcomes_that_differ(rt: HostRuntime) -> Result<(), Fail> {
    for (found, is_made_to_fail, wanted) in DIFFERENCES {
        let difference = difference_of(rt.alloc(), *found, *is_made_to_fail)?;
        assert_same(&rt, difference.as_str(), *wanted);
    }
    Ok(())
}

// A case that reads a body, and whose output has two responses.
const READ: &str =
    "case a\nclient GG\nask\n  handed 0 G\nread 0 3\n  given abc\ndrop 0\n  done\noutput HTTP/xHTTP/y\n";

const TIMED_OUT: &str =
    "HTTP/xHTTP/1.1 408 Request Timeout\r\nServer: tiny-http (Rust)\r\nDate: Wed, 04 May 1983 11:17:00 GMT\r\n\
        Content-Length: 0\r\n\r\n";

// The replies and the output of a trial whose client's bytes were cut, the error at the cut (none for an end), and the
// first difference from the case.
type CutRow = (
    &'static [&'static str],
    &'static str,
    Option<ErrorKind>,
    &'static str,
);

const CUTS: &[CutRow] = &[
    (&["ended", "nosuch", "nosuch"], "", None, ""),
    (&["handed 0 G", "given ab", "done"], "HTTP/x", None, ""),
    (
        &["handed 0 H", "given", "done"],
        "",
        None,
        "request 0 that is handed out: handed 0 H, handed 0 G",
    ),
    (
        &["handed 0 G", "given b", "done"],
        "",
        None,
        "the body of request 0: b, abc",
    ),
    (&["handed 0 G", "given abc"], "", None, "replies: 2, 3"),
    (
        &["handed 0 G", "given abc", "nosuch"],
        "",
        None,
        "the first other reply: nosuch, done",
    ),
    (
        &["handed 0 G", "given", "done"],
        "y",
        None,
        "output from byte 0: y, HTTP/xHTTP/y",
    ),
    (
        &["handed 0 G", "given", "done"],
        "HTTP/",
        None,
        "the output, which is cut in an answer,: HTTP/, HTTP/xHTTP/y",
    ),
    (
        &["handed 0 G", "given", "done"],
        TIMED_OUT,
        Some(ErrorKind::TimedOut),
        "",
    ),
    (
        &["handed 0 G", "given", "done"],
        "HTTP/xHTTP/1",
        Some(ErrorKind::TimedOut),
        "output from byte 11: 1, y",
    ),
    (
        &["handed 0 G", "given", "done"],
        TIMED_OUT,
        Some(ErrorKind::Other),
        "output from byte 11: 1.1 408 Request Timeout\\r\\nServer: tiny-http (Rust)\\r\\nDate: Wed, \
            04 May 1983 11:17:00 GMT\\r\\nContent-Length: 0\\r\\n\\r\\n, y",
    ),
    (
        &["handed 0 G", "handed 1 G", "done"],
        "",
        None,
        "request 1 that is handed out: handed 1 G, ",
    ),
];

// Builds the outcome with these replies and this output.
fn outcome_of(alloc: Global, lines: &[&str], output: &str) -> Result<Outcome, Fail> {
    let mut replies = Vec::new(alloc);
    for line in lines {
        replies.push(line.as_bytes().to_vec(alloc)?)?;
    }
    Ok(Outcome {
        replies,
        output: output.as_bytes().to_vec(alloc)?,
        has_failed: false,
        failures: 0,
        later: 0,
        end: None,
    })
}

// Formats a difference on one line, or as an empty text if there is none.
fn shown(alloc: Global, difference: Option<Difference>) -> Result<String, Fail> {
    match difference {
        Some(it) => {
            let (what, found, wanted) = (it.what.as_str(), it.found.as_str(), it.wanted.as_str());
            Ok(format!(in alloc; "{what}: {found}, {wanted}")?)
        }
        None => Ok(String::new(alloc)),
    }
}

// Returns the first difference between `READ` and a trial of it whose client's bytes were cut.
fn difference_of_cut(alloc: Global, row: &CutRow) -> Result<String, Fail> {
    let (replies, output, stop, _) = row;
    let Ok(cases) = read_cases(alloc, "a.cases", READ.as_bytes()) else {
        return Err("no case".into());
    };
    let Some(case) = cases.first() else {
        return Err("no case".into());
    };
    let outcome = outcome_of(alloc, replies, output)?;
    shown(alloc, cut_difference(alloc, case, &outcome, *stop)?)
}

#[test]
fn cuts_that_differ(rt: HostRuntime) -> Result<(), Fail> {
    for row in CUTS {
        let difference = difference_of_cut(rt.alloc(), row)?;
        assert_same(&rt, difference.as_str(), row.3);
    }
    Ok(())
}

// A client's bytes, the reply to an `ask`, and how that reply differs from what the independent reader
// `test_plain_reading` finds in the bytes under `Lenient`.
const PLAIN: &[[&str; 3]] = &[
    ["GET / HTTP/1.1\r\n\r\n", "handed 0 GET / 1.1 0 -", ""],
    [
        "POST /a HTTP/1.0\r\nA:b\r\nContent-Length: 2\r\n\r\nhi",
        "handed 0 POST /a 1.0 2 2 [A: b] [Content-Length: 2]",
        "",
    ],
    [
        "GET /b HTTP/1.1\r\n\r\n",
        "handed 0 GET / 1.1 0 -",
        "request 0 that is handed out: handed 0 GET / 1.1 0 -, handed 0 GET /b 1.1 0 -",
    ],
    [
        "GET / HTTP/1.1\r\n",
        "handed 0 GET / 1.1 0 -",
        "request 0 that is handed out: handed 0 GET / 1.1 0 -, ",
    ],
    [
        "GET / HTTP/1.1\r\n\r\n",
        "ended",
        "requests that are handed out: 0, 1",
    ],
    ["GET / HTTP/1.1\r\nA : b\r\n\r\n", "ended", ""],
    ["GET / HTTP/1.1\r\nExpect: x\r\n\r\n", "ended", ""],
    [
        "GET / HTTP/2.0\r\n\r\nGET / HTTP/1.1\r\n\r\n",
        "handed 1 GET / 1.1 0 -",
        "",
    ],
];

// A client's bytes, the reply to an `ask`, and how that reply differs from what the independent reader
// `test_plain_reading` finds in the bytes under `Standard`.
const PLAIN_STANDARD: &[[&str; 3]] = &[
    [
        "GET / HTTP/1.2\r\nHost: a\r\n\r\n",
        "handed 0 GET / 1.1 1 - [Host: a]",
        "",
    ],
    [
        "\r\nP /a HTTP/1.0\r\nA:\u{e9}\r\nContent-Length: 2\r\n\r\nhi",
        "handed 0 P /a 1.0 2 2 [A: %C3%A9] [Content-Length: 2]",
        "",
    ],
    [
        "GET /b HTTP/1.0\r\n\r\n",
        "handed 0 GET / 1.0 0 -",
        "request 0 that is handed out: handed 0 GET / 1.0 0 -, handed 0 GET /b 1.0 0 -",
    ],
    [
        "GET / HTTP/1.0\r\n\r\n",
        "ended",
        "requests that are handed out: 0, 1",
    ],
    ["GET / HTTP/1.1\r\n\r\n", "ended", ""],
    ["GET / HTTP/1.0\r\nA : b\r\n\r\n", "ended", ""],
    ["GET / HTTP/1.0\r\nExpect: x\r\n\r\n", "ended", ""],
    ["GET / HTTP/2.0\r\n\r\nGET / HTTP/1.0\r\n\r\n", "ended", ""],
];

const STANDARD_CASE: &str = "case a\nprofile standard\nclient G\nask\n  ended\n";

// Returns how the reply to a client's bytes differs from what `test_plain_reading` finds in them, under the profile of
// the case in `file`.
fn difference_of_plain(
    alloc: Global,
    file: &str,
    client: &str,
    reply: &str,
) -> Result<String, Fail> {
    let Ok(cases) = read_cases(alloc, "a.cases", file.as_bytes()) else {
        return Err("no case".into());
    };
    let Some(case) = cases.first() else {
        return Err("no case".into());
    };
    let outcome = outcome_of(alloc, &[reply], "")?;
    let difference = plain_difference(alloc, case, &outcome, client.as_bytes())?;
    shown(alloc, difference)
}

#[test]
fn a_plain_reading_differs(rt: HostRuntime) -> Result<(), Fail> {
    for [client, reply, wanted] in PLAIN {
        let difference = difference_of_plain(rt.alloc(), CASE, client, reply)?;
        assert_same(&rt, difference.as_str(), *wanted);
    }
    for [client, reply, wanted] in PLAIN_STANDARD {
        let difference = difference_of_plain(rt.alloc(), STANDARD_CASE, client, reply)?;
        assert_same(&rt, difference.as_str(), *wanted);
    }
    Ok(())
}

// The fault injected into a case, if any, the results of the first three reads, and how a report describes the trial.
type HarmRow = (
    Option<Harm>,
    &'static [Result<&'static str, ErrorKind>],
    &'static str,
);

const HARMS: &[HarmRow] = &[
    (None, &[Ok("GG"), Ok(""), Ok("")], "1024 bytes a read"),
    (
        Some(Harm::Call(3)),
        &[Ok("GG"), Ok(""), Ok("")],
        "1024 bytes a read, call 3 failing",
    ),
    (
        Some(Harm::Cut(1, None)),
        &[Ok("G"), Ok(""), Ok("")],
        "1024 bytes a read, cut at 1",
    ),
    (
        Some(Harm::Cut(1, Some(ErrorKind::TimedOut))),
        &[Ok("G"), Err(ErrorKind::TimedOut), Err(ErrorKind::TimedOut)],
        "1024 bytes a read, cut at 1 by TimedOut",
    ),
    (
        Some(Harm::Once(1, ErrorKind::TimedOut)),
        &[Ok("G"), Err(ErrorKind::TimedOut), Ok("G")],
        "1 bytes a read, TimedOut once after 1",
    ),
    (
        Some(Harm::Byte(1, b'x')),
        &[Ok("Gx"), Ok(""), Ok("")],
        "1024 bytes a read, byte 1 being 120",
    ),
];

// Asserts the bytes or the error of a read.
fn assert_reads(rt: &impl Abort, reader: &mut Reader, wanted: Result<&str, ErrorKind>) {
    let mut buf = [0u8; 9];
    let found = match reader.read_in(&mut buf) {
        Ok(count) => Ok(buf.get(..count).unwrap_or_default()),
        Err(fault) => Err(fault.kind()),
    };
    assert_same(rt, found, wanted.map(str::as_bytes));
}

// Creates the trial with this fault, if any.
fn trial_of(harm: Option<Harm>) -> Trial {
    match harm {
        Some(harm) => Trial::harmed(harm),
        None => Trial { piece: 1024, harm },
    }
}

// Asserts what the reader of a trial returns with the row's fault, and how the trial is displayed.
fn assert_harm(rt: &impl Abort, alloc: Global, case: &Case, row: &HarmRow) -> Result<(), Fail> {
    let (harm, wanted, words) = *row;
    let trial = trial_of(harm);
    let mut reader = trial.reader(alloc, case)?;
    for read in wanted {
        assert_reads(rt, &mut reader, *read);
    }
    let shown = format!(in alloc; "{trial}")?;
    assert_same(rt, shown.as_str(), words);
    Ok(())
}

#[test]
fn a_trial_changes_what_the_client_sends(rt: HostRuntime) -> Result<(), Fail> {
    let Ok(cases) = read_cases(rt.alloc(), "a.cases", READ.as_bytes()) else {
        return Err("no case".into());
    };
    let Some(case) = cases.first() else {
        return Err("no case".into());
    };
    for row in HARMS {
        assert_harm(&rt, rt.alloc(), case, row)?;
    }
    Ok(())
}

// A runner that returns `once` if the reader fails once, and otherwise `found`.
#[derive(Drop)]
struct Fixed {
    found: Found,
    once: Found,
}

impl Runner for Fixed {
    fn how(&self) -> &'static str {
        ""
    }

    fn knows_numbers(&self) -> bool {
        true
    }

    fn takes(&self, _case: &Case) -> bool {
        true
    }

    fn run(&mut self, alloc: Global, _case: &Case, trial: Trial) -> Result<Outcome, StepsFault> {
        match trial.harm {
            Some(Harm::Once(..)) => self.once.outcome(alloc),
            _ => self.found.outcome(alloc),
        }
    }
}

// Tries `CASE` with two runners, the second of which returns `once` if the reader fails once. Asserts the report.
fn assert_report(
    rt: &impl Abort,
    alloc: Global,
    [one, other, once]: [Found; 3],
    wanted: &str,
) -> Result<(), Fail> {
    let name = "a.cases";
    let bytes = CASE.as_bytes().to_vec(alloc)?;
    let Ok(files) = files_of(alloc, &[NamedFile { name, bytes }]) else {
        return Err("no file of cases".into());
    };
    let mut out = Vec::new(alloc);
    let mut first = Fixed {
        found: one,
        once: one,
    };
    let mut others = [Fixed { found: other, once }];
    let Ok(_) = try_files(alloc, (&mut first, &mut others), &mut out, files.as_slice()) else {
        return Err("no report".into());
    };
    assert_same(rt, str::from_utf8(out.as_slice())?, wanted);
    Ok(())
}

// A case that differs with the first runner is not tried with the second.
#[test]
fn runs_that_differ_are_reported(rt: HostRuntime) -> Result<(), Fail> {
    let done = Found {
        reply: "done",
        ..GOOD
    };
    let differing = "a, 1 bytes a read: reply 1 is done and not ended\n\
        a, 2 bytes a read: reply 1 is done and not ended\n\
        a, 1023 bytes a read: reply 1 is done and not ended\n\
        a, 1024 bytes a read: reply 1 is done and not ended\n\
        a, 1024 bytes a read, call 1 failing: reply 1 is done and not ended\n\
        a.cases: 1 cases, 5 runs, 0 cuts, 0 faults, 0 changes, 5 differ\n";
    let good = "a.cases: 1 cases, 5 runs, 3 cuts, 2 faults, 0 changes, 0 differ\n";
    let none = "a.cases: 0 cases, 0 runs, 0 cuts, 0 faults, 0 changes, 0 differ\n";
    let wanted = format!(in rt.alloc(); "{good}{differing}")?;
    assert_report(&rt, rt.alloc(), [GOOD, done, done], wanted.as_str())?;
    let wanted = format!(in rt.alloc(); "{differing}{none}")?;
    assert_report(&rt, rt.alloc(), [done, GOOD, GOOD], wanted.as_str())
}

// Outcomes of a trial whose reader fails once, and how the report states their difference from a trial that is cut at
// the same byte.
const ONCE: &[(Found, &str)] = &[
    (
        Found {
            reply: "done",
            ..GOOD
        },
        "reply 1 is done and not ended",
    ),
    (
        Found {
            output: "a\r\n",
            ..GOOD
        },
        "output from byte 3 is  and not b",
    ),
    (
        Found {
            failures: 1,
            ..GOOD
        },
        "failures is 1 and not 0",
    ),
    (
        Found {
            end: "closed",
            ..GOOD
        },
        "the end is closed and not cut",
    ),
];

#[test]
fn a_fault_that_is_no_cut_is_reported(rt: HostRuntime) -> Result<(), Fail> {
    for (once, what) in ONCE {
        let wanted = format!(in rt.alloc();
            "a.cases: 1 cases, 5 runs, 3 cuts, 2 faults, 0 changes, 0 differ\n\
            a, 1 bytes a read, TimedOut once after 0: {what}\n\
            a, 1 bytes a read, Interrupted once after 0: {what}\n\
            a.cases: 1 cases, 5 runs, 3 cuts, 2 faults, 0 changes, 2 differ\n"
        )?;
        assert_report(&rt, rt.alloc(), [GOOD, GOOD, *once], wanted.as_str())?;
    }
    Ok(())
}

// Writes twice and flushes. Returns what each call accepted, the number of failures, and the number of calls after the
// first failure.
fn write_by(writer: &mut Trier) -> ([Option<usize>; 3], (u64, u64)) {
    let calls = [
        writer.write(b"hello").ok(),
        writer.write(b"!").ok(),
        writer.flush().ok().map(|_| 0),
    ];
    (calls, (writer.failures(), writer.later()))
}

#[test]
fn a_writer_fails_once(rt: HostRuntime) {
    let mut full = Trier::with_room(rt.alloc(), 3, ErrorKind::Other);
    assert_same(&rt, write_by(&mut full), ([Some(3), None, Some(0)], (1, 1)));
    assert_same(&rt, full.taken(), b"hel".as_slice());
    let mut failing = Trier::failing_at(rt.alloc(), 1, ErrorKind::Other);
    assert_same(
        &rt,
        write_by(&mut failing),
        ([None, Some(1), Some(0)], (1, 2)),
    );
    assert_same(&rt, failing.taken(), b"!".as_slice());
    let mut last = Trier::failing_at(rt.alloc(), 3, ErrorKind::Other);
    assert_same(&rt, write_by(&mut last), ([Some(5), Some(1), None], (1, 0)));
}

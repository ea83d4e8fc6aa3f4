//! Runs the steps of a script over a client's bytes: `replay [--strict | --standard] BYTES SCRIPT`. The connection's
//! output goes to standard output, and a line for the reply to each step to standard error. `--strict` and `--standard`
//! name the profile under which heads are read, which is `Lenient` by default. `replay_script` reads the script, and
//! `run_with` of `tiny_http_core` runs its steps.
#![tactic(auto)]

ghost use Rattle.std.specs.Prelude.{◌≡◌, ◌<◌, ◌≤◌, ◌⊎◌, ℕ, ◌++◌, map, Err, IsErrAnd, IfOk, IfErr, OnOk};
ghost use Rattle.replay.specs.ReplayFault.{exit_status};
ghost use Rattle.replay.specs.Replay.{HasRun, WritesReplay};
ghost use Rattle.replay_script.specs.Script.{script_lines, IsFirstBadLine, timed_value};
ghost use Rattle.std.specs.Io.KnownBytes.{Appends};
ghost use Rattle.std.specs.List.{flat_map};
ghost use Rattle.replay_script.specs.Reply.{reply_line};
ghost use Rattle.tiny_http_wire.specs.Budget.{budget_bytes};
ghost use Rattle.tiny_http_core.specs.Seen.{seen};

mod fault;
#[cfg(test)]
mod tests;

use crate::fault::ReplayFault;
use replay_script::reply::ReplyLine;
use replay_script::script::{ScriptFault, read_script};
use replay_script::script_data::ScriptData;
use std::alloc::Global;
use std::fs::OpenFile;
use std::io::{BufWriter, ErrorKind, Read, Write};
use std::process::ExitCode;
use std::rt::{Env, Files};
use std::{env, fs, io};
use tiny_http_core::driver::{Reply, Timed, run_with};
use tiny_http_core::framing::Profile;
use tiny_http_wire::device::{Budget, Canned, WriteDevice};

/// The result of a run: the writer with the bytes that it took, the bytes still held, and the replies to the steps.
#[derive(Drop)]
struct Replayed {
    writer: Budget,
    held: Vec<u8>,
    replies: Vec<Reply>,
}

// Runs the steps over a client that sends these bytes and ends. The writer is in memory, so it fails only if memory
// can't be allocated.
fn run_steps(
    alloc: Global,
    profile: Profile,
    bytes: Vec<u8>,
    steps: Vec<Timed<ScriptData>>,
) -> Result<Replayed, ReplayFault<'static>>
    ensures runs { IfOk result (λ o. HasRun profile bytes.items (map timed_value steps.items) (map seen o.replies.items)
        (budget_bytes o.writer ++ o.held.items)) }
    ensures memory { IfErr result (λ fault. fault ≡ ReplayFault.OutOfMemory) }
{
    let reader = Canned::new(bytes, None);
    let writer = Budget::new(alloc, usize::MAX, ErrorKind::OutOfMemory);
    let Ok(record) = run_with(alloc, profile, reader, writer, steps) else {
        return Err(ReplayFault::OutOfMemory);
    };
    let outlet = record.outlet;
    if outlet.failures() > 0 {
        return Err(ReplayFault::OutOfMemory);
    }
    let Ok(held) = outlet.held().to_vec(alloc) else {
        return Err(ReplayFault::OutOfMemory);
    };
    Ok(Replayed {
        writer: outlet.into_inner(),
        held,
        replies: record.replies,
    })
}

// Writes the output to `out`, and a line for each reply to `err`.
#[tactic(auto, using(replay_script::proofs::ReplyLemmas::line_more))]
fn write_outcome<O: Write, E: Write>(
    outcome: &Replayed,
    out: &mut O,
    err: &mut E,
) -> Result<(), io::Error>
    ensures output { OnOk result (Appends (O.contents out.old) (O.contents out.new)
        (budget_bytes outcome.now.writer ++ outcome.now.held.items)) }
    ensures replies { OnOk result (Appends (E.contents err.old) (E.contents err.new)
        (flat_map reply_line (map seen outcome.now.replies.items))) }
{
    out.write_all(outcome.writer.bytes())?;
    out.write_all(outcome.held.as_slice())?;
    out.flush()?;
    for reply in &outcome.replies {
        writeln!(err, "{}", ReplyLine(reply))?;
    }
    err.flush()
}

// Runs a script. Writes the output to `out`, and a line for each reply to `err`.
fn replay<O: Write, E: Write>(
    alloc: Global,
    profile: Profile,
    bytes: Vec<u8>,
    script: &[u8],
    out: &mut O,
    err: &mut E,
) -> Result<(), ReplayFault<'static>>
    ensures runs { OnOk result (WritesReplay profile bytes.items script.now (O.contents out.old) (O.contents out.new)
        (E.contents err.old) (E.contents err.new)) }
    // A script with an invalid line isn't run.
    ensures refused { (n : ℕ) → IsFirstBadLine (script_lines script.now) n
        → IsErrAnd result (λ fault. (exit_status fault ≡ 2) ⊎ (fault ≡ ReplayFault.OutOfMemory)) × (out.new ≡ out.old) }
    ensures bad { (n : ℕ) → result ≡ Err (ReplayFault.BadLine n) → IsFirstBadLine (script_lines script.now) n }
    ensures kinds { IfErr result (λ fault. exit_status fault ≡ 2 → (n : ℕ) × (fault ≡ ReplayFault.BadLine n)) }
{
    let steps = match read_script(alloc, script) {
        Ok(steps) => steps,
        Err(ScriptFault::BadLine(number)) => return Err(ReplayFault::BadLine(number)),
        Err(ScriptFault::OutOfMemory) => return Err(ReplayFault::OutOfMemory),
    };
    let outcome = run_steps(alloc, profile, bytes, steps)?;
    match write_outcome(&outcome, out, err) {
        Ok(()) => Ok(()),
        Err(_) => Err(ReplayFault::CannotWrite),
    }
}

// Reports an error on one line, and returns its exit status, or that of `CannotWrite` if the line can't be written.
fn report<E: Write>(fault: &ReplayFault<'_>, err: &mut E) -> u8
    ensures some { 0 < result }
    ensures bound { result ≤ 2 }
    ensures two { result ≡ 2 → exit_status fault.now ≡ 2 }
{
    match writeln!(err, "replay: {fault}") {
        Ok(()) => fault.status(),
        Err(_) => ReplayFault::CannotWrite.status(),
    }
}

/// Runs the steps of a script over a client's bytes, and reads heads under this profile. Writes the output to `out`,
/// then a line for each reply to `err`. Returns the exit status: 0, or that of an error, which a line on `err` reports
/// if it can be written. A script with an invalid line isn't run.
pub fn replay_on<O: Write, E: Write>(
    alloc: Global,
    profile: Profile,
    bytes: Vec<u8>,
    script: &[u8],
    out: &mut O,
    err: &mut E,
) -> u8
    ensures runs { result ≡ 0 → WritesReplay profile bytes.items script.now (O.contents out.old) (O.contents out.new)
        (E.contents err.old) (E.contents err.new) }
    ensures bound { result ≤ 2 }
    // A script with an invalid line isn't run.
    ensures refused { (n : ℕ) → IsFirstBadLine (script_lines script.now) n → (0 < result) × (out.new ≡ out.old) }
    ensures two { result ≡ 2 → (n : ℕ) × IsFirstBadLine (script_lines script.now) n }
{
    match replay(alloc, profile, bytes, script, out, err) {
        Ok(()) => 0,
        Err(fault) => report(&fault, err),
    }
}

// Reads a whole file. If the system knows its length, the buffer is created with room for one byte more, so that the
// end of the file is found without growing the buffer.
fn read_whole<R: Files + AllocGlobal>(rt: &R, name: &str) -> io::Result<Vec<u8>> {
    let mut file = fs::open(rt, name)?;
    let length = file.metadata().map_or(0, |of| of.len());
    let mut bytes = Vec::with_capacity(rt.alloc(), (length as usize).saturating_add(1))?;
    file.read_to_end(&mut bytes)?;
    Ok(bytes)
}

// Reads a whole file, or returns the error to report.
fn read_file<'a, R: Files + AllocGlobal>(
    rt: &R,
    name: &'a str,
) -> Result<Vec<u8>, ReplayFault<'a>> {
    match read_whole(rt, name) {
        Ok(bytes) => Ok(bytes),
        Err(fault) if fault.kind() == ErrorKind::OutOfMemory => Err(ReplayFault::OutOfMemory),
        Err(_) => Err(ReplayFault::CannotRead(name)),
    }
}

// Parses the arguments: the profile and the names of the two files. A name can't begin with two hyphens.
fn call_in(words: &[String]) -> Option<(Profile, &str, &str)> {
    let (profile, bytes, script) = match words {
        [_, bytes, script] => (Profile::Lenient, bytes, script),
        [_, option, bytes, script] if option.as_str() == "--strict" => {
            (Profile::Strict, bytes, script)
        }
        [_, option, bytes, script] if option.as_str() == "--standard" => {
            (Profile::Standard, bytes, script)
        }
        _ => return None,
    };
    if bytes.starts_with("--") || script.starts_with("--") {
        return None;
    }
    Some((profile, bytes.as_str(), script.as_str()))
}

// Parses the arguments, and reads the two files.
fn read_call<'a, R: Files + AllocGlobal>(
    rt: &R,
    words: &'a [String],
) -> Result<(Profile, Vec<u8>, Vec<u8>), ReplayFault<'a>> {
    let Some((profile, bytes, script)) = call_in(words) else {
        return Err(ReplayFault::Usage);
    };
    let bytes = read_file(rt, bytes)?;
    let script = read_file(rt, script)?;
    Ok((profile, bytes, script))
}

// Returns the words of the command line, the program's name first. An argument that isn't UTF-8 is a usage error.
fn words<R: Env + AllocGlobal>(rt: &R) -> Result<Vec<String>, ReplayFault<'static>> {
    match env::args(rt) {
        Ok(words) => match words.collect(rt.alloc()) {
            Ok(words) => Ok(words),
            Err(_) => Err(ReplayFault::OutOfMemory),
        },
        Err(fault) if fault.kind() == ErrorKind::OutOfMemory => Err(ReplayFault::OutOfMemory),
        Err(_) => Err(ReplayFault::Usage),
    }
}

// Runs the script over the client's bytes, both from the files that the command line names, and returns the exit
// status.
fn run_call<R: Env + Files + AllocGlobal, O: Write, E: Write>(
    rt: &R,
    out: &mut O,
    err: &mut E,
) -> u8 {
    let words = match words(rt) {
        Ok(words) => words,
        Err(fault) => return report(&fault, err),
    };
    let (profile, bytes, script) = match read_call(rt, words.as_slice()) {
        Ok(call) => call,
        Err(fault) => return report(&fault, err),
    };
    replay_on(rt.alloc(), profile, bytes, script.as_slice(), out, err)
}

// Standard error is buffered, since it is written in many small pieces.
fn main(rt: HostRuntime) -> ExitCode {
    let Ok(mut err) = BufWriter::new(rt.alloc(), rt.stderr()) else {
        return ExitCode::from(report(&ReplayFault::OutOfMemory, &mut rt.stderr()));
    };
    let status = run_call(&rt, &mut rt.stdout(), &mut err);
    let _ = err.flush();
    ExitCode::from(status)
}

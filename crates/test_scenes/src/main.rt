//! Plays the scenes of files: `test_scenes FILE..`. A scene lists step by step what a server and its clients do and
//! what each of them observes. Some scenes use something else instead of a server, such as a queue. Several scenes run
//! in parallel, except those that must run alone. docs/CASES.md describes the files.
#![tactic(auto)]

mod besides;
mod handler;
mod hands;
mod links;
mod playing;
mod rivals;
mod serving;

use crate::links::Host;
use crate::playing::play;
use std::alloc::{AllocError, Global};
use std::io::Write;
use std::process::ExitCode;
use std::{io, thread};
use test_data_files::fault::FilesFault;
use test_data_files::program::{Checker, NamedFile, run_program};
use test_scene_files::scene::{Scene, SceneFile, read_scenes};
use test_scene_props::jobs::Failure;

// Maximum number of scenes that run in parallel.
const BESIDE: usize = 8;

// The scene files named on the command line.
#[derive(Drop)]
struct SceneFiles {
    files: Vec<SceneFile>,
}

impl Checker for SceneFiles {
    /// Reads the scenes of these files. The scenes are played after all files have been read.
    fn check<'a, O: Write>(
        &mut self,
        alloc: Global,
        files: &[NamedFile<'a>],
        _out: &mut O,
    ) -> Result<bool, FilesFault<'a>> {
        for NamedFile { name, bytes } in files {
            let scenes = read_scenes(alloc, name, bytes.as_slice())?;
            let name = String::from_str(alloc, name)?;
            self.files
                .push(SceneFile { name, scenes })
                .map_err(AllocError::from)?;
        }
        Ok(true)
    }
}

// Plays a scene, and returns its failure, if any. The path for its Unix socket contains the process id and the scene's
// number in its group.
fn play_at<R: Host>(
    rt: &R,
    alloc: Global,
    (scene, process, number): (&Scene, u32, usize),
) -> Option<Failure> {
    let path = match format!(in alloc; "/tmp/scene-{process}-{number}.sock") {
        Ok(path) => path,
        Err(_) => String::new(alloc),
    };
    play(rt, alloc, scene, path.as_str())
}

// Prints the file, line, name, step and error of a failed scene.
fn report<O: Write>(
    out: &mut O,
    (file, scene): (&str, &Scene),
    failure: &Failure,
) -> io::Result<()> {
    let name = scene.name.as_str();
    let (number, line, mishap) = (failure.number, failure.line.as_str(), &failure.mishap);
    writeln!(out, "{file}:{number}: {name}: {line}:{mishap}")
}

// Plays scenes in parallel, and reports those that fail. Returns how many had the wrong outcome: scenes that failed but
// should have succeeded, and scenes that succeeded but should have failed.
fn play_group<R: Host, O: Write>(
    rt: &R,
    alloc: Global,
    (file, scenes, process): (&str, &[Scene], u32),
    out: &mut O,
) -> io::Result<usize> {
    let played = thread::map_indices(
        rt,
        alloc,
        scenes.len(),
        &|number| {
            let scene = scenes.get(number)?;
            play_at(rt, alloc, (scene, process, number))
        },
    )?;
    let mut failed = 0usize;
    for (scene, failure) in scenes.iter().zip(played.as_slice()) {
        if let Some(failure) = failure {
            report(out, (file, scene), failure)?;
        }
        if failure.is_some() != scene.ground.has_to_fail {
            failed = failed.saturating_add(1);
        }
    }
    Ok(failed)
}

// Plays the scenes of a file. Reports those that fail, and then prints a line with the number of scenes and the number
// of those that had the wrong outcome. Returns whether none had.
fn play_file<R: Host, O: Write>(
    rt: &R,
    alloc: Global,
    (file, process): (&SceneFile, u32),
    out: &mut O,
) -> io::Result<bool> {
    let (name, count) = (file.name.as_str(), file.scenes.len());
    let mut failed = 0usize;
    let scenes = file.scenes.as_slice();
    for part in scenes.chunk_by(|one, next| !one.ground.is_alone && !next.ground.is_alone) {
        for group in part.chunks(BESIDE) {
            let more = play_group(rt, alloc, (name, group, process), out)?;
            failed = failed.saturating_add(more);
        }
    }
    writeln!(out, "{name}: {count} scenes, {failed} failed")?;
    Ok(failed == 0)
}

// Plays the scenes of all files. Returns the exit status: 0 if no scene had the wrong outcome, 3 if one had, and 1 if
// `out` can't be written or memory can't be allocated.
fn play_files<R: Host, O: Write>(
    rt: &R,
    alloc: Global,
    (files, process): (&[SceneFile], u32),
    out: &mut O,
) -> u8 {
    let mut status = 0;
    for file in files {
        match play_file(rt, alloc, (file, process), out) {
            Ok(true) => {}
            Ok(false) => status = 3,
            Err(_) => return 1,
        }
    }
    status
}

fn main(rt: HostRuntime) -> ExitCode {
    let mut out = rt.stdout();
    let mut err = rt.stderr();
    let alloc = rt.alloc();
    let mut read = SceneFiles {
        files: Vec::new(alloc),
    };
    let status = run_program(&rt, "test_scenes", &mut read, &mut out, &mut err);
    if status != 0 {
        return ExitCode::from(status);
    }
    let process = std::process::id(rt.process());
    let files = read.files.as_slice();
    ExitCode::from(play_files(&rt, alloc, (files, process), &mut out))
}

//! Tests of the reader of scene files.
use crate::same::assert_same;
use std::process::Abort;
use std::test::Fail;
use test_data_files::fault::FilesFault;
use test_scene_files::deed::deed_in;
use test_scene_files::scene::{Over, read_scenes};
use tiny_http_body::framing::Profile;

// Invalid files, each with the number of the line at which reading fails, and the reason.
const BAD: &[(&str, usize, &str)] = &[
    ("", 1, "there is no scene"),
    ("# a\n", 2, "there is no scene"),
    ("ann connects\n", 1, "no scene has begun"),
    ("scene a b\n", 1, "a scene has a name of one word"),
    ("scene \n", 1, "a scene has a name of one word"),
    (
        "scene a\nserver tcp\nserver drop\nscene a\n",
        4,
        "an earlier scene has this name",
    ),
    (
        "scene a\nserver tcp, repeat 0\nserver drop\n",
        2,
        "no such server",
    ),
    (
        "scene a\nann connects\n",
        2,
        "a scene begins with its server",
    ),
    ("scene a\nserver lenient, quick\n", 2, "no such server"),
    ("scene a\nserver lenient,tcp\n", 2, "no such server"),
    ("scene a\nserver head_tim 5\n", 2, "no such server"),
    ("scene a\nserver head_time x\n", 2, "no such server"),
    ("scene a\nserver repeat +5\n", 2, "no such server"),
    ("scene a\nscene b\n", 2, "the scene above has no server"),
    ("scene a\n", 2, "the scene above has no server"),
    (
        "scene a\nserver tcp\nscene b\n",
        3,
        "the scene above has no line",
    ),
    ("scene a\nserver tcp\n", 3, "the scene above has no line"),
    ("scene a\nserver tcp\nann comes\n", 3, "no line of a scene"),
    (
        "scene a\nserver tcp\n#\n\nann connects\nann comes\n",
        6,
        "no line of a scene",
    ),
    (
        "scene a\nserver tcp\n  ann connects\n",
        3,
        "what is indented belongs to a thread or a job",
    ),
    (
        "scene a\nserver tcp\nbeside bob\n  ann connects\nann leaves\n  ann connects\n",
        6,
        "what is indented belongs to a thread or a job",
    ),
    (
        "scene a\nserver tcp\nbeside bob\n  beside carl\n",
        4,
        "a thread begins no other",
    ),
    (
        "scene a\nover pool\njob bob\n  queue push 1\n  job carl\n",
        5,
        "a thread begins no other",
    ),
    ("scene a\nover a queue\nqueue push 1\n", 2, "no such server"),
    (
        "scene a\nserver tcp\nann sends caf\u{e9}\n",
        3,
        "a byte from 128 on is written \\xHH",
    ),
];

#[test]
fn files_that_are_not_of_the_format(rt: HostRuntime) -> Result<(), Fail> {
    for (file, number, why) in BAD {
        let fault = read_scenes(rt.alloc(), "a.scenes", file.as_bytes()).err();
        assert_same(
            &rt,
            fault,
            Some(FilesFault::BadLine("a.scenes", *number, why)),
        );
    }
    Ok(())
}

// Lines that are not steps of a scene.
const NO_LINES: &[&str] = &[
    "ann",
    "ann connect",
    "ann connects twice",
    "ann drips x",
    "ann drips x every",
    "ann drips x every -1",
    "ann drips-on x for 1 to 2",
    "ann drips-on x every 1",
    "ann drips-on x every 1 for 2",
    "ann sips 1",
    "ann sips x every 1",
    "ann counts 1",
    "ann counts 1 to x",
    "ann is-idle",
    "ann is-closed 5",
    "ann date-changed now",
    "ann dated-within",
    "ann ends in 5",
    "ann waits 5",
    "pause",
    "pause x",
    "clock stops",
    "clock below",
    "clock above x",
    "clock laps twice",
    "clock shortest",
    "descriptors",
    "descriptors left",
    "descriptors back 1",
    "server",
    "server go",
    "server gives /a",
    "server keeps /a",
    "server recv",
    "server recv = Odd",
    "server recv 5 = nothing",
    "server recv_timeout = nothing",
    "server try_recv = /a",
    "server unblock 2",
    "server stop 1",
    "server stop 1 = Answer",
    "server serve = nothing",
    "server serve_by = ok",
    "server num_connections = x",
    "server num_connections later = 1",
    "server counts 400",
    "server counts 400 from",
    "server counts 400 = x",
    "server accept_faults = 5",
    "server rival = ok",
    "server with file = ok",
    "server with tls",
    "server rival with tls = ok",
    "server second",
    "server shows path",
    "server followed by",
    "server opens",
    "server file",
    "server address",
    "first respond 200",
    "first respond x empty",
    "first respond 65536 empty",
    "first respond 200 empty x",
    "first respond 200 bytes x",
    "first drop it",
    "first read-fails-by Odd",
    "first read_body x = Cut",
    "first read_body 5",
    "first read_body 5 = cut",
    "first header X",
    "first header_lists X = yes",
    "first header_lists X a = maybe",
    "first query = a",
    "first is_upgrade = maybe",
    "first into_writer raw",
    "first respond_streaming 200",
    "first respond_streaming x as body",
    "first respond_streaming 200 = Odd",
    "first respond_streaming 200 close as body",
    "body form",
    "body form Plain",
    "first upgrade x",
    "first try_upgrade x = Asked",
    "first secure = maybe",
    "first body_length = x",
    "first headers = none",
    "first parts /a",
    "first read_exact 5 = Odd",
    "queue",
    "queue push x",
    "queue pop",
    "queue pop = x",
    "queue pop 5 = 1",
    "queue pop past x = 1",
    "queue pop_timeout = 1",
    "queue pop_timeout 5 past = 1",
    "queue try_pop 5 = 1",
    "queue clear it",
    "memory takes 5",
    "memory takes 5 Odd",
    "memory gives /a",
    "memory makes GET / as first",
    "memory makes GET / 1 as first",
    "memory makes GET / 256.1 as first",
    "memory makes GET / 1.1 = Odd",
    "memory new GET / 1.1",
    "turns write x",
    "turns next first",
    "first writes-once ab",
    "first writes-once ab = x",
    "first flushes-once it",
    "first ends-its-turn now",
    "raw flush = Odd",
    "raw close Other",
    "raw discard it",
];

#[test]
fn lines_that_are_none_of_a_scene(rt: HostRuntime) -> Result<(), Fail> {
    for line in NO_LINES {
        let found = if deed_in(line).is_some() { *line } else { "" };
        assert_same(&rt, found, "");
    }
    Ok(())
}

const GOOD: &str =
    "# a\nscene a\nserver tcp\nann connects\n\nscene b\nserver standard, unix, head_time 5, both, alone, \
    fails, repeat 7\nbeside bob\n  pause 1\nbob ends\n";

#[test]
fn a_file_of_two_scenes(rt: HostRuntime) -> Result<(), Fail> {
    let Ok(scenes) = read_scenes(rt.alloc(), "a.scenes", GOOD.as_bytes()) else {
        return Err("no scene".into());
    };
    assert_same(&rt, scenes.len(), 2);
    let (Some(one), Some(two)) = (scenes.first(), scenes.get(1)) else {
        return Err("no scene".into());
    };
    assert_same(&rt, (one.name.as_str(), two.name.as_str()), ("a", "b"));
    let (plain, odd) = (one.ground, two.ground);
    assert_same(&rt, plain.over == Over::Tcp && odd.over == Over::Unix, true);
    assert_same(
        &rt,
        (plain.is_both, plain.is_alone, plain.has_to_fail),
        (false, false, false),
    );
    assert_same(
        &rt,
        (odd.is_both, odd.is_alone, odd.has_to_fail),
        (true, true, true),
    );
    assert_same(&rt, (plain.repeats, odd.repeats), (1, 7));
    assert_same(
        &rt,
        (plain.profile, odd.profile),
        (Profile::Lenient, Profile::Standard),
    );
    let time = odd.limits.map(|limits| limits.head_time.as_millis());
    assert_same(&rt, (plain.limits.is_some(), time), (false, Some(5)));
    for (line, (number, text, is_inner)) in two.lines.iter().zip(&LINES) {
        assert_same(&rt, (line.number, line.text.as_str()), (*number, *text));
        assert_same(&rt, line.is_inner, *is_inner);
    }
    assert_same(&rt, two.lines.len(), LINES.len());
    Ok(())
}

// The lines of the second scene after its `server` line: the number and the text of each, and whether it is indented.
const LINES: [(usize, &str, bool); 3] = [
    (8, "beside bob", false),
    (9, "pause 1", true),
    (10, "bob ends", false),
];

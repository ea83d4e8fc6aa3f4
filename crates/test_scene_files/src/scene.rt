//! Reads scene files line by line.
use crate::deed::{Deed, deed_in};
use std::alloc::{AllocError, Global};
use std::time::Duration;
use test_data_files::fault::{FilesFault, LineFault, line_text};
use test_data_files::text::number_in;
use tiny_http_body::framing::Profile;
use tiny_http_limits::limits::Limits;

/// The kind of server that a scene runs on, or what replaces a server.
#[derive(Clone, Copy, PartialEq, Eq)]
pub enum Over {
    Tcp,
    Ipv6,
    Unix,
    /// A TCP listener that the program creates.
    Listener,
    /// A nonblocking TCP listener that the program creates.
    Nonblocking,
    /// A queue, without a server.
    Queue,
    /// A queue and a thread pool, without a server.
    Pool,
    /// Readers or writers that take turns, without a server.
    Turns,
    /// Requests over memory, without a server.
    Memory,
}

/// The way in which `server gives` receives its requests.
#[derive(Clone, Copy, PartialEq, Eq)]
pub enum Way {
    /// With `recv_timeout`.
    Recv,
    /// From a handler of `serve` that keeps each request.
    Handler,
}

/// The server of a scene, or what replaces it, and how the scene is played.
#[derive(Clone, Copy)]
pub struct Ground {
    pub profile: Profile,
    pub over: Over,
    /// The server's limits, if any.
    pub limits: Option<Limits>,
    /// Whether the scene is played both ways: with `recv_timeout`, and then with a handler.
    pub is_both: bool,
    /// Whether no other scene runs at the same time.
    pub is_alone: bool,
    /// Whether the scene must fail.
    pub has_to_fail: bool,
    /// How many times the scene is played each way.
    pub repeats: usize,
}

/// A step of a scene.
#[derive(Drop)]
pub struct Line {
    pub number: usize,
    pub text: String,
    /// Whether the line is indented, that is, a step of the thread or job begun above it.
    pub is_inner: bool,
}

/// A named sequence of steps, and what it runs on.
#[derive(Drop)]
pub struct Scene {
    pub name: String,
    pub ground: Ground,
    pub lines: Vec<Line>,
}

/// The name and the scenes of a file.
#[derive(Drop)]
pub struct SceneFile {
    pub name: String,
    pub scenes: Vec<Scene>,
}

// Sets the limit called `name` to `number`: milliseconds if the limit is a time. Returns `None` if there is no such
// limit.
fn set_limit(limits: &mut Limits, name: &str, number: usize) -> Option<()> {
    let time = Duration::from_millis(number as u64);
    match name {
        "connections" => limits.connections = number,
        "connections_of_address" => limits.connections_of_address = number,
        "open_requests" => limits.open_requests = number,
        "workers" => limits.workers = number,
        "head_time" => limits.head_time = time,
        "idle_time" => limits.idle_time = time,
        "body_time" => limits.body_time = time,
        "write_time" => limits.write_time = time,
        "stream_time" => limits.stream_time = Some(time),
        "least_rate" => limits.least_rate = number,
        "upgrades" => limits.upgrades = number,
        _ => return None,
    }
    Some(())
}

// Applies an item of the list after `server` or `over`: a profile, what the scene runs on, an option or a limit.
// Returns `None` if the item is invalid.
fn add_word(ground: &mut Ground, word: &str) -> Option<()> {
    match word {
        "lenient" => ground.profile = Profile::Lenient,
        "strict" => ground.profile = Profile::Strict,
        "standard" => ground.profile = Profile::Standard,
        "tcp" => ground.over = Over::Tcp,
        "ipv6" => ground.over = Over::Ipv6,
        "unix" => ground.over = Over::Unix,
        "listener" => ground.over = Over::Listener,
        "nonblocking" => ground.over = Over::Nonblocking,
        "queue" => ground.over = Over::Queue,
        "pool" => ground.over = Over::Pool,
        "turns" => ground.over = Over::Turns,
        "memory" => ground.over = Over::Memory,
        "limits" => ground.limits = Some(Limits::new()),
        "both" => ground.is_both = true,
        "alone" => ground.is_alone = true,
        "fails" => ground.has_to_fail = true,
        _ => {
            let (name, digits) = word.split_once(' ')?;
            let number = number_in(digits)?;
            if name == "repeat" {
                if number == 0 {
                    return None;
                }
                ground.repeats = number;
                return Some(());
            }
            let mut limits = ground.limits.unwrap_or(Limits::new());
            set_limit(&mut limits, name, number)?;
            ground.limits = Some(limits);
        }
    }
    Some(())
}

// Parses the list after `server` or `over`.
fn ground_in(words: &str) -> Option<Ground> {
    let mut ground = Ground {
        profile: Profile::Lenient,
        over: Over::Tcp,
        limits: None,
        is_both: false,
        is_alone: false,
        has_to_fail: false,
        repeats: 1,
    };
    for word in words.split(", ") {
        add_word(&mut ground, word)?;
    }
    Some(ground)
}

// A scene that is being read. Its first line sets the ground.
#[derive(Drop)]
struct Begun {
    name: String,
    ground: Option<Ground>,
    lines: Vec<Line>,
}

// Adds the scene being read, if any, to `scenes`. Fails if it has no ground or no step.
fn add_scene(scenes: &mut Vec<Scene>, begun: Option<Begun>) -> Result<(), LineFault> {
    let Some(begun) = begun else {
        return Ok(());
    };
    let Begun {
        name,
        ground,
        lines,
    } = begun;
    let Some(ground) = ground else {
        return Err(LineFault::Bad("the scene above has no server"));
    };
    if lines.is_empty() {
        return Err(LineFault::Bad("the scene above has no line"));
    }
    let scene = Scene {
        name,
        ground,
        lines,
    };
    scenes.push(scene).map_err(AllocError::from)?;
    Ok(())
}

// Returns whether an indented line may follow `lines`, that is, whether the last of them begins with `beside` or `job`,
// or is indented itself.
fn may_be_inner(lines: &[Line]) -> bool {
    lines.last().is_some_and(|line| {
        let text = line.text.as_str();
        line.is_inner || text.starts_with("beside ") || text.starts_with("job ")
    })
}

// Adds a line to the scene being read. The first line of a scene sets the ground.
fn add_line(alloc: Global, begun: &mut Begun, number: usize, text: &str) -> Result<(), LineFault> {
    let words = text.strip_prefix("server ").or(text.strip_prefix("over "));
    if let Some(words) = words
        && begun.ground.is_none()
    {
        begun.ground = ground_in(words);
        if begun.ground.is_none() {
            return Err(LineFault::Bad("no such server"));
        }
        return Ok(());
    }
    if begun.ground.is_none() {
        return Err(LineFault::Bad("a scene begins with its server"));
    }
    let inner = text.strip_prefix("  ");
    let text = inner.unwrap_or(text);
    match deed_in(text) {
        None => return Err(LineFault::Bad("no line of a scene")),
        Some(Deed::Beside(_) | Deed::Job(_)) if inner.is_some() => {
            return Err(LineFault::Bad("a thread begins no other"));
        }
        Some(_) => {}
    }
    if inner.is_some() && !may_be_inner(begun.lines.as_slice()) {
        return Err(LineFault::Bad("what is indented belongs to a thread or a job"));
    }
    let line = Line {
        number,
        text: String::from_str(alloc, text)?,
        is_inner: inner.is_some(),
    };
    begun.lines.push(line).map_err(AllocError::from)?;
    Ok(())
}

// Begins a scene called `name`. Fails if the name is not one word, or if an earlier scene has it.
fn begin(alloc: Global, scenes: &[Scene], name: &str) -> Result<Begun, LineFault> {
    if name.is_empty() || name.contains(' ') {
        return Err(LineFault::Bad("a scene has a name of one word"));
    }
    if scenes.iter().any(|scene| scene.name.as_str() == name) {
        return Err(LineFault::Bad("an earlier scene has this name"));
    }
    Ok(Begun {
        name: String::from_str(alloc, name)?,
        ground: None,
        lines: Vec::new(alloc),
    })
}

// Reads one line: an empty line, a comment, the start of a scene, or a line of the current scene.
fn read_line(
    alloc: Global,
    (scenes, begun): (&mut Vec<Scene>, &mut Option<Begun>),
    number: usize,
    line: &[u8],
) -> Result<(), LineFault> {
    let Some(text) = line_text(line)? else {
        return Ok(());
    };
    if let Some(name) = text.strip_prefix("scene ") {
        add_scene(scenes, begun.take())?;
        *begun = Some(begin(alloc, scenes.as_slice(), name)?);
        return Ok(());
    }
    match begun {
        Some(begun) => add_line(alloc, begun, number, text),
        None => Err(LineFault::Bad("no scene has begun")),
    }
}

/// Reads the scenes of a file from its bytes. Fails at the first invalid line, if a scene has no ground or no step, if
/// there is no scene, or if memory can't be allocated.
pub fn read_scenes<'a>(
    alloc: Global,
    name: &'a str,
    bytes: &[u8],
) -> Result<Vec<Scene>, FilesFault<'a>> {
    let mut scenes = Vec::new(alloc);
    let mut begun = None;
    let mut number = 0usize;
    for line in bytes.split(|byte| *byte == b'\n') {
        number = number.saturating_add(1);
        if let Err(fault) = read_line(alloc, (&mut scenes, &mut begun), number, line) {
            return Err(FilesFault::at_line(name, number, fault));
        }
    }
    if let Err(fault) = add_scene(&mut scenes, begun) {
        return Err(FilesFault::at_line(name, number, fault));
    }
    if scenes.is_empty() {
        return Err(FilesFault::BadLine(name, number, "there is no scene"));
    }
    Ok(scenes)
}

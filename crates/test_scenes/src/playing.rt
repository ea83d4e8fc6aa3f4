//! Plays a scene step by step. Some steps run on separate threads.
use crate::besides::{Beside, begin, end, spawn_job, wait};
use crate::hands::Hands;
use crate::links::Host;
use crate::serving::{act_server, connect, first_hands, place_of, take_descriptors};
use std::alloc::Global;
use std::net::Net;
use std::sync::{Arc, Wait};
use std::thread;
use std::thread::JoinHandle;
use std::time::Clock;
use test_scene_files::deed::{ClientDeed, Deed, OutputDeed, RequestDeed, deed_in};
use test_scene_files::mishap::{Mishap, demand};
use test_scene_files::scene::{Line, Scene, Way};
use test_scene_props::acting::act_without_server;
use test_scene_props::jobs::{Failure, Pool, failure_at, inner_lines, pool_of};
use test_scene_props::named::{get, has};
use test_scene_props::requests::{act_asked, demand_plain, write_asked};
use tiny_http::connection::SocketFiles;

/// A scene that is being played: what its steps act on, its threads and jobs, its pool, and the thread that calls
/// `serve`.
#[derive(Drop)]
pub(crate) struct Stage<R: Net + SocketFiles + Wait + Clock + Drop> {
    pub hands: Hands<R>,
    pub besides: Vec<Beside<R>>,
    pub pool: Option<Pool<R>>,
    serving: Option<JoinHandle<bool>>,
}

// Runs a step on the request called `name`, which is over memory or was received by the server.
fn act_request<R: Host>(
    rt: &R,
    alloc: Global,
    hands: &mut Hands<R>,
    (name, deed): (&str, RequestDeed<'_>),
) -> Result<(), Mishap> {
    if let RequestDeed::IsPlainOf(client) = deed {
        let addr = get(&mut hands.props.clients, client)?.local_addr();
        return demand_plain(alloc, get(&mut hands.served.requests, name)?, addr);
    }
    if has(hands.props.remembered.requests.as_slice(), name) {
        return act_asked(rt, alloc, &mut hands.props.remembered, name, deed);
    }
    act_asked(rt, alloc, &mut hands.served, name, deed)
}

// Runs a step on the output called `name`. Its request is over memory or was received by the server.
fn act_output<R: Host>(
    alloc: Global,
    hands: &mut Hands<R>,
    (name, deed): (&str, OutputDeed<'_>),
) -> Result<(), Mishap> {
    if has(hands.props.remembered.outputs.as_slice(), name) {
        return write_asked(alloc, &mut hands.props.remembered, name, deed);
    }
    write_asked(alloc, &mut hands.served, name, deed)
}

// Runs any step but those that start, await or watch a thread or a job, which fail here.
fn act<R: Host>(rt: &R, alloc: Global, hands: &mut Hands<R>, deed: Deed<'_>) -> Result<(), Mishap> {
    match deed {
        Deed::Client(name, ClientDeed::Connects) => connect(rt, alloc, hands, name),
        Deed::Server(deed) => act_server(rt, alloc, hands, deed),
        Deed::Request(name, deed) => act_request(rt, alloc, hands, (name, deed)),
        Deed::Output(name, deed) => act_output(alloc, hands, (name, deed)),
        Deed::Descriptors(Some(left)) => take_descriptors(rt, hands, left),
        Deed::Descriptors(None) => {
            hands.taken.clear();
            Ok(())
        }
        Deed::Beside(_) | Deed::Job(_) | Deed::Ends(..) | Deed::Waits(_) => {
            Err(Mishap::Unplayable("a thread begins no other"))
        }
        _ => act_without_server(rt, alloc, &mut hands.props, deed),
    }
}

/// Plays the steps of a thread until one fails. Returns that failure, if any.
pub(crate) fn play_lines<R: Host>(
    rt: &R,
    alloc: Global,
    hands: &mut Hands<R>,
    lines: &[Line],
) -> Option<Failure> {
    for line in lines {
        let Some(deed) = deed_in(line.text.as_str()) else {
            return Some(failure_at(alloc, line, Mishap::Unplayable("no line of a scene")));
        };
        if let Err(mishap) = act(rt, alloc, hands, deed) {
            return Some(failure_at(alloc, line, mishap));
        }
    }
    None
}

// Plays the step of `line`. `below` holds the lines after it. Returns the failure, if any, of the step or of the thread
// or job whose end it awaits.
fn play_line<R: Host>(
    rt: &R,
    alloc: Global,
    stage: &mut Stage<R>,
    (line, below): (&Line, &[Line]),
) -> Option<Failure> {
    let Some(deed) = deed_in(line.text.as_str()) else {
        return Some(failure_at(alloc, line, Mishap::Unplayable("no line of a scene")));
    };
    let played = match deed {
        Deed::Beside(name) => begin(rt, alloc, stage, (name, inner_lines(below))),
        Deed::Job(name) => spawn_job(rt, alloc, stage, (name, inner_lines(below))),
        Deed::Waits(name) => wait(rt, alloc, stage, name),
        Deed::Ends(name, millis) => match end(rt, alloc, stage, (name, millis)) {
            Ok(None) => Ok(()),
            Ok(Some(failure)) => return Some(failure),
            Err(mishap) => Err(mishap),
        },
        _ => act(rt, alloc, &mut stage.hands, deed),
    };
    match played {
        Ok(()) => None,
        Err(mishap) => Some(failure_at(alloc, line, mishap)),
    }
}

// Plays the steps of a scene until one fails. Skips indented steps, which their threads and jobs play. Returns the
// failure, if any.
fn play_all<R: Host>(
    rt: &R,
    alloc: Global,
    stage: &mut Stage<R>,
    lines: &[Line],
) -> Option<Failure> {
    let mut rest = lines;
    for _ in 0..lines.len() {
        let Some((line, below)) = rest.split_first() else {
            break;
        };
        rest = below;
        if line.is_inner {
            continue;
        }
        if let Some(failure) = play_line(rt, alloc, stage, (line, below)) {
            return Some(failure);
        }
    }
    None
}

// Starts a thread that calls `serve` with the handler, which keeps all requests, and waits until the server serves. The
// thread runs until the server is unblocked.
fn begin_to_serve<R: Host>(rt: &R, alloc: Global, stage: &mut Stage<R>) -> Result<(), Mishap> {
    let Some(server) = &stage.hands.server else {
        return Err(Mishap::Unplayable("there is no server"));
    };
    let server = Arc::try_clone(server)?;
    let handler = Arc::try_clone(&stage.hands.handler)?;
    let Ok(serving) = thread::spawn(rt, move || server.serve(alloc, &handler).is_ok()) else {
        return Err(Mishap::Unplayable("there is no thread"));
    };
    stage.serving = Some(serving);
    wait_until_served(rt, alloc, &mut stage.hands)
}

// The steps that wait until the server serves: a client's request has to reach the handler.
const UNTIL_SERVED: [&str; 6] = [
    "someone connects",
    "someone sends GET /keep HTTP/1.1\\r\\nHost: h\\r\\nConnection: close\\r\\n\\r\\n",
    "server keeps /keep as something",
    "something respond 200 empty",
    "someone leaves",
    "server num_connections = 0",
];

fn wait_until_served<R: Host>(rt: &R, alloc: Global, hands: &mut Hands<R>) -> Result<(), Mishap> {
    for line in UNTIL_SERVED {
        if let Some(deed) = deed_in(line) {
            act(rt, alloc, hands, deed)?;
        }
    }
    Ok(())
}

// Ends a scene. First drops requests, outputs, the readers and writers that take turns, and clients, so that nothing
// waits for them. Then unblocks the thread that calls `serve`, if there is one, which must end without an error. Fails
// if a thread or job is left whose end no step has awaited.
fn clear<R: Host>(rt: &R, alloc: Global, stage: &mut Stage<R>) -> Result<(), Mishap> {
    stage.hands.served.clear();
    stage.hands.props.clear();
    if let Some(serving) = stage.serving.take()
        && let Some(server) = stage.hands.server.take()
    {
        let _ = server.unblock();
        demand(alloc, "serve ends without a fault", serving.join(rt))?;
    }
    demand(
        alloc,
        "each thread ends by a line",
        stage.besides.is_empty(),
    )
}

// Plays a scene once, in the way `way`. A scene over `unix` binds its socket at `path`. Returns the failure, if any.
fn play_once<R: Host>(
    rt: &R,
    alloc: Global,
    scene: &Scene,
    (way, path): (Way, &str),
) -> Option<Failure> {
    let Some(first) = scene.lines.first() else {
        return None;
    };
    let place = place_of(scene.ground.over, path);
    let hands = match first_hands(rt, alloc, (scene.ground, way), place) {
        Ok(hands) => hands,
        Err(mishap) => return Some(failure_at(alloc, first, mishap)),
    };
    let pool = match pool_of(rt, alloc, scene.ground.over) {
        Ok(pool) => pool,
        Err(mishap) => return Some(failure_at(alloc, first, mishap)),
    };
    let mut stage = Stage {
        hands,
        besides: Vec::new(alloc),
        pool,
        serving: None,
    };
    if way == Way::Handler
        && let Err(mishap) = begin_to_serve(rt, alloc, &mut stage)
    {
        return Some(failure_at(alloc, first, mishap));
    }
    let failure = play_all(rt, alloc, &mut stage, scene.lines.as_slice());
    match (failure, clear(rt, alloc, &mut stage)) {
        (None, Err(mishap)) => {
            let last = scene.lines.last().unwrap_or(first);
            Some(failure_at(alloc, last, mishap))
        }
        (failure, _) => failure,
    }
}

/// Plays a scene as many times as it asks for, each time with `recv_timeout` and, if it asks for both ways, also with a
/// handler, until it fails. Returns the failure, if any. A scene over `unix` binds its socket at `path`.
pub(crate) fn play<R: Host>(rt: &R, alloc: Global, scene: &Scene, path: &str) -> Option<Failure> {
    let ground = scene.ground;
    for _ in 0..ground.repeats {
        if let Some(failure) = play_once(rt, alloc, scene, (Way::Recv, path)) {
            return Some(failure);
        }
        if ground.is_both
            && let Some(failure) = play_once(rt, alloc, scene, (Way::Handler, path))
        {
            return Some(failure);
        }
    }
    None
}

//! The notes, and the responses to requests for them.
use matchit::{InsertError, Router};
use serde_json::{Value, json};
use std::alloc::Global;
use std::collections::BTreeMap;
use std::io;
use std::io::{Cursor, ErrorKind};
use std::sync::{Mutex, Wait};
use tiny_http::{Method, Response, StatusCode};

// Maximum number of notes.
const MOST_NOTES: usize = 1000;

/// A response of this program, whose data is in memory.
pub(crate) type Answer = Response<Cursor<Vec<u8>>>;

/// The resource that a path names: all notes, or one note.
#[derive(Clone, Copy, Debug, PartialEq, Eq)]
enum Route {
    Notes,
    Note,
}

/// The notes by number, and the number of the last note that was added.
#[derive(Drop)]
struct Notes {
    last: u64,
    by_id: BTreeMap<u64, String>,
}

/// A notebook that threads share, and the routes to its notes.
#[derive(Drop)]
pub(crate) struct Notebook {
    routes: Router<Route>,
    notes: Mutex<Notes>,
}

// Returns a response with this status code, whose data is this value as JSON.
fn json_answer(alloc: Global, status: u16, value: &Value) -> io::Result<Answer> {
    let answer = Response::from_data(alloc, value.to_string(alloc)?.into_bytes());
    let answer = answer.with(alloc, "Content-Type", "application/json")?;
    Ok(answer.with_status_code(StatusCode(status)))
}

/// Returns a response with this status code, whose JSON names an error.
pub(crate) fn fault(alloc: Global, status: u16, word: &str) -> io::Result<Answer> {
    json_answer(alloc, status, &json!(in alloc; {"error": word})?)
}

// Returns the 405 response for a path that allows only these methods.
fn not_allowed(alloc: Global, methods: &str) -> io::Result<Answer> {
    let answer = fault(alloc, 405, "method not allowed")?;
    Ok(answer.with(alloc, "Allow", methods)?)
}

impl Notebook {
    /// Creates an empty notebook.
    pub(crate) fn new(alloc: Global) -> Result<Notebook, InsertError> {
        let mut routes = Router::new(alloc);
        routes.insert("/notes", Route::Notes)?;
        routes.insert("/notes/{id}", Route::Note)?;
        let notes = Notes {
            last: 0,
            by_id: BTreeMap::new(alloc),
        };
        Ok(Notebook {
            routes,
            notes: Mutex::new(notes),
        })
    }

    /// Returns the current notes, each as JSON.
    pub(crate) fn values<Rt: Wait>(&self, rt: &Rt, alloc: Global) -> io::Result<Vec<Value>> {
        let mut values = Vec::new(alloc);
        for (id, text) in self.notes.lock(rt).by_id.iter() {
            let id = *id;
            values.push(json!(in alloc; {"id": id, "text": text.as_str()})?)?;
        }
        Ok(values)
    }

    // Adds the note in a body. Returns the response: the note, 400 if the body is invalid, or 507 if there are
    // `MOST_NOTES` notes already.
    fn add<Rt: Wait>(&self, rt: &Rt, alloc: Global, body: &[u8]) -> io::Result<Answer> {
        let value = match Value::from_slice(alloc, body) {
            Ok(value) => value,
            Err(error) if error.is_memory() => return Err(ErrorKind::OutOfMemory.into()),
            Err(_) => return fault(alloc, 400, "not JSON"),
        };
        let Some(text) = value.get("text").and_then(Value::as_str) else {
            return fault(alloc, 400, "no text");
        };
        let mut notes = self.notes.lock(rt);
        if notes.by_id.len() >= MOST_NOTES {
            return fault(alloc, 507, "no room");
        }
        let id = notes.last.saturating_add(1);
        notes.by_id.insert(id, String::from_str(alloc, text)?)?;
        notes.last = id;
        json_answer(alloc, 201, &json!(in alloc; {"id": id, "text": text})?)
    }

    // Returns the response to a request for `/notes`: all notes, the result of adding one, or a 405.
    fn answer_notes<Rt: Wait>(
        &self,
        rt: &Rt,
        alloc: Global,
        method: &Method,
        body: &[u8],
    ) -> io::Result<Answer> {
        match method {
            Method::Get | Method::Head => {
                let notes = Value::from(self.values(rt, alloc)?);
                json_answer(alloc, 200, &notes)
            }
            Method::Post => self.add(rt, alloc, body),
            _ => not_allowed(alloc, "GET, HEAD, POST"),
        }
    }

    // Returns the response to a request for the note `id`: the note, which `DELETE` removes, or a 404 or 405.
    fn answer_note<Rt: Wait>(
        &self,
        rt: &Rt,
        alloc: Global,
        method: &Method,
        id: u64,
    ) -> io::Result<Answer> {
        let mut notes = self.notes.lock(rt);
        match method {
            Method::Get | Method::Head => match notes.by_id.get(&id) {
                Some(text) => {
                    let note = json!(in alloc; {"id": id, "text": text.as_str()})?;
                    json_answer(alloc, 200, &note)
                }
                None => fault(alloc, 404, "no such note"),
            },
            Method::Delete => match notes.by_id.remove(&id) {
                Some(text) => json_answer(alloc, 200, &json!(in alloc; {"id": id, "text": text})?),
                None => fault(alloc, 404, "no such note"),
            },
            _ => not_allowed(alloc, "GET, HEAD, DELETE"),
        }
    }

    /// Returns the response to a request with this method, path and body.
    pub(crate) fn answer<Rt: Wait>(
        &self,
        rt: &Rt,
        alloc: Global,
        method: &Method,
        path: &str,
        body: &[u8],
    ) -> io::Result<Answer> {
        let Ok(found) = self.routes.at(path) else {
            return fault(alloc, 404, "no such path");
        };
        let id = found.params.get("id").map(|id| id.parse::<u64>());
        match (*found.value, id) {
            (Route::Notes, _) => self.answer_notes(rt, alloc, method, body),
            (Route::Note, Some(Ok(id))) => self.answer_note(rt, alloc, method, id),
            (Route::Note, _) => fault(alloc, 400, "not a number"),
        }
    }
}

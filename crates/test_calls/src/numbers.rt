//! Makes successive calls on turns, and stores numbers in a `ByNumber`.
use crate::deeds::Deed;
use crate::findings::add_shown;
use crate::replies::{add_reply, done, unfit, word};
use crate::row::{Finding, Input};
use std::alloc::{AllocError, Global};
use tiny_http_core::turns::{Finishing, Leaving, Turns, TurnsError};
use tiny_http_turns::by_number::ByNumber;

// The item of a row's turns.
const ITEM: u8 = 7;

// Formats the result of issuing a number.
fn issued(alloc: Global, outcome: Result<u64, TurnsError>) -> Result<Vec<u8>, AllocError> {
    match outcome {
        Ok(number) => Ok(format!(in alloc; "number {number}")?.into_bytes()),
        Err(fault) => Ok(format!(in alloc; "{fault}")?.into_bytes()),
    }
}

// Formats an item, or that there is none.
fn item_line(alloc: Global, item: Option<u8>) -> Result<Vec<u8>, AllocError> {
    match item {
        Some(item) => Ok(format!(in alloc; "item {item}")?.into_bytes()),
        None => word(alloc, "no item"),
    }
}

// Formats the item and the text of a `Go`.
fn going(alloc: Global, item: u8, text: &[u8]) -> Result<Vec<u8>, AllocError> {
    let mut line = format!(in alloc; "go {item} ")?.into_bytes();
    line.extend_from_slice(text)?;
    Ok(line)
}

// Formats the result of finishing a turn.
fn finished(alloc: Global, finishing: Finishing<u8>) -> Result<Vec<u8>, AllocError> {
    match finishing {
        Finishing::Passed => word(alloc, "passed"),
        Finishing::Go(item, text) => going(alloc, item, text.as_slice()),
        Finishing::Strange(item) => Ok(format!(in alloc; "strange {item}")?.into_bytes()),
    }
}

// Formats the result of leaving a text for a number.
fn left(alloc: Global, leaving: Leaving<u8>) -> Result<Vec<u8>, AllocError> {
    match leaving {
        Leaving::Left => word(alloc, "left"),
        Leaving::Go(item, text) => going(alloc, item, text.as_slice()),
        Leaving::Strange(text) => {
            let mut line = b"strange ".to_vec(alloc)?;
            line.extend_from_slice(text.as_slice())?;
            Ok(line)
        }
    }
}

// Issues the next number, takes the item for it, and finishes it with that item. Returns the number if its turn passed.
fn pass_one(turns: &mut Turns<u8>) -> Option<u64> {
    let number = turns.issue().ok()?;
    let item = turns.take(number)?;
    match turns.finish(number, item) {
        Finishing::Passed => Some(number),
        _ => None,
    }
}

// Issues, takes and finishes `count` numbers, which must count up from 0. Formats `passed`, or the first number for
// which that failed.
fn pass(alloc: Global, turns: &mut Turns<u8>, count: u64) -> Result<Vec<u8>, AllocError> {
    for wanted in 0..count {
        if pass_one(turns) != Some(wanted) {
            return Ok(format!(in alloc; "{wanted} did not pass")?.into_bytes());
        }
    }
    word(alloc, "passed")
}

// Makes a call on turns, and formats the result.
fn call_turn(alloc: Global, turns: &mut Turns<u8>, deed: &Deed) -> Result<Vec<u8>, AllocError> {
    match deed {
        Deed::Issue => issued(alloc, turns.issue()),
        Deed::Take(number) => item_line(alloc, turns.take(*number)),
        Deed::PutBack(number, item) => match turns.put_back(*number, *item) {
            Ok(()) => done(alloc),
            Err(item) => item_line(alloc, Some(item)),
        },
        Deed::Finish(number, item) => finished(alloc, turns.finish(*number, *item)),
        Deed::Leave(number, text) => {
            let text = text.as_slice().to_vec(alloc)?;
            left(alloc, turns.leave(*number, text))
        }
        Deed::Pass(count) => pass(alloc, turns, *count),
        _ => unfit(alloc),
    }
}

/// Makes calls on turns. Adds their results, and finally the item, unless a number holds it.
pub fn call_turns(alloc: Global, input: &Input, to: &mut Vec<Finding>) -> Result<(), AllocError> {
    let mut turns = Turns::new(alloc, ITEM);
    for deed in &input.deeds {
        let reply = call_turn(alloc, &mut turns, deed)?;
        add_reply(alloc, to, reply.as_slice())?;
    }
    match turns.into_item() {
        Some(item) => add_shown(alloc, to, "kept", &item),
        None => Ok(()),
    }
}

/// Stores each number below `count` under itself in a `ByNumber`. Adds the length, and the value under the last number.
pub fn keep_numbers(alloc: Global, count: u64, to: &mut Vec<Finding>) -> Result<(), AllocError> {
    let mut kept = ByNumber::new(alloc);
    for number in 0..count {
        if kept.push(Some(number)).is_err() {
            return Err(AllocError);
        }
    }
    add_shown(alloc, to, "length", &kept.len())?;
    match kept.get(count.saturating_sub(1)) {
        Some(number) => add_shown(alloc, to, "kept", number),
        None => Ok(()),
    }
}

//! The readers and writers of a scene that take turns.
use crate::memory::Bounded;
use crate::named::{add, get, take};
use crate::props::Props;
use std::alloc::Global;
use std::io::{Cursor, ErrorKind, Read, Write};
use std::sync::Wait;
use test_data_files::text::text_of;
use test_scene_files::grounds::{TurnDeed, TurnsDeed};
use test_scene_files::mishap::{Mishap, demand_bytes, demand_fault, demand_number};
use tiny_http_request::test::Recorder;
use tiny_http_threads::sequential::{
    SequentialReader, SequentialReaderBuilder, SequentialWriter, SequentialWriterBuilder,
};

/// A builder of readers or writers that take turns; for writers, with the recorder to which they write.
#[derive(Drop)]
pub enum Turns<R: Wait + Drop> {
    Readers(SequentialReaderBuilder<Cursor<Vec<u8>>, R>),
    Writers(SequentialWriterBuilder<Bounded<R>, R>, Recorder<R>),
}

/// A reader or a writer that has its turn or waits for it.
#[derive(Drop)]
pub enum InTurn<R: Wait + Drop> {
    Reader(SequentialReader<Cursor<Vec<u8>>, R>),
    Writer(SequentialWriter<Bounded<R>, R>),
}

// Creates the builder of readers that read `text` in turn.
fn readers_of<R: Wait + Copy>(rt: &R, alloc: Global, text: &str) -> Result<Turns<R>, Mishap> {
    let reader = Cursor::new(text_of(alloc, text)?);
    Ok(Turns::Readers(SequentialReaderBuilder::new(*rt, alloc, reader)?))
}

// Creates the builder of writers that together accept `room` bytes in memory.
fn writers_of<R: Wait + Copy>(rt: &R, alloc: Global, room: usize) -> Result<Turns<R>, Mishap> {
    let recorder = Recorder::new(*rt, alloc)?;
    let writer = Bounded::new(&recorder, (room, ErrorKind::Other))?;
    Ok(Turns::Writers(SequentialWriterBuilder::new(*rt, alloc, writer)?, recorder))
}

// Returns the next reader or writer of the builder. Fails if there is no builder.
fn next_of<R: Wait + Copy>(turns: &mut Option<Turns<R>>) -> Result<InTurn<R>, Mishap> {
    match turns {
        Some(Turns::Readers(readers)) => Ok(InTurn::Reader(readers.next()?)),
        Some(Turns::Writers(writers, _)) => Ok(InTurn::Writer(writers.next()?)),
        None => Err(Mishap::Unplayable("there are no turns")),
    }
}

/// Runs a step on the sequence of readers or writers that take turns.
pub fn act_turns<R: Wait + Copy>(
    rt: &R,
    alloc: Global,
    props: &mut Props<R>,
    deed: TurnsDeed<'_>,
) -> Result<(), Mishap> {
    match deed {
        TurnsDeed::Read(text) => {
            props.turns = Some(readers_of(rt, alloc, text)?);
            Ok(())
        }
        TurnsDeed::Write(room) => {
            props.turns = Some(writers_of(rt, alloc, room)?);
            Ok(())
        }
        TurnsDeed::Next(name) => {
            let next = next_of(&mut props.turns)?;
            add(alloc, &mut props.in_turn, name, next)
        }
        TurnsDeed::Wrote(text) => match &props.turns {
            Some(Turns::Writers(_, recorder)) => {
                let wanted = text_of(alloc, text)?;
                demand_bytes(alloc, wanted.as_slice(), recorder.bytes()?.as_slice())
            }
            _ => Err(Mishap::Unplayable("nothing is written")),
        },
    }
}

// Reads once, with room for as many bytes as `text` has, and expects `text`.
fn read_once<R: Wait + Drop>(
    alloc: Global,
    in_turn: &mut InTurn<R>,
    text: &str,
) -> Result<(), Mishap> {
    let InTurn::Reader(reader) = in_turn else {
        return Err(Mishap::Unplayable("only a reader is read"));
    };
    let wanted = text_of(alloc, text)?;
    let mut came = vec![in alloc; 0u8; wanted.len()]?;
    match reader.read(&mut came) {
        Ok(count) => {
            let came = came.get(..count).unwrap_or_default();
            demand_bytes(alloc, wanted.as_slice(), came)
        }
        Err(fault) => demand_fault(alloc, None, Some(fault.kind())),
    }
}

// Writes `text` in one call, and expects `wanted`: the number of bytes that the call accepts, or the kind of its error.
fn write_once<R: Wait + Drop>(
    alloc: Global,
    in_turn: &mut InTurn<R>,
    (text, wanted): (&str, Result<usize, ErrorKind>),
) -> Result<(), Mishap> {
    let InTurn::Writer(writer) = in_turn else {
        return Err(Mishap::Unplayable("only a writer is written to"));
    };
    match (writer.write(text_of(alloc, text)?.as_slice()), wanted) {
        (Ok(came), Ok(wanted)) => demand_number(alloc, wanted as u64, came as u64),
        (came, wanted) => {
            let came = came.err().map(|fault| fault.kind());
            demand_fault(alloc, wanted.err(), came)
        }
    }
}

/// Runs a step on the reader or writer called `name`.
pub fn act_in_turn<R: Wait + Copy>(
    alloc: Global,
    props: &mut Props<R>,
    name: &str,
    deed: TurnDeed<'_>,
) -> Result<(), Mishap> {
    if let TurnDeed::Ends = deed {
        drop(take(&mut props.in_turn, name)?);
        return Ok(());
    }
    let in_turn = get(&mut props.in_turn, name)?;
    match (deed, in_turn) {
        (TurnDeed::Reads(text), in_turn) => read_once(alloc, in_turn, text),
        (TurnDeed::Writes(text, count), in_turn) => write_once(alloc, in_turn, (text, Ok(count))),
        (TurnDeed::WriteFails(text, kind), in_turn) => {
            write_once(alloc, in_turn, (text, Err(kind)))
        }
        (TurnDeed::Flushes, InTurn::Writer(writer)) => {
            demand_fault(alloc, None, writer.flush().err().map(|fault| fault.kind()))
        }
        _ => Err(Mishap::Unplayable("a reader can't do that")),
    }
}

//! Values that the steps of a scene refer to by name.
use std::alloc::{AllocError, Global};
use std::mem;
use test_scene_files::mishap::Mishap;
use test_scene_files::scene::Line;

/// A value and its name.
#[derive(Drop)]
pub struct Named<T> {
    pub name: String,
    pub value: T,
}

// Returns the index of the value called `name`: the last one if there are several, or `None` if there is none.
fn place_of<T>(all: &[Named<T>], name: &str) -> Option<usize> {
    all.iter().rposition(|named| named.name.as_str() == name)
}

/// Adds a value called `name`, which hides earlier values of that name.
pub fn add<T: Drop>(
    alloc: Global,
    all: &mut Vec<Named<T>>,
    name: &str,
    value: T,
) -> Result<(), Mishap> {
    let name = String::from_str(alloc, name)?;
    match all.push(Named { name, value }) {
        Ok(()) => Ok(()),
        Err(_) => Err(Mishap::OutOfMemory),
    }
}

/// Removes and returns the last value called `name`. Fails if there is none.
pub fn take<T: Drop>(all: &mut Vec<Named<T>>, name: &str) -> Result<T, Mishap> {
    let place = place_of(all.as_slice(), name).unwrap_or(usize::MAX);
    if place >= all.len() {
        return Err(Mishap::Unplayable("there is none of this name"));
    }
    let Named { name: _, value } = all.remove(place);
    Ok(value)
}

/// Returns the last value called `name`. Fails if there is none.
pub fn get<'a, T>(all: &'a mut Vec<Named<T>>, name: &str) -> Result<&'a mut T, Mishap> {
    let place = place_of(all.as_slice(), name).unwrap_or(usize::MAX);
    match all.get_mut(place) {
        Some(named) => Ok(&mut named.value),
        None => Err(Mishap::Unplayable("there is none of this name")),
    }
}

/// Returns whether one of the lines contains `name` as a word.
pub fn is_named(lines: &[Line], name: &str) -> bool {
    lines.iter().any(|line| {
        let text = line.text.as_str();
        text.split(' ').any(|word| word == name)
    })
}

/// Removes and returns the values that `lines` name.
pub fn part_of<T: Drop>(
    alloc: Global,
    all: &mut Vec<Named<T>>,
    lines: &[Line],
) -> Result<Vec<Named<T>>, AllocError> {
    let mut theirs = Vec::new(alloc);
    let mut ours = Vec::new(alloc);
    for named in mem::replace(all, Vec::new(alloc)) {
        if is_named(lines, named.name.as_str()) {
            theirs.push(named)?;
        } else {
            ours.push(named)?;
        }
    }
    *all = ours;
    Ok(theirs)
}

/// Appends `more` to `all`.
pub fn add_all<T: Drop>(all: &mut Vec<Named<T>>, more: Vec<Named<T>>) -> Result<(), AllocError> {
    for named in more {
        all.push(named)?;
    }
    Ok(())
}

/// Returns whether a value is called `name`.
pub fn has<T>(all: &[Named<T>], name: &str) -> bool {
    place_of(all, name).is_some()
}

// The files that a run left, held to those that are due: for the programs that the gate runs. All functions here are inner.
#![tactic(auto)]

use block::MODEL_ROOM;
use saying::errors::ENOENT;
use saying::say;
use std::fs::Files;

// Whether both files can be read and hold the same bytes.
pub fn is_as_due(rt: &impl Files, path: &[u8], due: &[u8]) -> bool {
    let mut text = [0u8; MODEL_ROOM + 1];
    let written = import_files::read_file(rt, path, &mut text);
    let mut other = [0u8; MODEL_ROOM + 1];
    let expected = import_files::read_file(rt, due, &mut other);
    match (written, expected) {
        (Ok(m), Ok(n)) => text[..m] == other[..n],
        _ => false,
    }
}

// Says whether the file has the bytes of the other.
pub fn say_as_due(rt: &impl Files, path: &[u8], due: &[u8]) {
    say(path);
    if is_as_due(rt, path, due) {
        say(b" holds what is due\n");
    } else {
        say(b" does not hold what is due\n");
    }
}

// Says whether there is no such file.
pub fn say_gone(rt: &impl Files, path: &[u8]) {
    let mut text = [0u8; 1];
    say(path);
    match import_files::read_file(rt, path, &mut text) {
        Err(ENOENT) => say(b" is not there\n"),
        _ => say(b" is there\n"),
    }
}

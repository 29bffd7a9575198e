// The counts of a bulk import: what became of each file, how far the import is, and what is said at its end. All functions here are inner.
#![tactic(auto)]

use import_says::{say_kind, say_name};
use import_sheets::Became;
use saying::{STANDARD_ERROR, STANDARD_OUTPUT, say};
use std::env::Env;
use std::io::IsTerminal;

// What became of a file: its sheet is there, and its model where that was asked for, or it was refused, not read, not written or passed over,
// or its sheet is there and the model that was asked for can't be written.
#[derive(Clone, Copy)]
pub enum Done {
    Written {
        sheet: Became,
        model: Option<Became>,
    },
    Refused,
    Unread,
    Unwritten,
    Passed,
    Unmodelled,
}

// How many sheets or models became what.
#[derive(Clone, Copy, Default)]
pub struct Kinds {
    pub new: usize,
    pub changed: usize,
    pub unchanged: usize,
}

// How many files became what.
#[derive(Clone, Copy, Default)]
pub struct Counts {
    pub sheets: Kinds,
    pub models: Kinds,
    pub refused: usize,
    pub unread: usize,
    pub unwritten: usize,
    pub passed: usize,
    pub unmodelled: usize,
}

// How many of the lists without a current sheet, and of those without a current model, are named at the end.
pub const LEFT_NAMED: usize = 1000;

// Says what a sheet or model became.
pub fn say_became(became: Became) {
    match became {
        Became::New => say(b" new"),
        Became::Changed => say(b" changed"),
        Became::Unchanged => say(b" unchanged"),
    }
}

// Whether a person sits at a terminal and the lines go elsewhere, so that they do not show how far the import is.
pub fn is_watched(error: &impl IsTerminal, output: &impl IsTerminal) -> bool {
    error.is_terminal() && !output.is_terminal()
}

// Shows that person how many files of all are done.
pub fn show_progress(watched: bool, done: usize, all: usize) {
    if watched {
        io::write_all(STANDARD_ERROR, b"\r");
        io::print_decimal(STANDARD_ERROR, done as u64);
        io::write_all(STANDARD_ERROR, b" of ");
        io::print_decimal(STANDARD_ERROR, all as u64);
        if done == all {
            io::write_all(STANDARD_ERROR, b"\n");
        }
    }
}

// Says that there is none that is current.
pub fn say_none(model: bool) {
    say(b"no current ");
    say_kind(model);
    say(b": ");
}

// Keeps the number of the argument of a list that has none, where there is room.
pub fn keep_left(left: &mut [usize; LEFT_NAMED], count: usize, i: usize) {
    if count < LEFT_NAMED {
        left[count] = i;
    }
}

// How many lists have no sheet of their present bytes.
pub fn left_of(counts: &Counts) -> usize {
    counts
        .refused
        .wrapping_add(counts.unread)
        .wrapping_add(counts.unwritten)
}

// Counts one more.
pub fn add_one(count: &mut usize) {
    *count = count.wrapping_add(1);
}

pub fn add_kind(kinds: &mut Kinds, became: Became) {
    match became {
        Became::New => add_one(&mut kinds.new),
        Became::Changed => add_one(&mut kinds.changed),
        Became::Unchanged => add_one(&mut kinds.unchanged),
    }
}

// Counts what became of a file.
pub fn count_done(counts: &mut Counts, done: Done) {
    match done {
        Done::Written { sheet, model } => {
            add_kind(&mut counts.sheets, sheet);
            if let Some(became) = model {
                add_kind(&mut counts.models, became);
            }
        }
        Done::Refused => add_one(&mut counts.refused),
        Done::Unread => add_one(&mut counts.unread),
        Done::Unwritten => add_one(&mut counts.unwritten),
        Done::Passed => add_one(&mut counts.passed),
        Done::Unmodelled => add_one(&mut counts.unmodelled),
    }
}

// Counts what became of the file that argument i names, and keeps its number where it has no sheet, or no model that was asked for.
pub fn keep_done(
    i: usize,
    done: Done,
    counts: &mut Counts,
    left: &mut [usize; LEFT_NAMED],
    lacking: &mut [usize; LEFT_NAMED],
) {
    match done {
        Done::Refused | Done::Unread | Done::Unwritten => keep_left(left, left_of(counts), i),
        Done::Unmodelled => keep_left(lacking, counts.unmodelled, i),
        Done::Written { .. } | Done::Passed => (),
    }
    count_done(counts, done);
}

// Names a list that has no current sheet or model.
pub fn name_left(rt: &impl Env, i: usize, model: bool) {
    let mut name = io::buffer();
    let length = saying::argument(rt, i, &mut name).unwrap_or(0);
    say_none(model);
    say_name(&name[..length]);
    say(b"\n");
}

// Names the lists that have no current sheet or model, so that they need not be searched for among many lines: as many as there was room to
// keep.
pub fn say_left(rt: &impl Env, model: bool, left: &[usize; LEFT_NAMED], count: usize) {
    let kept = LEFT_NAMED.min(count);
    for i in &left[..kept] {
        name_left(rt, *i, model);
    }
    if kept < count {
        say_none(model);
        say(b"lists that are not named here:");
        saying::say_number((count - kept) as u64);
        say(b"\n");
    }
}

// Says one of the counts.
pub fn say_count(what: &[u8], count: usize) {
    say(what);
    io::print_decimal(STANDARD_OUTPUT, count as u64);
}

// Says how many sheets or models there are, and how many of them became what.
pub fn say_kinds(what: &[u8], kinds: &Kinds) {
    let all = kinds
        .new
        .wrapping_add(kinds.changed)
        .wrapping_add(kinds.unchanged);
    say_count(what, all);
    say_count(b" (new ", kinds.new);
    say_count(b", changed ", kinds.changed);
    say_count(b", unchanged ", kinds.unchanged);
    say(b")");
}

// Says how many models became what.
pub fn say_models(counts: &Counts) {
    say_kinds(b"models ", &counts.models);
    say(b"\n");
}

// Says how many files became what, and whether that was taken. Where it was not, an earlier line may be missing too.
pub fn say_counts(counts: &Counts) -> bool {
    say_kinds(b"sheets ", &counts.sheets);
    say_count(b", refused ", counts.refused);
    say_count(b", not read ", counts.unread);
    say_count(
        b", not written ",
        counts.unwritten.wrapping_add(counts.unmodelled),
    );
    say_count(b", passed over ", counts.passed);
    io::write_all(STANDARD_OUTPUT, b"\n")
}

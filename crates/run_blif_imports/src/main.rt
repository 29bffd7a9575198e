// The bulk import with models, run: the arguments, the first of which asks for models, are imported, and the files are read back. Of each name
// that follows it is said whether its file has the bytes that are due, which lie in data/ beside it, or whether it is gone.
#![tactic(auto)]

use due_files::{say_as_due, say_gone};
use std::fs;
use std::fs::Files;
use std::os::unix::fs::symlink;

// A model where there was none, one in the place of an older one, one that stays, and one beside a sheet that was there; nothing waits any
// more.
fn say_models(rt: &impl Files) {
    say_as_due(rt, b"valve.pla.blif", b"valve.due");
    say_as_due(rt, b"again.pla.blif", b"model.due");
    say_as_due(rt, b"same.pla.blif", b"model.due");
    say_as_due(rt, b"added.pla.blif", b"model.due");
    say_as_due(rt, b"again.pla.sheet", b"sheet.due");
    say_gone(rt, b"again.pla.blif.before");
    say_gone(rt, b"same.pla.blif.before");
}

// What imports that were cut short left: an unfinished model, an older one without a new one, and one beside a new one.
fn say_cut_short(rt: &impl Files) {
    say_as_due(rt, b"taken.pla.blif", b"model.due");
    say_gone(rt, b"taken.pla.blif.new");
    say_as_due(rt, b"left.pla.blif", b"model.due");
    say_gone(rt, b"left.pla.blif.before");
    say_as_due(rt, b"after.pla.blif", b"model.due");
    say_gone(rt, b"after.pla.blif.before");
}

// An older model of a refused list, one that was set aside before it, one of a list that is not there, and one of a list whose sheet can't
// be written.
fn say_older(rt: &impl Files) {
    say_gone(rt, b"torn.pla.blif");
    say_gone(rt, b"torn.pla.blif.before");
    say_as_due(rt, b"torn.pla.blif.old", b"aside.was");
    say_as_due(rt, b"torn.pla.blif.old2", b"older.was");
    say_as_due(rt, b"gone.pla.sheet", b"sheet.was");
    say_as_due(rt, b"gone.pla.blif", b"older.was");
    say_gone(rt, b"blocked.pla.blif");
    say_as_due(rt, b"blocked.pla.blif.old", b"older.was");
}

// What stood in a model's place is as it was, and the sheet beside it is there.
fn say_kept(rt: &impl Files) {
    say_as_due(rt, b"note.pla.sheet", b"sheet.due");
    say_as_due(rt, b"note.pla.blif", b"note.kept");
    say_gone(rt, b"note.pla.blif.new");
    say_as_due(rt, b"waits.pla.blif", b"model.due");
    say_as_due(rt, b"waits.pla.blif.before", b"note.kept");
    say_as_due(rt, b"itself.pla.blif", b"itself.kept");
    say_as_due(rt, b"blocked.pla.sheet", b"note.kept");
}

// Makes a list the link to what stands under its model's name, which lies there as a copy of it.
fn link_itself(rt: &impl Files) {
    let _ = fs::remove_file(rt, "itself.pla");
    let _ = symlink(rt, "itself.pla.blif", "itself.pla");
}

fn main(rt: HostRuntime) {
    link_itself(&rt);
    bulk_import::import_all(&rt);
    say_models(&rt);
    say_cut_short(&rt);
    say_older(&rt);
    say_kept(&rt);
}

// The bulk import, run: the arguments are imported, and the files are read back. Of each name that follows it is said whether its file
// has the bytes that are due, which lie in data/ beside it, or whether it is gone.
#![tactic(auto)]

use due_files::{say_as_due, say_gone};
use std::fs;
use std::fs::Files;
use std::os::unix::fs::symlink;

// A sheet where there was none, one in the place of an older one, and one that stays; nothing waits any more.
fn say_sheets(rt: &impl Files) {
    say_as_due(rt, b"valve.pla.sheet", b"valve.due");
    say_as_due(rt, b"again.pla.sheet", b"again.due");
    say_as_due(rt, b"same.pla.sheet", b"again.due");
    say_gone(rt, b"again.pla.sheet.before");
    say_gone(rt, b"same.pla.sheet.before");
}

// What imports that were cut short left: an unfinished sheet, an older one without a new one, and one beside a new one.
fn say_cut_short(rt: &impl Files) {
    say_as_due(rt, b"taken.pla.sheet", b"again.due");
    say_gone(rt, b"taken.pla.sheet.new");
    say_as_due(rt, b"left.pla.sheet", b"again.due");
    say_gone(rt, b"left.pla.sheet.before");
    say_as_due(rt, b"after.pla.sheet", b"again.due");
    say_gone(rt, b"after.pla.sheet.before");
}

// An older sheet of a refused list, one that was set aside before it, and one of a list that is not there.
fn say_older(rt: &impl Files) {
    say_gone(rt, b"torn.pla.sheet");
    say_gone(rt, b"torn.pla.sheet.before");
    say_as_due(rt, b"torn.pla.sheet.old", b"torn.was");
    say_as_due(rt, b"torn.pla.sheet.old2", b"torn.older");
    say_as_due(rt, b"gone.pla.sheet", b"gone.was");
}

// Nothing is left of a sheet that was refused or could not be written, and what stood in its place is as it was.
fn say_kept(rt: &impl Files) {
    say_gone(rt, b"overlap.pla.sheet");
    say_gone(rt, b"blocked.pla.sheet.new");
    say_as_due(rt, b"blocked.pla.sheet/kept", b"blocked.kept");
    say_as_due(rt, b"note.pla.sheet", b"note.kept");
    say_gone(rt, b"note.pla.sheet.new");
    say_as_due(rt, b"waits.pla.sheet", b"again.due");
    say_as_due(rt, b"waits.pla.sheet.before", b"note.kept");
    say_as_due(rt, b"itself.pla.sheet", b"itself.kept");
}

// Models, which were not asked for, are as they were, beside a sheet that is changed, refused or not written, or not.
fn say_models(rt: &impl Files) {
    say_as_due(rt, b"again.pla.blif", b"model.was");
    say_as_due(rt, b"same.pla.blif", b"model.was");
    say_as_due(rt, b"torn.pla.blif", b"model.was");
    say_as_due(rt, b"note.pla.blif", b"model.was");
    say_as_due(rt, b"gone.pla.blif", b"model.was");
    say_as_due(rt, b"valve.pla.blif", b"note.kept");
}

// Makes a list the link to what stands under its sheet's name, which lies there as a copy of it.
fn link_itself(rt: &impl Files) {
    let _ = fs::remove_file(rt, "itself.pla");
    let _ = symlink(rt, "itself.pla.sheet", "itself.pla");
}

fn main(rt: HostRuntime) {
    link_itself(&rt);
    bulk_import::import_all(&rt);
    say_sheets(&rt);
    say_cut_short(&rt);
    say_older(&rt);
    say_kept(&rt);
    say_models(&rt);
}

// What a bulk import says beside the line of a list: why a file can't be read or written, what became of an older sheet or model, and what
// an import that was cut short left. All functions here are inner.
#![tactic(auto)]

ghost use Rattle.std.specs.Prelude.{◌≤◌, length};
ghost use Rattle.import_paths.specs.Room.{name_most, ending_most};

use file_facts::Facts;
use import_paths::PATH_ROOM;
use import_sheets::{Standing, standing_at};
use saying::{errors, say};
use std::fs::Files;

// Says a name, as it is shown; of a longer one the first 4,096 bytes.
pub fn say_name(name: &[u8]) {
    let mut shown = [0u8; PATH_ROOM];
    let count = put_import::put_name(&mut shown, read_bytes::first_bytes(name, PATH_ROOM));
    say(&shown[..count]);
}

// The system's words for an error.
pub fn say_error(error: i32) {
    match error {
        errors::ENOENT => say(b"No such file or directory"),
        errors::EACCES => say(b"Permission denied"),
        errors::EISDIR => say(b"Is a directory"),
        errors::ENOTDIR => say(b"Not a directory"),
        errors::EEXIST => say(b"File exists"),
        errors::ENAMETOOLONG => say(b"File name too long"),
        errors::ELOOP => say(b"Too many levels of symbolic links"),
        errors::ENOSPC => say(b"No space left on device"),
        errors::EILSEQ => say(b"Invalid or incomplete multibyte or wide character"),
        errors::EDQUOT => say(b"Disk quota exceeded"),
        errors::EFBIG => say(b"File too large"),
        errors::EIO => say(b"Input/output error"),
        errors::EROFS => say(b"Read-only file system"),
        errors::EMFILE => say(b"Too many open files"),
        errors::EPERM => say(b"Operation not permitted"),
        errors::EINVAL => say(b"Invalid argument"),
        errors::ENOMEM => say(b"Cannot allocate memory"),
        _ => say(b"Another error"),
    }
}

// Says why: the words, and the system's number.
pub fn say_why(error: i32) {
    say(b": ");
    say_error(error);
    say(b" (error");
    // none is below 0
    saying::say_number(u64::try_from(error).unwrap_or(0));
    say(b")");
}

// Says which is meant.
pub fn say_kind(model: bool) {
    if model {
        say(b"model");
    } else {
        say(b"sheet");
    }
}

// Says the name of a list's sheet or model with this ending and number.
pub fn say_beside(name: &[u8], model: bool, ending: &[u8], k: usize)
    requires name_len_bound { length name.now ≤ name_most }
    requires ending_len_bound { length ending.now ≤ ending_most }
{
    let mut path = [0u8; PATH_ROOM];
    let length = import_paths::put_path(&mut path, name, model, ending, k);
    say_name(&path[..length]);
}

// Says what became of an older sheet or model that was set aside: nothing where there was none.
pub fn say_aside(name: &[u8], model: bool, aside: Result<Option<usize>, i32>)
    requires { length name.now ≤ name_most }
{
    match aside {
        Ok(None) => (),
        Ok(Some(k)) => {
            say(b"; the older ");
            say_kind(model);
            say(b" is now ");
            say_beside(name, model, b".old", k);
        }
        Err(error) => {
            say(b"; the older ");
            say_kind(model);
            say(b" could not be renamed");
            say_why(error);
        }
    }
}

// Says that an older sheet or model has its name, where it has.
pub fn say_older(rt: &impl Files, name: &[u8], model: bool, list: Option<Facts>)
    requires { length name.now ≤ name_most }
{
    if import_sheets::is_older(rt, name, model, list) {
        say(b"; its ");
        say_kind(model);
        say(b" is an older one");
    }
}

// Says that a file can't be read.
pub fn say_unread(name: &[u8], error: i32) {
    say_name(name);
    say(b" can't be read");
    say_why(error);
}

// Says that a list is none that could be read to its end.
pub fn say_waited_for(name: &[u8]) {
    say_name(name);
    say(b" can't be read: it is a pipe, a device or a socket, and no file");
}

// Says that a sheet or model can't be written. A sheet's words begin the line of its list, a model's come after what became of its sheet.
pub fn say_cannot(name: &[u8], model: bool) {
    if model {
        say(b"; its model");
    } else {
        say_name(name);
    }
    say(b" can't be written");
}

// Says so, and what the system says of it.
pub fn say_unwritten(name: &[u8], model: bool, error: i32) {
    say_cannot(name, model);
    say_why(error);
}

// Says what stands in the place of a sheet or model.
pub fn say_standing(model: bool, what: Standing) {
    match what {
        Standing::Itself => say(b" is the list itself"),
        Standing::Unreadable(error) => {
            say(b" can't be read");
            say_why(error);
        }
        _ => {
            say(b" is no ");
            say_kind(model);
        }
    }
}

// Says that a sheet or model can't be written for what stands in its place, which is left there.
pub fn say_kept(name: &[u8], model: bool, ending: &[u8], what: Standing)
    requires name_len_bound { length name.now ≤ name_most }
    requires ending_len_bound { length ending.now ≤ ending_most }
{
    say_cannot(name, model);
    say(b": ");
    say_beside(name, model, ending, 1);
    say_standing(model, what);
}

// Says what keeps a list's sheet or model from being written, where something does.
pub fn say_block(rt: &impl Files, name: &[u8], model: bool, list: Option<Facts>) -> bool
    requires { length name.now ≤ name_most }
{
    let own = standing_at(rt, name, model, list, b"");
    if import_sheets::is_kept(own) {
        say_kept(name, model, b"", own);
        return true;
    }
    let before = standing_at(rt, name, model, list, b".before");
    if import_sheets::is_kept(before) {
        say_kept(name, model, b".before", before);
        return true;
    }
    false
}

// Says that an import before this one was cut short, and whether that was before or after it wrote this list's sheet or model.
pub fn say_cut_short(name: &[u8], model: bool, written: bool) {
    say_name(name);
    say(b": an earlier import was cut short ");
    if written {
        say(b"after");
    } else {
        say(b"before");
    }
    say(b" it wrote this list's ");
    say_kind(model);
    say(b"\n");
}

// Files of a bulk import: a list is read, its sheet and its model are written whole or not at all, what stands beside it is renamed or
// removed. A list's name, and whether its model is meant or its sheet, say which file an ending is of. What the system does no contract
// says, so these functions promise no more than that they are safe and end; the gate runs them (crates run_imports, run_blif_imports). All
// functions here are inner. An error is the system's number for it.
#![tactic(auto)]

ghost use Rattle.std.specs.Prelude.{◌≤◌, length, IfOk};
ghost use Rattle.io.specs.Counts.{IsPrefixLen};
ghost use Rattle.import_paths.specs.Room.{name_most, ending_most};

use import_paths::{PATH_ROOM, put_path};
use saying::errors::{EEXIST, EIO, ENAMETOOLONG, ENOENT};
use saying::{number_of, open_file, path_of, read_full};
use std::fs;
use std::fs::{Files, OpenFile, OpenOptions, Permissions};
use std::io::{Read, Write};
use std::os::unix::fs::PermissionsExt;

// How many names are tried for one file.
pub const NAMES_TRIED: usize = 1000;

// Whether reading ended where the file did. `read_full` also ends where a read fails, and a folder can be opened and not read.
pub fn check_end(file: &mut impl Read) -> Result<(), i32> {
    let mut more = [0u8; 1];
    match file.read(&mut more) {
        Ok(0) => Ok(()),
        Ok(_) => Err(EIO),
        Err(error) => Err(number_of(error)),
    }
}

// Reads a file that is open, as much of it as fits, and answers how many bytes it put at the start of the buffer, or why it could not.
pub fn read_open(file: &mut impl Read, text: &mut [u8]) -> Result<usize, i32>
    ensures { IfOk result (λ length. IsPrefixLen length text.new) }
{
    let length = read_full(file, text);
    if length < text.len() {
        check_end(file)?;
    }
    Ok(length)
}

// Reads the file in the same way.
pub fn read_file(rt: &impl Files, path: &[u8], text: &mut [u8]) -> Result<usize, i32>
    ensures { IfOk result (λ length. IsPrefixLen length text.new) }
{
    let mut file = open_file(rt, path)?;
    read_open(&mut file, text)
}

// Writes a new file's bytes, down to the device. The file is closed at the end; what a failed close would tell is not told by std.
pub fn fill_file<F: Write + OpenFile + Drop>(mut file: F, bytes: &[u8]) -> Result<(), i32> {
    file.write_all(bytes).map_err(number_of)?;
    file.sync_all().map_err(number_of)
}

// A file made under a new name, and the number of its name.
#[derive(Drop)]
pub struct Made<F> {
    pub file: F,
    pub k: usize,
}

// Makes a file under a name that is not taken, or answers why not.
pub fn create_file<R: Files>(rt: &R, path: &[u8]) -> Result<R::File, i32> {
    let text = path_of(path)?;
    OpenOptions::new()
        .write(true)
        .create_new(true)
        .open(rt, text)
        .map_err(number_of)
}

// Gives a file another name, the place of what had that.
pub fn rename_file(rt: &impl Files, from: &[u8], to: &[u8]) -> Result<(), i32> {
    fs::rename(rt, path_of(from)?, path_of(to)?).map_err(number_of)
}

// Removes a file, as far as the system lets it.
pub fn remove_file(rt: &impl Files, path: &[u8]) {
    if let Ok(text) = path_of(path) {
        let _ = fs::remove_file(rt, text);
    }
}

// Makes a file under the first name of FILE.sheet.new, .new2 and so on that is not taken, or answers why not.
pub fn make_file<R: Files>(rt: &R, name: &[u8], model: bool) -> Result<Made<R::File>, i32>
    requires { length name.now ≤ name_most }
{
    let mut path = [0u8; PATH_ROOM];
    for k in 1..NAMES_TRIED {
        let length = put_path(&mut path, name, model, b".new", k);
        match create_file(rt, &path[..length]) {
            Ok(file) => return Ok(Made { file, k }),
            Err(EEXIST) => (),
            Err(error) => return Err(error),
        }
    }
    Err(EEXIST)
}

// Renames a file that was filled to FILE.sheet or FILE.blif. Where it was not filled or that fails, it is removed.
pub fn settle_file(
    rt: &impl Files,
    name: &[u8],
    model: bool,
    k: usize,
    filled: Result<(), i32>,
) -> Result<(), i32>
    requires { length name.now ≤ name_most }
{
    let mut new = [0u8; PATH_ROOM];
    let mut path = [0u8; PATH_ROOM];
    let from = put_path(&mut new, name, model, b".new", k);
    let to = put_path(&mut path, name, model, b"", 1);
    let done = match filled {
        Ok(()) => rename_file(rt, &new[..from], &path[..to]),
        Err(error) => Err(error),
    };
    if done.is_err() {
        remove_file(rt, &new[..from]);
    }
    done
}

// Writes a sheet beside its list as FILE.sheet, or a model as FILE.blif, with the list's permissions: to a new name first, then renamed.
pub fn write_beside(
    rt: &impl Files,
    name: &[u8],
    model: bool,
    bytes: &[u8],
    mode: u32,
) -> Result<(), i32>
    requires { length name.now ≤ name_most }
{
    let Made { file, k } = make_file(rt, name, model)?;
    // before there is anything in it to read; a file system that has no permissions keeps its own
    let _ = file.set_permissions(Permissions::from_mode(mode & 0o777));
    let filled = fill_file(file, bytes);
    settle_file(rt, name, model, k, filled)
}

// Whether no file has this name, not even a link that leads nowhere. A name that is too long for the folder is no file's.
pub fn is_free(rt: &impl Files, path: &[u8]) -> bool {
    let Ok(text) = path_of(path) else {
        return false;
    };
    match fs::symlink_metadata(rt, text) {
        Ok(_) => false,
        Err(error) => matches!(number_of(error), ENOENT | ENAMETOOLONG),
    }
}

// Whether something stands beside the list under this ending.
pub fn is_there(rt: &impl Files, name: &[u8], model: bool, ending: &[u8]) -> bool
    requires name_len_bound { length name.now ≤ name_most }
    requires ending_len_bound { length ending.now ≤ ending_most }
{
    let mut path = [0u8; PATH_ROOM];
    let length = put_path(&mut path, name, model, ending, 1);
    !is_free(rt, &path[..length])
}

// Gives what stands beside the list under one ending another. What stood there is replaced.
pub fn rename_beside(
    rt: &impl Files,
    name: &[u8],
    model: bool,
    from: &[u8],
    to: &[u8],
) -> Result<(), i32>
    requires name_len_bound { length name.now ≤ name_most }
    requires from_len_bound { length from.now ≤ ending_most }
    requires to_len_bound { length to.now ≤ ending_most }
{
    let mut old = [0u8; PATH_ROOM];
    let mut new = [0u8; PATH_ROOM];
    let m = put_path(&mut old, name, model, from, 1);
    let n = put_path(&mut new, name, model, to, 1);
    rename_file(rt, &old[..m], &new[..n])
}

// Removes what stands beside the list under this ending, as far as the system lets it.
pub fn remove_beside(rt: &impl Files, name: &[u8], model: bool, ending: &[u8])
    requires name_len_bound { length name.now ≤ name_most }
    requires ending_len_bound { length ending.now ≤ ending_most }
{
    let mut path = [0u8; PATH_ROOM];
    let length = put_path(&mut path, name, model, ending, 1);
    remove_file(rt, &path[..length]);
}

// Gives an older sheet or model the first name of FILE.sheet.old, .old2 and so on that is not taken, and answers the number of that name, or
// why it stands where it stood.
pub fn rename_older(rt: &impl Files, name: &[u8], model: bool, path: &[u8]) -> Result<usize, i32>
    requires { length name.now ≤ name_most }
{
    let mut older = [0u8; PATH_ROOM];
    for k in 1..NAMES_TRIED {
        let length = put_path(&mut older, name, model, b".old", k);
        if is_free(rt, &older[..length]) {
            rename_file(rt, path, &older[..length])?;
            return Ok(k);
        }
    }
    Err(EEXIST)
}

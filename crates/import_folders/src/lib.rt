// The folders that the lists of a bulk import lie in: a list that is given twice is told by them, and they are synced, so that the new
// names in them outlast a power cut. All functions here are inner.
#![tactic(auto)]

ghost use Rattle.std.specs.Prelude.{◌≡◌, ◌≤◌, ◌++◌, length};
ghost use Rattle.import_paths.specs.Room.{name_most};

use file_facts::{Facts, facts_of};
use import_paths::NAME_MOST;
use saying::{argument, open_file};
use std::env::Env;
use std::fs::{Files, OpenFile};

// The name of the folder, with the "/" at its end, and the last part of a name, after it.
pub fn split_name(name: &[u8]) -> (&[u8], &[u8])
    ensures { name.now ≡ result.0.now ++ result.1.now }
{
    match name.iter().rposition(|b| *b == b'/') {
        Some(slash) => name.split_at(slash + 1),
        None => (b"", name),
    }
}

// What the system knows of a folder; without a name it is the one that the program runs in.
pub fn folder_facts(rt: &impl Files, folder: &[u8]) -> Option<Facts>
    requires { length folder.now ≤ name_most }
{
    if folder.is_empty() {
        return facts_of(rt, b".");
    }
    facts_of(rt, folder)
}

// Whether two names are of one folder. The system is asked only where they differ.
pub fn is_one_folder(rt: &impl Files, a: &[u8], b: &[u8]) -> bool {
    if a == b {
        return true;
    }
    if a.len() > NAME_MOST || b.len() > NAME_MOST {
        return false;
    }
    file_facts::is_one(folder_facts(rt, a), folder_facts(rt, b))
}

// Whether two names, as a.pla and ./a.pla, are one: the same last part in one folder. A link of another name is another list.
pub fn is_one_name(rt: &impl Files, a: &[u8], b: &[u8]) -> bool {
    let (a_folder, a_last) = split_name(a);
    let (b_folder, b_last) = split_name(b);
    a_last == b_last && is_one_folder(rt, a_folder, b_folder)
}

// Whether an earlier list is the same name.
pub fn is_repeated(rt: &(impl Env + Files), i: usize, name: &[u8]) -> bool {
    let mut earlier = io::buffer();
    for j in import_names::first_list(rt)..i {
        if let Ok(length) = argument(rt, j, &mut earlier) {
            if is_one_name(rt, &earlier[..length], name) {
                return true;
            }
        }
    }
    false
}

// Opens a folder to read, or answers why not.
pub fn open_folder<R: Files>(rt: &R, folder: &[u8]) -> Result<R::File, i32> {
    if folder.is_empty() {
        return open_file(rt, b".");
    }
    open_file(rt, folder)
}

// Sends the names in a folder down to the device, as far as the system lets it.
pub fn sync_folder(rt: &impl Files, folder: &[u8]) {
    if let Ok(opened) = open_folder(rt, folder) {
        let _ = opened.sync_all();
    }
}

// Whether the argument after this one has the same folder, in the same words. After the last there is none.
pub fn is_folder_next(rt: &impl Env, i: usize, folder: &[u8]) -> bool {
    let mut name = io::buffer();
    match argument(rt, i.wrapping_add(1), &mut name) {
        Ok(length) => split_name(&name[..length]).0 == folder,
        Err(_) => false,
    }
}

// Syncs the folder of argument i where the next argument's is another: once for many lists of one folder.
pub fn sync_after(rt: &(impl Env + Files), i: usize) {
    let mut name = io::buffer();
    if let Ok(length) = argument(rt, i, &mut name) {
        let (folder, _) = split_name(&name[..length]);
        if !is_folder_next(rt, i, folder) {
            sync_folder(rt, folder);
        }
    }
}

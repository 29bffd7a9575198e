// What the system knows of a file by its name: whether there is one, which one, of what kind, and its permissions. The system is asked in
// `look` alone. All functions here are inner.
#![tactic(auto)]

ghost use Rattle.std.specs.Prelude.{◌≤◌, length};
ghost use Rattle.import_paths.specs.Room.{name_most};

use import_paths::PATH_ROOM;
use std::fs;
use std::fs::{Files, Metadata};
use std::os::unix::fs::MetadataExt;

// The bits of a mode that tell the kind of a file, and those of a file and of a folder.
pub const KIND_BITS: u32 = 0o170000;

pub const FILE_KIND: u32 = 0o100000;

pub const FOLDER_KIND: u32 = 0o040000;

// What is known of a file: the numbers by which the system tells files apart, its kind and permissions.
#[derive(Clone, Copy)]
pub struct Facts {
    pub device: u64,
    pub inode: u64,
    pub mode: u32,
}

// Of what the system says, what an import asks.
pub fn taken(said: Metadata) -> Facts {
    Facts {
        device: said.dev(),
        inode: said.ino(),
        mode: said.mode(),
    }
}

// What the system knows of the file that a path leads to, where it knows anything.
pub fn look(rt: &impl Files, path: &[u8]) -> Option<Facts> {
    let text = saying::path_of(path).ok()?;
    let said = fs::metadata(rt, text).ok()?;
    Some(taken(said))
}

// What the system knows of the file of this name.
pub fn facts_of(rt: &impl Files, name: &[u8]) -> Option<Facts>
    requires { length name.now ≤ name_most }
{
    let mut path = [0u8; PATH_ROOM];
    let length = import_paths::put_name(&mut path, name);
    look(rt, &path[..length])
}

// Whether there is a file at all, and it is no folder, pipe, device or socket.
pub fn is_file(facts: Option<Facts>) -> bool {
    match facts {
        Some(known) => known.mode & KIND_BITS == FILE_KIND,
        None => false,
    }
}

// Whether a reader could wait for ever: neither a file nor a folder is there, but a pipe, a device or a socket.
pub fn is_waited_for(facts: Option<Facts>) -> bool {
    match facts {
        Some(known) => !matches!(known.mode & KIND_BITS, FILE_KIND | FOLDER_KIND),
        None => false,
    }
}

// Whether two names lead to one file.
pub fn is_one(a: Option<Facts>, b: Option<Facts>) -> bool {
    match (a, b) {
        (Some(a), Some(b)) => a.device == b.device && a.inode == b.inode,
        _ => false,
    }
}

// The permissions of a file with its kind; none where nothing is known of it.
pub fn mode_of(facts: Option<Facts>) -> u32 {
    match facts {
        Some(known) => known.mode,
        None => 0,
    }
}

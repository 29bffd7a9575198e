// The first pass of a bulk import, before any sheet is written. Each list's older sheet is renamed to FILE.sheet.before, so that none looks
// current once there is a new one, and where models are asked for its older model to FILE.blif.before; and what an import that was cut short
// left is told and removed. All functions here are inner.
#![tactic(auto)]

ghost use Rattle.std.specs.Prelude.{◌≤◌, length};
ghost use Rattle.import_paths.specs.Room.{name_most};

use file_facts::{Facts, look};
use import_files::{NAMES_TRIED, is_free, is_there};
use import_paths::{NAME_MOST, PATH_ROOM};
use std::env::Env;
use std::fs::Files;

// Says what an import that was cut short left at this list's sheet or model. A list that is given twice has an older one waiting from its
// first time.
pub fn tell_cut_short(rt: &(impl Env + Files), i: usize, name: &[u8], model: bool)
    requires { length name.now ≤ name_most }
{
    let unfinished = is_there(rt, name, model, b".new");
    let waits = is_there(rt, name, model, b".before");
    if unfinished || waits {
        if !import_folders::is_repeated(rt, i, name) {
            let written = waits && !unfinished && is_there(rt, name, model, b"");
            import_says::say_cut_short(name, model, written);
        }
    }
}

// Removes what an import that was cut short did not finish, but not the list, should it be a link to that.
pub fn remove_unfinished(rt: &impl Files, name: &[u8], model: bool, list: Option<Facts>)
    requires { length name.now ≤ name_most }
{
    let mut path = [0u8; PATH_ROOM];
    for k in 1..NAMES_TRIED {
        let length = import_paths::put_path(&mut path, name, model, b".new", k);
        if is_free(rt, &path[..length]) {
            return;
        }
        if !file_facts::is_one(look(rt, &path[..length]), list) {
            import_files::remove_file(rt, &path[..length]);
        }
    }
}

// Starts the sheet or the model of one list. What stands in its place and is none is not touched, and nothing beside it is.
pub fn start_beside(
    rt: &(impl Env + Files),
    i: usize,
    name: &[u8],
    model: bool,
    list: Option<Facts>,
)
    requires { length name.now ≤ name_most }
{
    if !import_sheets::is_blocked(rt, name, model, list) {
        tell_cut_short(rt, i, name, model);
        remove_unfinished(rt, name, model, list);
        let _ = import_sheets::set_before(rt, name, model);
    }
}

// Starts one list.
pub fn start_list(rt: &(impl Env + Files), i: usize, name: &[u8], models: bool) {
    if name.len() > NAME_MOST {
        return;
    }
    let list = file_facts::facts_of(rt, name);
    start_beside(rt, i, name, false, list);
    if models {
        start_beside(rt, i, name, true, list);
    }
}

// Whether a name is that of a sheet or a model.
pub fn is_passed(name: &[u8]) -> bool {
    import_names::is_sheet_name(name) || import_names::is_model_name(name)
}

// Starts the list that argument i names, where it names one.
pub fn start_argument(rt: &(impl Env + Files), i: usize, models: bool) {
    let mut name = io::buffer();
    if let Ok(length) = saying::argument(rt, i, &mut name) {
        if !is_passed(&name[..length]) {
            start_list(rt, i, &name[..length], models);
        }
    }
}

// Starts every list that the program was called with.
pub fn start_all(rt: &(impl Env + Files), models: bool) {
    for i in import_names::first_list(rt)..saying::argument_count(rt) {
        start_argument(rt, i, models);
        import_folders::sync_after(rt, i);
    }
}

// Bulk import: each file that the program was called with, one line for each on standard output, its sheet beside it as FILE.sheet, where
// that is asked for its model as FILE.blif, and the counts at the end. What is said of a list and written for it is promised by
// `import_text` of the crate importing and `print_model` of the crate printing; what the system does no contract says. All functions here are
// inner: a program calls `import_all`.
#![tactic(auto)]

ghost use Rattle.std.specs.Prelude.{◌≤◌, length};
ghost use Rattle.import_paths.specs.Room.{name_most};

use block::{READ_BYTES, SHEET_ROOM};
use file_facts::Facts;
use import_counts::{Counts, Done, LEFT_NAMED};
use import_paths::NAME_MOST;
use import_says::say_name;
use put_import::LINE_ROOM;
use saying::errors::ENAMETOOLONG;
use saying::{STANDARD_ERROR, say};
use std::env::Env;
use std::fs::Files;

// Works out the list that a file held.
pub fn import_list(
    rt: &impl Files,
    name: &[u8],
    list: Option<Facts>,
    text: &[u8],
    models: bool,
) -> Done
    requires { length name.now ≤ name_most }
{
    let mut sheet = [0u8; SHEET_ROOM];
    let mut line = [0u8; LINE_ROOM];
    let r = importing::import_text(name, text, &mut sheet, &mut line);
    let said = &line[..r.length];
    if r.number != 0 {
        say(said);
        import_models::end_older(rt, name, list, models);
        return Done::Refused;
    }
    let mode = file_facts::mode_of(list);
    match import_sheets::put_beside(rt, name, false, &sheet[..r.count], mode) {
        Ok(became) => {
            say(said);
            import_counts::say_became(became);
            import_models::end_written(rt, name, list, text, became, models)
        }
        Err(error) => {
            import_says::say_unwritten(name, false, error);
            import_models::end_older(rt, name, list, models);
            Done::Unwritten
        }
    }
}

// Reads a list and works it out. It is left alone where its sheet's place is taken.
pub fn read_list(rt: &impl Files, name: &[u8], list: Option<Facts>, models: bool) -> Done
    requires { length name.now ≤ name_most }
{
    let mut text = [0u8; READ_BYTES];
    match import_files::read_file(rt, name, &mut text) {
        Ok(_) if import_says::say_block(rt, name, false, list) => {
            import_models::end_model(rt, name, list, models);
            Done::Unwritten
        }
        Ok(length) => import_list(rt, name, list, &text[..length], models),
        Err(error) => {
            import_says::say_unread(name, error);
            import_models::end_unread(rt, name, list, models);
            Done::Unread
        }
    }
}

// Imports one file.
pub fn import_file(rt: &impl Files, name: &[u8], models: bool) -> Done {
    // the names beside it must fit a path too
    if name.len() > NAME_MOST {
        import_says::say_unread(name, ENAMETOOLONG);
        say(b"\n");
        return Done::Unread;
    }
    let list = file_facts::facts_of(rt, name);
    if file_facts::is_waited_for(list) {
        import_says::say_waited_for(name);
        import_models::end_unread(rt, name, list, models);
        return Done::Unread;
    }
    read_list(rt, name, list, models)
}

// Says why a name is passed over, where it is: it is a sheet's or a model's, or the list was there already.
pub fn say_passed(rt: &(impl Env + Files), i: usize, name: &[u8]) -> bool {
    if import_names::is_sheet_name(name) {
        say_name(name);
        say(b" has a sheet's name: passed over\n");
        return true;
    }
    if import_names::is_model_name(name) {
        say_name(name);
        say(b" has a model's name: passed over\n");
        return true;
    }
    if import_folders::is_repeated(rt, i, name) {
        say_name(name);
        say(b" is given twice: its first line counts\n");
        return true;
    }
    false
}

// Imports the file that argument i names.
pub fn import_argument(rt: &(impl Env + Files), i: usize, models: bool) -> Done {
    let mut name = io::buffer();
    match saying::argument(rt, i, &mut name) {
        Ok(length) if say_passed(rt, i, &name[..length]) => Done::Passed,
        Ok(length) => import_file(rt, &name[..length], models),
        Err(error) => {
            import_says::say_unread(&name, error);
            say(b"\n");
            Done::Unread
        }
    }
}

// Names the lists that have no current sheet, and those that have no current model, and says the counts; where they are not taken, that is
// said on standard error.
pub fn end_import(
    rt: &impl Env,
    counts: &Counts,
    left: &[usize; LEFT_NAMED],
    lacking: &[usize; LEFT_NAMED],
    models: bool,
) {
    import_counts::say_left(rt, false, left, import_counts::left_of(counts));
    import_counts::say_left(rt, true, lacking, counts.unmodelled);
    if models {
        import_counts::say_models(counts);
    }
    if !import_counts::say_counts(counts) {
        io::write_all(
            STANDARD_ERROR,
            b"irwystl: standard output did not take all that was said\n",
        );
    }
}

// Imports every file that the program was called with.
pub fn import_all(rt: &HostRuntime) {
    let models = import_names::asks_models(rt);
    import_start::start_all(rt, models);
    let watched = import_counts::is_watched(&rt.stderr(), &rt.stdout());
    let first = import_names::first_list(rt);
    let count = saying::argument_count(rt);
    let mut counts = Counts::default();
    let mut left = [0usize; LEFT_NAMED];
    let mut lacking = [0usize; LEFT_NAMED];
    for i in first..count {
        let done = import_argument(rt, i, models);
        import_counts::keep_done(i, done, &mut counts, &mut left, &mut lacking);
        import_folders::sync_after(rt, i);
        import_counts::show_progress(watched, i + 1 - first, count - first);
    }
    end_import(rt, &counts, &left, &lacking, models);
}

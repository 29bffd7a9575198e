// The sheet and the model beside a list: what stands under the name of one is looked at before it is touched, an older one waits as
// FILE.sheet.before or FILE.blif.before while the import is under way, and the new one takes its place, or it is set aside. All functions
// here are inner.
#![tactic(auto)]

ghost use Rattle.std.specs.Prelude.{◌≤◌, length};
ghost use Rattle.import_paths.specs.Room.{name_most, ending_most};

use block::MODEL_ROOM;
use file_facts::{Facts, look};
use import_files::{is_free, is_there, read_file, rename_beside};
use import_paths::{PATH_ROOM, put_path};
use std::fs::Files;

// What stands under a name: nothing, a sheet or, where that is due, a model, the list itself, something else, or what can't be read, with
// why.
#[derive(Clone, Copy)]
pub enum Standing {
    Nothing,
    AnOlder,
    Itself,
    Another,
    Unreadable(i32),
}

// Whether a text begins with a number and the end of its line.
pub fn is_number_line(text: &[u8]) -> bool {
    match text.iter().position(|b| !b.is_ascii_digit()) {
        Some(end) => 0 < end && text[end] == b'\n',
        None => false,
    }
}

// Whether a file that begins with these bytes has a sheet's first line.
pub fn is_sheet_text(text: &[u8]) -> bool {
    match text.strip_prefix(b"sheet ") {
        Some(rest) => is_number_line(rest),
        None => false,
    }
}

// Whether a file that begins with these bytes has a model's first line.
pub fn is_model_text(text: &[u8]) -> bool {
    text.starts_with(b".model block\n")
}

// Whether a file that begins with these bytes is a model, or a sheet where that is due.
pub fn is_due_text(model: bool, text: &[u8]) -> bool {
    if model {
        return is_model_text(text);
    }
    is_sheet_text(text)
}

// Whether a file is a sheet or a model, by its first line.
pub fn read_standing(rt: &impl Files, model: bool, path: &[u8]) -> Standing {
    let mut text = [0u8; 32];
    match read_file(rt, path, &mut text) {
        Ok(length) if is_due_text(model, &text[..length]) => Standing::AnOlder,
        Ok(_) => Standing::Another,
        Err(error) => Standing::Unreadable(error),
    }
}

// What stands beside a list under this ending. A pipe in its place is not opened, since it would be waited for.
pub fn standing_at(
    rt: &impl Files,
    name: &[u8],
    model: bool,
    list: Option<Facts>,
    ending: &[u8],
) -> Standing
    requires name_len_bound { length name.now ≤ name_most }
    requires ending_len_bound { length ending.now ≤ ending_most }
{
    let mut path = [0u8; PATH_ROOM];
    let length = put_path(&mut path, name, model, ending, 1);
    if is_free(rt, &path[..length]) {
        return Standing::Nothing;
    }
    let facts = look(rt, &path[..length]);
    if file_facts::is_one(facts, list) {
        return Standing::Itself;
    }
    if !file_facts::is_file(facts) {
        return Standing::Another;
    }
    read_standing(rt, model, &path[..length])
}

// Whether what stands there is neither overwritten nor renamed.
pub fn is_kept(what: Standing) -> bool {
    !matches!(what, Standing::Nothing | Standing::AnOlder)
}

// Whether a list's sheet or model can't be touched: what stands under its name, or under the one where an older one waits, is none.
pub fn is_blocked(rt: &impl Files, name: &[u8], model: bool, list: Option<Facts>) -> bool
    requires { length name.now ≤ name_most }
{
    is_kept(standing_at(rt, name, model, list, b""))
        || is_kept(standing_at(rt, name, model, list, b".before"))
}

// Whether an older sheet or model has its name.
pub fn is_older(rt: &impl Files, name: &[u8], model: bool, list: Option<Facts>) -> bool
    requires { length name.now ≤ name_most }
{
    matches!(standing_at(rt, name, model, list, b""), Standing::AnOlder)
}

// Has an older FILE.sheet wait as FILE.sheet.before. A still older one that waits there is replaced.
pub fn set_before(rt: &impl Files, name: &[u8], model: bool) -> Result<(), i32>
    requires { length name.now ≤ name_most }
{
    if is_there(rt, name, model, b"") {
        rename_beside(rt, name, model, b"", b".before")?;
    }
    Ok(())
}

// Gives the older sheet or model of a list of which nothing is known its name back.
pub fn restore_before(rt: &impl Files, name: &[u8], model: bool, list: Option<Facts>)
    requires { length name.now ≤ name_most }
{
    if !is_blocked(rt, name, model, list) && !is_there(rt, name, model, b"") {
        let _ = rename_beside(rt, name, model, b".before", b"");
    }
}

// Sets aside the older sheet or model that stands under this ending, where there is one, and answers the number of its name now, or why it
// stands where it stood.
pub fn set_aside_from(
    rt: &impl Files,
    name: &[u8],
    model: bool,
    ending: &[u8],
) -> Result<Option<usize>, i32>
    requires name_len_bound { length name.now ≤ name_most }
    requires ending_len_bound { length ending.now ≤ ending_most }
{
    let mut path = [0u8; PATH_ROOM];
    let length = put_path(&mut path, name, model, ending, 1);
    if is_free(rt, &path[..length]) {
        return Ok(None);
    }
    let k = import_files::rename_older(rt, name, model, &path[..length])?;
    Ok(Some(k))
}

// Sets an older sheet or model of the list aside, so that it does not look current. It still has its name where the system did not let it
// wait under the other.
pub fn set_aside(rt: &impl Files, name: &[u8], model: bool) -> Result<Option<usize>, i32>
    requires { length name.now ≤ name_most }
{
    if is_there(rt, name, model, b"") {
        return set_aside_from(rt, name, model, b"");
    }
    set_aside_from(rt, name, model, b".before")
}

// What a list's sheet or model became beside the one before it: there was none, one of other bytes, or one of the same.
#[derive(Clone, Copy)]
pub enum Became {
    New,
    Changed,
    Unchanged,
}

// Whether what stands under this ending has these bytes. A sheet is shorter than the longest model.
pub fn is_unchanged(rt: &impl Files, name: &[u8], model: bool, ending: &[u8], bytes: &[u8]) -> bool
    requires name_len_bound { length name.now ≤ name_most }
    requires ending_len_bound { length ending.now ≤ ending_most }
{
    let mut path = [0u8; PATH_ROOM];
    let length = put_path(&mut path, name, model, ending, 1);
    let mut older = [0u8; MODEL_ROOM + 1];
    match read_file(rt, &path[..length], &mut older) {
        Ok(count) => &older[..count] == bytes,
        Err(_) => false,
    }
}

// Writes the sheet or model, and removes the one that waited once it is there.
pub fn replace_older(
    rt: &impl Files,
    name: &[u8],
    model: bool,
    bytes: &[u8],
    mode: u32,
) -> Result<Became, i32>
    requires { length name.now ≤ name_most }
{
    import_files::write_beside(rt, name, model, bytes, mode)?;
    if !is_there(rt, name, model, b".before") {
        return Ok(Became::New);
    }
    import_files::remove_beside(rt, name, model, b".before");
    Ok(Became::Changed)
}

// Puts the sheet or model beside its list, and answers what it became, or why it could not be written. Where the one that waited has the same
// bytes, it gets its name back and nothing is written; one that the system does not let be renamed keeps its name, and is as due where it has
// these bytes.
pub fn put_beside(
    rt: &impl Files,
    name: &[u8],
    model: bool,
    bytes: &[u8],
    mode: u32,
) -> Result<Became, i32>
    requires { length name.now ≤ name_most }
{
    if let Err(error) = set_before(rt, name, model) {
        if is_unchanged(rt, name, model, b"", bytes) {
            return Ok(Became::Unchanged);
        }
        return Err(error);
    }
    if is_unchanged(rt, name, model, b".before", bytes) {
        rename_beside(rt, name, model, b".before", b"")?;
        return Ok(Became::Unchanged);
    }
    replace_older(rt, name, model, bytes, mode)
}

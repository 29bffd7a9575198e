// The model of a list in a bulk import: it is written beside its list as FILE.blif once the sheet is there, by the rules of the sheet, or
// the list's line says why not; and a model that is older than its list does not look current unnoticed, whether models are asked for or
// not. All functions here are inner.
#![tactic(auto)]

ghost use Rattle.std.specs.Prelude.{◌≤◌, length};
ghost use Rattle.import_paths.specs.Room.{name_most};

use block::MODEL_ROOM;
use file_facts::Facts;
use import_counts::Done;
use import_sheets::Became;
use saying::say;
use std::fs::Files;

// Sets an older sheet or model aside, which must not look current, and says what became of it.
pub fn put_aside(rt: &impl Files, name: &[u8], model: bool)
    requires { length name.now ≤ name_most }
{
    import_says::say_aside(name, model, import_sheets::set_aside(rt, name, model));
}

// Ends the line of a list that has no current sheet, and so no current model, with what became of an older model: it is set aside where
// models are asked for, and else is left and told.
pub fn end_model(rt: &impl Files, name: &[u8], list: Option<Facts>, models: bool)
    requires { length name.now ≤ name_most }
{
    if !models {
        import_says::say_older(rt, name, true, list);
    } else if !import_sheets::is_blocked(rt, name, true, list) {
        put_aside(rt, name, true);
    }
    say(b"\n");
}

// Ends the line of a list whose sheet was refused or can't be written with what became of an older sheet and of an older model.
pub fn end_older(rt: &impl Files, name: &[u8], list: Option<Facts>, models: bool)
    requires { length name.now ≤ name_most }
{
    put_aside(rt, name, false);
    end_model(rt, name, list, models);
}

// Ends the line of a list that can't be read: nothing is known of it, so its sheet and its model get their names back, and may be older
// than the list.
pub fn end_unread(rt: &impl Files, name: &[u8], list: Option<Facts>, models: bool)
    requires { length name.now ≤ name_most }
{
    import_sheets::restore_before(rt, name, false, list);
    import_says::say_older(rt, name, false, list);
    if models {
        import_sheets::restore_before(rt, name, true, list);
    }
    import_says::say_older(rt, name, true, list);
    say(b"\n");
}

// Writes the model of a list, whose sheet became what is given.
pub fn write_model(
    rt: &impl Files,
    name: &[u8],
    list: Option<Facts>,
    text: &[u8],
    sheet: Became,
) -> Done
    requires { length name.now ≤ name_most }
{
    let mut model = [0u8; MODEL_ROOM];
    let count = printing::print_model(text, &mut model);
    let mode = file_facts::mode_of(list);
    match import_sheets::put_beside(rt, name, true, &model[..count], mode) {
        Ok(became) => {
            say(b", model");
            import_counts::say_became(became);
            Done::Written {
                sheet,
                model: Some(became),
            }
        }
        Err(error) => {
            import_says::say_unwritten(name, true, error);
            put_aside(rt, name, true);
            Done::Unmodelled
        }
    }
}

// Writes the model that is asked for, unless its place is taken.
pub fn import_model(
    rt: &impl Files,
    name: &[u8],
    list: Option<Facts>,
    text: &[u8],
    sheet: Became,
) -> Done
    requires { length name.now ≤ name_most }
{
    if import_says::say_block(rt, name, true, list) {
        return Done::Unmodelled;
    }
    write_model(rt, name, list, text, sheet)
}

// Ends the line of a list whose sheet is there, and became what is given. A model that was not asked for is older than a new sheet.
pub fn end_written(
    rt: &impl Files,
    name: &[u8],
    list: Option<Facts>,
    text: &[u8],
    sheet: Became,
    models: bool,
) -> Done
    requires { length name.now ≤ name_most }
{
    if models {
        let done = import_model(rt, name, list, text, sheet);
        say(b"\n");
        return done;
    }
    if !matches!(sheet, Became::Unchanged) {
        import_says::say_older(rt, name, true, list);
    }
    say(b"\n");
    Done::Written { sheet, model: None }
}

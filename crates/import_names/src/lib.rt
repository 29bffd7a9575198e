// The names that a bulk import gives, told from those of lists, and where the names of lists begin. All functions here are inner.
#![tactic(auto)]

ghost use Rattle.std.specs.Prelude.{◌≡◌, ◌≤◌, length, take};

use std::env::Env;

// Whether a name ends in one ending and then another.
pub fn ends_in_both(name: &[u8], first: &[u8], second: &[u8]) -> bool {
    match name.strip_suffix(second) {
        Some(rest) => rest.ends_with(first),
        None => false,
    }
}

// A name without the digits at its end.
pub fn before_digits(name: &[u8]) -> &[u8]
    ensures is_prefix { result.now ≡ take (length result.now) name.now }
    ensures has_bound { length result.now ≤ length name.now }
{
    match name.iter().rposition(|b| !b.is_ascii_digit()) {
        Some(last) => &name[..last + 1],
        None => b"",
    }
}

// Whether a name is one that an import gives a file of this ending: FILE.sheet, or that of a sheet that was set aside or not finished.
pub fn is_name_of(name: &[u8], ending: &[u8]) -> bool {
    let part = before_digits(name);
    name.ends_with(ending)
        || ends_in_both(name, ending, b".before")
        || ends_in_both(part, ending, b".old")
        || ends_in_both(part, ending, b".new")
}

// Whether a name is that of a sheet. Such a file is no list, and a list of that name could be overwritten by another's sheet.
pub fn is_sheet_name(name: &[u8]) -> bool {
    is_name_of(name, b".sheet")
}

// Whether a name is that of a model, which is no list's for the same reason.
pub fn is_model_name(name: &[u8]) -> bool {
    is_name_of(name, b".blif")
}

// Whether the program was called for models too: its first argument is --blif, and no list.
pub fn asks_models(rt: &impl Env) -> bool {
    saying::is_given(rt, 1, b"--blif")
}

// The first argument that names a list.
pub fn first_list(rt: &impl Env) -> usize
    ensures { 1 ≤ result }
{
    if asks_models(rt) { 2 } else { 1 }
}

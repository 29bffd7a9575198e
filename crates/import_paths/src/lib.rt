// The names beside a list's file: FILE.sheet and FILE.blif, the new name that a sheet or model is first written to, and the names that an
// older one waits and is set aside under. A wrong name would overwrite another file, so every byte is promised. All functions here are
// inner.
#![tactic(auto)]

ghost use Rattle.std.specs.Prelude.{◌≡◌, ◌+◌, ◌≤◌, length, take};
ghost use Rattle.io.specs.Counts.{IsPrefixLen};
ghost use Rattle.import_paths.specs.Ended.{Ended};
ghost use Rattle.put_bytes.specs.Puts.{Put};
ghost use Rattle.import_paths.specs.Path.{kind_of, counted, path_of};
ghost use Rattle.import_paths.specs.Room.{name_most, ending_most};

// The bytes of a path, with the 0 after it; and the longest name of a list, with whose endings it is still a path.
pub const PATH_ROOM: usize = 4096;

pub const NAME_MOST: usize = 4060;

// Puts what tells a model's name, or a sheet's, from its list's.
pub fn put_kind(path: &mut [u8], at: usize, model: bool) -> usize
    requires { at + length (kind_of model) ≤ length path.old }
    ensures { Put path.old at (kind_of model) path.new result }
{
    if model {
        return put_bytes::put_bytes(path, at, b".blif");
    }
    put_bytes::put_bytes(path, at, b".sheet")
}

// Puts the number of a name that was tried before: nothing for the first.
pub fn put_count(path: &mut [u8], at: usize, k: usize) -> usize
    requires { at + length (counted k) ≤ length path.old }
    ensures { Put path.old at (counted k) path.new result }
{
    if k < 2 {
        return at;
    }
    put_bytes::put_decimal(path, at, k)
}

// Puts a list's own name, and answers its length. A 0 stands after it, for calls that read up to one.
pub fn put_name(path: &mut [u8; PATH_ROOM], name: &[u8]) -> usize
    requires { length name.now ≤ name_most }
    ensures path_after { take result path.new ≡ name.now }
    ensures prefix_len { IsPrefixLen result path.new }
    ensures ended { Ended path.new }
{
    let e = put_bytes::put_bytes(path, 0, name);
    path[e] = 0;
    path[PATH_ROOM - 1] = 0;
    e
}

// Puts the name of a list's sheet or model with the given ending, as `put_name` does. There is room whatever the number.
pub fn put_path(
    path: &mut [u8; PATH_ROOM],
    name: &[u8],
    model: bool,
    ending: &[u8],
    k: usize,
) -> usize
    requires name_len_bound { length name.now ≤ name_most }
    requires ending_len_bound { length ending.now ≤ ending_most }
    ensures path_after { take result path.new ≡ path_of name.now model ending.now k }
    ensures prefix_len { IsPrefixLen result path.new }
    ensures ended { Ended path.new }
{
    let c = put_bytes::put_bytes(path, 0, name);
    let d = put_kind(path, c, model);
    let e = put_bytes::put_bytes(path, d, ending);
    let f = put_count(path, e, k);
    path[f] = 0;
    path[PATH_ROOM - 1] = 0;
    f
}

// The line of one list in a bulk import: its file's name, then "sheet ROWS BEFORE AFTER" or "refused N A B". All functions here are
// inner: the operation that makes the line is `import_text` of the crate importing.
#![tactic(auto)]

ghost use Rattle.std.specs.Prelude.{◌≡◌, map, ◌+◌, ◌≤◌, length};
ghost use Rattle.put_bytes.specs.Puts.{Put};
ghost use Rattle.put_import.specs.Line.{shown_byte, line_words, import_line};

use block::SheetWork;

// Room for the line of the longest name that is shown, 4,096 bytes.
pub const LINE_ROOM: usize = 4176;

// A byte of a name as it is shown. A name may hold a line's end, which would break the line it stands in.
pub fn shown_byte(b: u8) -> u8
    ensures { result ≡ shown_byte b }
{
    if b.is_ascii_control() { b'?' } else { b }
}

// Puts a name at the front, as it is shown.
pub fn put_name(out: &mut [u8], name: &[u8]) -> usize
    requires { length (map shown_byte name.now) ≤ length out.old }
    ensures { Put out.old 0 (map shown_byte name.now) out.new result }
{
    for (i, b) in name.iter().enumerate() {
        out[i] = shown_byte(*b);
    }
    name.len()
}

// Puts what is said of a list after its name.
#[tactic(auto, unfolding(crate::specs::Line::line_words))]
pub fn put_words(out: &mut [u8], at: usize, r: SheetWork) -> usize
    requires { at + length (line_words r) ≤ length out.old }
    ensures { Put out.old at (line_words r) out.new result }
{
    if r.number != 0 {
        return put_refusal::put_three(out, at, b"refused ", r.number as usize, r.a, r.b);
    }
    put_refusal::put_three(
        out,
        at,
        b"sheet ",
        r.rows,
        r.before as usize,
        r.after as usize,
    )
}

// Puts the line, without its end.
#[tactic(auto, unfolding(crate::specs::Line::import_line))]
pub fn put_line(out: &mut [u8], name: &[u8], r: SheetWork) -> usize
    requires { length (import_line name.now r) ≤ length out.old }
    ensures { Put out.old 0 (import_line name.now r) out.new result }
{
    let c = put_name(out, name);
    let d = put_bytes::put_byte(out, c, 32);
    put_words(out, d, r)
}

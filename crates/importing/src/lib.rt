// One list of a bulk import. One operation: `import_text` makes the sheet of a list that a file held, as the program prints it, and the
// line that says what came of it. This crate holds nothing else.
#![tactic(auto)]

ghost use Rattle.importing.specs.Import.{ImportPromise};

use block::SHEET_ROOM;

// The answer: its number and places, the bytes of the sheet (0 with a refusal), and the bytes of the line.
#[repr(C)]
#[derive(Drop)]
pub struct Imported {
    pub number: u32,
    pub a: usize,
    pub b: usize,
    pub count: usize,
    pub length: usize,
}

// Writes the sheet of a list to the front of one lent room, or leaves it as it was where the list is refused, and the line, without its
// end, to the front of the other. Of a longer name the line has the first 4,096 bytes.
pub fn import_text(
    name: &[u8],
    text: &[u8],
    sheet: &mut [u8; SHEET_ROOM],
    line: &mut [u8; 4176],
) -> Imported
    ensures { ImportPromise name.now text.now sheet.old line.old
        result sheet.new line.new }
{
    let r = text_work::work_text(text, sheet);
    let number = r.number;
    let a = r.a;
    let b = r.b;
    let count = r.count;
    let length = put_import::put_line(line, read_bytes::first_bytes(name, 4096), r);
    Imported {
        number,
        a,
        b,
        count,
        length,
    }
}

// The work of reading row text with records, which is an operation of the crate records: arrays are lent as flat slices to the operation of
// the same name, and the rows that it stores there are then to be copied in (crate record_copies). All functions here are inner.
#![tactic(auto)]

ghost use Rattle.std.specs.Prelude.{◌≡◌, ◌≤◌};
ghost use Rattle.block.specs.Text.{numbers};
ghost use Rattle.promises.specs.Texts.{ReadPromise};
ghost use Rattle.record_copies.specs.Flat.{held_rows, Sized};
ghost use Rattle.record_copies.specs.Yielded.{lent_arrays};

use block::{Headings, ReadAnswer, Refusal};
use record_copies::FlatRows;

// What is read: the rows, their number, and the answer.
#[derive(Drop)]
pub struct ReadRows {
    pub flat: FlatRows,
    pub count: usize,
    pub answer: Result<Headings, Refusal>,
}

// The number of rows that an answer says: none with a refusal.
pub fn rows_read(answer: Result<Headings, Refusal>) -> usize
    ensures { result ≡ (numbers answer).count }
{
    match answer {
        Ok(h) => h.count,
        Err(_) => 0,
    }
}

// The text is read into the first m places of the arrays.
pub fn read_into(text: &[u8], flat: FlatRows, m: usize) -> ReadRows
    requires { Sized flat × (m ≤ held_rows) }
    ensures { ReadPromise text.now (lent_arrays m result.flat result.count) (numbers result.answer) }
{
    let FlatRows {
        mut masks,
        mut values,
        mut words,
    } = flat;
    let answer = reading::read_text(text, &mut masks[..m], &mut values[..m], &mut words[..m]);
    ReadRows {
        flat: FlatRows {
            masks,
            values,
            words,
        },
        count: rows_read(answer),
        answer,
    }
}

pub fn read_of(text: &[u8], room: usize) -> ReadRows
    ensures { ReadPromise text.now (lent_arrays room result.flat result.count) (numbers result.answer) }
{
    read_into(text, record_copies::blank(), record_copies::fits(room))
}

// What is read: the rows, their number, and the answer in numbers.
#[derive(Drop)]
pub struct ReadNumbers {
    pub flat: FlatRows,
    pub count: usize,
    pub answer: ReadAnswer,
}

pub fn read_numbers_of(text: &[u8], room: usize) -> ReadNumbers
    ensures { ReadPromise text.now (lent_arrays room result.flat result.count) result.answer }
{
    let read = read_of(text, room);
    ReadNumbers {
        flat: read.flat,
        count: read.count,
        answer: read_kinds::in_numbers(read.answer),
    }
}

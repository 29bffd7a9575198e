// The text reader by places, and by lines. The reader looks at bytes by their place in the text; the meaning (block's `Text`) cuts the
// text at LF and says what is due on each line. This crate has no functions: it holds the reader's inner types and numbers, in
// specs/ByPlace.antt what each of its functions gives, and the laws by which that is what the meaning says of the lines.
#![tactic(auto)]

// The most digits of a heading's number.
pub const HEAD_DIGITS: usize = 3;

// The bytes of a type line.
pub const TYPE_BYTES: usize = 9;

// The line, from 1, with which the body begins where no type line stands: three headings stand before it.
pub const BODY_LINE: usize = 4;

// What the bytes after ".o k" say of the type: the type, and 1 where its line stands there, or 0.
#[derive(Clone, Copy)]
pub struct TypeLine {
    pub block_type: usize,
    pub type_line: usize,
}

// The meaning of 01: the types that callers and answers share, and in specs/ every definition that a contract cites, one file for
// each section of 01. This crate has no functions but the conversions of a refusal into each answer. What is proved about the definitions
// stands in the crates above it.
#![tactic(auto)]

ghost use Rattle.std.specs.Prelude.{◌≡◌};

// ---- the limits of specs/Limits.antt, for code: arrays have these lengths, and a proof holds each beside the limit that a contract cites

pub const LIST_INPUTS: usize = 16;

pub const TABLE_INPUTS: usize = 12;

pub const OUTPUTS: usize = 15;

pub const GIVEN_ROWS: usize = 128;

pub const SMALLER_ROWS: usize = 512;

// 2^16 and 2^12
pub const LIST_POINTS: usize = 65536;

pub const TABLE_POINTS: usize = 4096;

pub const TEXT_ROOM: usize = 4255;

pub const SHEET_ROOM: usize = 17518;

pub const MODEL_ROOM: usize = 156420;

// the bytes that the program reads
pub const READ_BYTES: usize = 8192;

// ---- the types of a block, those of specs/Words.antt: what a point under no row means. They are 01's numbers and no enum: callers give any
// number, and one that is neither is refused with 3 (`sizes`, crates/shared_checks).

// it has no output
pub const FR: usize = 1;

// it has word 0
pub const FD: usize = 2;

// ---- rows and answers. An answer has 01's number, 0 where all is well, and its places beside what more it gives: C reads these structs, and the
// theorems of crates/exactly and crates/once speak of `number`, `a` and `b`.

// A row: the mask of its fixed inputs, their values, and its output word.
#[repr(C)]
#[derive(Clone, Copy)]
pub struct Row {
    pub mask: u32,
    pub values: u32,
    pub word: u32,
}

// An answer's number and its two places, 0 where not named.
#[repr(C)]
#[derive(Clone, Copy)]
pub struct Answer {
    pub number: u32,
    pub a: usize,
    pub b: usize,
}

// The answer to a single shift value, and whether a table is symmetric, 1 or 0.
#[repr(C)]
#[derive(Clone, Copy)]
pub struct ValueAnswer {
    pub number: u32,
    pub a: usize,
    pub b: usize,
    pub value: u64,
}

// The measures of a block and of its smaller block, where the work hands them on.
#[derive(Clone, Copy)]
pub struct Measures {
    pub before: u64,
    pub after: u64,
}

// The answer of the table method and of a symmetric block: the measure of the block and of the smaller block.
#[repr(C)]
#[derive(Clone, Copy)]
pub struct TableMethodAnswer {
    pub number: u32,
    pub a: usize,
    pub b: usize,
    pub before: u64,
    pub after: u64,
}

// The answer of the row method: the measures, and the number of smaller rows.
#[repr(C)]
#[derive(Clone, Copy)]
pub struct RowMethodAnswer {
    pub number: u32,
    pub a: usize,
    pub b: usize,
    pub before: u64,
    pub after: u64,
    pub count: usize,
}

// The answer of an operation that writes text: the number of bytes.
#[repr(C)]
#[derive(Clone, Copy)]
pub struct TextAnswer {
    pub number: u32,
    pub a: usize,
    pub b: usize,
    pub count: usize,
}

// The answer of joining: the number of rows that are left. It has the shape of TextAnswer, and so has the next; C names each.
#[repr(C)]
#[derive(Clone, Copy)]
pub struct JoinAnswer {
    pub number: u32,
    pub a: usize,
    pub b: usize,
    pub count: usize,
}

// The answer of disjoining: the number of rows that come out.
#[repr(C)]
#[derive(Clone, Copy)]
pub struct DisjoinAnswer {
    pub number: u32,
    pub a: usize,
    pub b: usize,
    pub count: usize,
}

// A refusal as the answer of an operation that gives more than a number and two places: all else is 0. The conversions are written out one by
// one, since no macro of a repository may write an impl.
impl From<Answer> for ValueAnswer {
    ghost from_gives = { λ v r. r ≡ record { number = v.number; a = v.a; b = v.b; value = 0 } };

    fn from(v: Answer) -> ValueAnswer {
        ValueAnswer {
            number: v.number,
            a: v.a,
            b: v.b,
            value: 0,
        }
    }
}

impl From<Answer> for TableMethodAnswer {
    ghost from_gives = { λ v r. r ≡ record { number = v.number; a = v.a; b = v.b; before = 0; after = 0 } };

    fn from(v: Answer) -> TableMethodAnswer {
        TableMethodAnswer {
            number: v.number,
            a: v.a,
            b: v.b,
            before: 0,
            after: 0,
        }
    }
}

impl From<Answer> for RowMethodAnswer {
    ghost from_gives = { λ v r. r ≡ record { number = v.number; a = v.a; b = v.b; before = 0; after = 0; count = 0 } };

    fn from(v: Answer) -> RowMethodAnswer {
        RowMethodAnswer {
            number: v.number,
            a: v.a,
            b: v.b,
            before: 0,
            after: 0,
            count: 0,
        }
    }
}

impl From<Answer> for TextAnswer {
    ghost from_gives = { λ v r. r ≡ record { number = v.number; a = v.a; b = v.b; count = 0 } };

    fn from(v: Answer) -> TextAnswer {
        TextAnswer {
            number: v.number,
            a: v.a,
            b: v.b,
            count: 0,
        }
    }
}

impl From<Answer> for JoinAnswer {
    ghost from_gives = { λ v r. r ≡ record { number = v.number; a = v.a; b = v.b; count = 0 } };

    fn from(v: Answer) -> JoinAnswer {
        JoinAnswer {
            number: v.number,
            a: v.a,
            b: v.b,
            count: 0,
        }
    }
}

impl From<Answer> for DisjoinAnswer {
    ghost from_gives = { λ v r. r ≡ record { number = v.number; a = v.a; b = v.b; count = 0 } };

    fn from(v: Answer) -> DisjoinAnswer {
        DisjoinAnswer {
            number: v.number,
            a: v.a,
            b: v.b,
            count: 0,
        }
    }
}

// What the work of a sheet comes to: beside the number of bytes the measures and the number of smaller rows, for the line of an import.
#[repr(C)]
#[derive(Clone, Copy)]
pub struct SheetWork {
    pub number: u32,
    pub a: usize,
    pub b: usize,
    pub before: u64,
    pub after: u64,
    pub rows: usize,
    pub count: usize,
}

// The answer of the text reader in numbers: n, k, the type, whether its line stands in the text (1, or 0), and the number of rows.
#[repr(C)]
#[derive(Clone, Copy)]
pub struct ReadAnswer {
    pub number: u32,
    pub a: usize,
    pub b: usize,
    pub n: usize,
    pub k: usize,
    pub block_type: usize,
    pub type_line: usize,
    pub count: usize,
}

// A pattern of a model's output: the mask of its fixed z, and their values.
#[repr(C)]
#[derive(Clone, Copy)]
pub struct Pattern {
    pub mask: u32,
    pub values: u32,
}

// The answer of the reader of models: n, k, and the number of patterns of all outputs.
#[repr(C)]
#[derive(Clone, Copy)]
pub struct ModelAnswer {
    pub number: u32,
    pub a: usize,
    pub b: usize,
    pub n: usize,
    pub k: usize,
    pub patterns: usize,
}

// Why the text reader refuses: the ranges of n, k and rows, the lent room, or a line's form.
#[derive(Clone, Copy)]
pub enum Kind {
    Inputs,
    Outputs,
    Count,
    Room,
    Form,
}

// A refusal of the text reader: its kind and its two places.
#[derive(Clone, Copy)]
pub struct Refusal {
    pub kind: Kind,
    pub a: usize,
    pub b: usize,
}

// What an accepted text says: n, k, the type, whether its line stands there (1, or 0), and the number of rows.
#[derive(Clone, Copy)]
pub struct Headings {
    pub n: usize,
    pub k: usize,
    pub block_type: usize,
    pub type_line: usize,
    pub count: usize,
}

// Why a number t was not taken (02, Ticket 7): t is 0; t has more one-bits than the weight limit; t was taken, at this step, from 1; or t is
// the XOR of the numbers taken at the steps of this set, each of which stands before t: bit j - 1 stands for step j.
#[derive(Clone, Copy)]
pub enum Reason {
    Zero,
    Over,
    Taken(usize),
    Xor(u32),
}

// The answer to why a number was not taken, in numbers: the reason is 1 to 4 in the order above, and 0 with a refusal; the step and the set are 0 where the reason has none.
#[repr(C)]
#[derive(Clone, Copy)]
pub struct WhyAnswer {
    pub number: u32,
    pub a: usize,
    pub b: usize,
    pub reason: u32,
    pub step: usize,
    pub set: u32,
}

//! Cuts RFC 4180 text into records: one record a call, and each field a part of the text, never a copy.
#![tactic(auto)]

mod fields;
mod records;

pub use fields::cut_field;
pub use records::cut_record;

/// A field: the bytes between its commas without outer quotes, and its offset in the script.
/// The offset is that of the opening quote where there is one, else that of the first byte; of an empty field it is where it stands.
/// A doubled quote stays two bytes.
#[derive(Clone, Copy, PartialEq, Eq, Debug)]
pub struct Field<'a> {
    pub text: &'a [u8],
    pub at: usize,
}

/// What ended a record: CR LF, or the end of the script.
#[derive(Clone, Copy, PartialEq, Eq, Debug)]
pub enum RecordEnd {
    CrLf,
    Script,
}

/// What ended a field: a comma, or the end of its record, of which it is then the last.
// An `Option<RecordEnd>` would leave it to the reader that `None` is a comma.
#[derive(Clone, Copy, PartialEq, Eq, Debug)]
pub enum FieldEnd {
    Comma,
    Last(RecordEnd),
}

/// The text breaks a rule at this offset.
#[derive(Clone, Copy, PartialEq, Eq, Debug)]
pub struct TextFault {
    pub at: usize,
}

/// One field that was cut off, what ended it, the bytes behind that end, and their offset.
#[derive(Clone, Copy, PartialEq, Eq, Debug)]
pub struct FieldCut<'a> {
    pub field: Field<'a>,
    pub end: FieldEnd,
    pub rest: &'a [u8],
    pub next: usize,
}

/// One record that was cut off: how many fields it has, what ended it, and the offset behind that end.
#[derive(Clone, Copy, PartialEq, Eq, Debug)]
pub struct Cut {
    pub fields: usize,
    pub end: RecordEnd,
    pub next: usize,
}

//! The fields of a record behind its letter.
use record::Field;

/// The fields two to seven. What a step does not use must be empty.
#[derive(Clone, Copy)]
pub(crate) struct Operands<'a> {
    pub(crate) member: Field<'a>,
    pub(crate) number: Field<'a>,
    pub(crate) set: Field<'a>,
    pub(crate) class: Field<'a>,
    pub(crate) first: Field<'a>,
    pub(crate) second: Field<'a>,
}

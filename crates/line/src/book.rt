//! An open line.
ghost use Rattle.line.specs.Tables.{Good};

use crate::parts::Tables;

mod calls;

/// An open line: its tables, with what every open line keeps.
#[derive(Drop)]
pub(crate) struct Book {
    pub(crate) tables: Tables,
    ghost good: { ∥ Good tables ∥₁ },
}

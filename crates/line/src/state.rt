//! The line and its stations.
use crate::book::Book;
use std::marker::PhantomData;

mod ask;
mod calls;

/// A line whose stations have machines of the kind `M`: closed, or open with its counts, its open commands and its
/// members. It takes no other memory.
// No model of its own: on a refusal the tables are as they were, place by place, and a view by numbers shows no places.
#[derive(Drop)]
pub struct Line<M> {
    book: Option<Book>,
    kind: PhantomData<M>,
}

/// A member number together with the machine behind it.
#[derive(Drop)]
pub struct Station<M> {
    member: u8,
    machine: M,
}

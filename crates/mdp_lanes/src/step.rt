//! A step that is published on a board, as contracts name it.

use crate::row::Row;

/// What is published at once. No value of it is made.
pub enum Step {
    /// Recovery jumped: each row that was given before is stale.
    Jump,
    /// An event ended: each pair gives its slot its row, one after the other. In a clause the array is a list of any
    /// length.
    Event([(u16, Row); 0]),
}

//! What a line of a schedule asks for.

use roc_world::Event;

/// What is asked for: an event, or a choice among the messages that were never delivered.
#[derive(Drop)]
pub enum Wanted {
    /// This event.
    Event(Event),
    /// The delivery of the message at this place among those that were never delivered, by number rising, where places count from 0
    /// and go round. Where there is none, nothing happens.
    Any(u32),
}

/// What a line asks for, with the number of the line.
#[derive(Drop)]
pub struct BoundLine {
    pub number: u32,
    pub wanted: Wanted,
}

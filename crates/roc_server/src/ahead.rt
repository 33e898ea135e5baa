//! What a server made ahead for a message.
use crate::Handled;
use roc_msg::{Msg, Outbox};
use roc_server_reads::StayingReads;
use std::rc::Rc;

// What is answered, what is sent, and the reads that stay, where others stay than are kept. What is to change is tried in the server's parts.
#[derive(Drop)]
pub(crate) struct Outcome {
    pub answer: Handled,
    pub sends: Outbox,
    pub stays: Option<StayingReads>,
}

// A message, and what comes of it. The message is one pointer, so that what holds it is cheap to prove.
#[derive(Drop)]
pub(crate) struct Ahead {
    pub msg: Rc<Msg>,
    pub outcome: Outcome,
}

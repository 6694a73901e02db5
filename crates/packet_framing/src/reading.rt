use crate::Message;

/// The messages that were found so far, and the place where the bytes begin that none of them has.
#[derive(Drop)]
pub(crate) struct Reading {
    pub(crate) messages: Vec<Message>,
    pub(crate) rest: usize,
}

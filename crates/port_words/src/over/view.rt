// What a seat of the word knows, as plain data. No value of it is made but `OverSize`.
use std::collections::LinkedList;

/// How many counted seats the word was made with, and how many seats in all.
#[derive(Clone, Copy)]
pub struct OverSize {
    pub counted: u32,
    pub seats: u32,
}

/// One seat: its number, whether it has finished, and the word that its stop found.
pub struct OverPlace {
    pub number: u32,
    pub finished: bool,
    pub stopped: Option<u64>,
}

/// The seats that one seat speaks for, its own first, and the words that it found.
pub struct OverView {
    pub size: OverSize,
    pub places: LinkedList<OverPlace>,
    pub found: LinkedList<u64>,
}

use xd_edge::{Fate, Texts};

/// A start of a program in memory that was asked for.
#[derive(Drop)]
pub struct MemRun {
    pub args: Texts,
    /// The program's place among the prepared ones; their count where it was not started.
    pub child: usize,
    /// How many pieces of its output were given whole.
    pub piece: usize,
    /// How many bytes of the next piece were given.
    pub given: usize,
    pub fate: Fate,
}

// How far the report of a run was written.

/// Whether all of the report so far was printed.
#[derive(Clone, Copy, Debug, PartialEq, Eq)]
pub enum Written {
    /// All of it.
    Whole,
    /// The output failed. That many entries of the journal had been performed.
    Broken { performed: usize },
}

/// The places of the entries that a step added to the journal: from `from` up to, and without, `to`, counted from 0.
#[derive(Clone, Copy, Debug, PartialEq, Eq)]
pub struct Step {
    pub from: usize,
    pub to: usize,
}

// What is kept of a run.
use xd_edge::Text;

/// What is kept of a run, after its report.
#[derive(Drop)]
pub struct Keeps {
    /// `--journal FILE`: the file that the run's journal is written to.
    pub journal: Option<Text>,
}

//! An honest run completes: where nothing failed outside, and each link carries all that an honest worker says, no
//! worker is lost and the run ends as its tests and its suite files make it.
#![tactic(auto)]

ghost use Rattle.xd_complete.specs.Complete.{AnHonestRunCompletes};

/// Where no count of faults rose and each link carries all that an honest worker says, no worker goes down, none fails
/// to start and none is killed; and the run was completed, reached the limit of failures, or ended by collections that
/// differ or a suite that was refused, as its workers wrote them.
pub fn complete_law()
    ensures { AnHonestRunCompletes }
{}

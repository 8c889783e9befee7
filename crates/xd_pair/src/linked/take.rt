// The next message of the peer.
ghost use Rattle.std.specs.Prelude.{◌≡◌, Some, IfOk, IfErr, OnErr, option_map};

use super::LinkedSide;
use xd_factory::{SideFault, Taken};

impl LinkedSide {
    ghost use Rattle.xd_factory.specs.View.{fault_of};
    ghost use Rattle.xd_factory.specs.Trees.{taken_tree};
    ghost use Rattle.xd_pair.specs.Handed.{next_items, next_end};
    ghost use Rattle.xd_pair.specs.Stands.{AnswersNext, IsTake, RefusedFor, RefusesNext};

    /// Takes the next message that the peer said, if there is one.
    pub fn take(&mut self, peer: &mut LinkedSide) -> Result<Option<Taken>, SideFault>
        ensures taken { IfOk result
            (λ t. IsTake self.old self.new peer.old peer.new (next_items t) (next_end t)) }
        ensures refused { OnErr result (RefusesNext self.old self.new peer.old peer.new) }
        ensures fault { IfErr result (λ fault. fault_of self.new.side ≡ Some fault) }
        ensures answer { IfOk result
            (λ t. AnswersNext self.old.side peer.old.said.items (option_map taken_tree t)) }
        ensures cause { IfErr result (RefusedFor self.old.side peer.old.said.items) }
    {
        match peer.said.pop_front() {
            Some(message) => match self.side.take_message(message) {
                Ok(taken) => Ok(Some(taken)),
                Err(fault) => Err(fault),
            },
            None => Ok(None),
        }
    }
}

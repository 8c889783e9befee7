// The stack of values, the last one at its end.
ghost use Rattle.std.specs.Prelude.{◌≡◌, ◌∷◌, [], MatchOption, OnOk};
ghost use Rattle.std.specs.Option.{IfSome};
ghost use Rattle.xd_value_loads.specs.inner.Seats.{cell_of, cells_of, seat, MarkFits, IsStack};
ghost use Rattle.xd_value.specs.Tree.{depth as depth_of};
ghost use Rattle.xd_value.specs.View.{view};

use std::alloc::{AllocError, Global};
use xd_value::{Keys, Value};

/// What is kept of a value while it stands on the stack.
#[derive(Drop)]
pub struct Mark {
    /// How many declared items of a list are still missing.
    pub missing: u32,
    /// How deep the value nests.
    pub depth: u32,
    /// The keys of a dict.
    pub keys: Keys,
}

/// The values that stand, and beside each what is kept of it. The values lie side by side, so that a tuple takes its parts
/// in one piece.
#[derive(Drop)]
pub struct Stack {
    pub values: Vec<Value>,
    pub marks: Vec<Mark>,
}

impl Stack {
    pub fn new(alloc: Global) -> Stack
        ensures empty { cells_of result ≡ [] }
        ensures stack { IsStack result }
    {
        Stack {
            values: Vec::new(alloc),
            marks: Vec::new(alloc),
        }
    }

    /// Pushes a value that lacks `missing` declared items and nests `depth` deep.
    #[inline(always)]
    pub fn push(&mut self, value: Value, missing: u32, depth: u32) -> Result<(), AllocError>
        requires stack { IsStack self.old }
        requires measured { depth ≡ depth_of (view value) }
        ensures cells { OnOk result (cells_of self.new
            ≡ record { value = view value; missing = missing } ∷ cells_of self.old) }
        ensures stack { OnOk result (IsStack self.new) }
    {
        let keys = Keys::new();
        self.values.push(value)?;
        self.marks.push(Mark {
            missing,
            depth,
            keys,
        })?;
        Ok(())
    }

    /// Takes the last value off.
    #[inline(always)]
    pub fn pop(&mut self) -> Option<(Value, Mark)>
        requires stack { IsStack self.old }
        ensures cells { MatchOption result (cells_of self.old ≡ []) (λ p.
            cells_of self.old ≡ cell_of (seat p.0 p.1) ∷ cells_of self.new) }
        ensures fits { IfSome result (λ p. MarkFits (seat p.0 p.1)) }
        ensures stack { IsStack self.new }
    {
        let value = self.values.pop()?;
        let mark = self.marks.pop()?;
        Some((value, mark))
    }
}

// What is proved of two sides. Each is a call that does nothing, and its contract is the law.
ghost use Rattle.std.specs.Prelude.{◌≡◌, ◌++◌, ◌∷◌, [], ℕ, List, Bool, true, false, Option};
ghost use Rattle.xd_value.specs.Tree.{Tree};
ghost use Rattle.xd_channel.specs.declared.end.End.{End};
ghost use Rattle.xd_pair.specs.Pair.{Actor, Move, Take_message, Refuse, Step, Odd, Even, run, start, beginning, PairLaw};
ghost use Rattle.xd_pair.specs.Handed.{Hands};
ghost use Rattle.xd_pair.specs.Stands.{StandsForActor, IsMoveIf, HandsOut, IsTake, RefusesNext};
ghost use Rattle.xd_pair.specs.TwoSides.{PairStands};
ghost use Rattle.xd_pair.specs.declared.linked.LinkedSide.{LinkedSide};

/// In each history of two sides, each channel hands out a prefix of what was sent on it, in both directions. Where a
/// receiver that did not let go of its end gets an orderly end, all that was sent before the peer's first end was
/// handed out before.
pub fn pair_law()
    ensures { (steps : List Step) → PairLaw (run steps start) }
{}

/// Two new sides, and nothing on the way between them, are as no step leaves them.
pub fn start_law()
    ensures { (odd even : LinkedSide)
        → StandsForActor true odd.side (beginning 1) → StandsForActor false even.side (beginning 2)
        → odd.said.items ≡ [] → even.said.items ≡ [] → PairStands odd even [] }
{}

/// A call of one of two sides that is a move is a step of their history.
pub fn step_law()
    ensures odd { (odd new even : LinkedSide) (steps : List Step)
        → (test : Actor → Bool) → (move : Move)
        → IsMoveIf test odd new move → test (run steps start).odd ≡ true
        → PairStands odd even steps
        → PairStands new even (steps ++ Odd move ∷ []) }
    ensures even { (odd even new : LinkedSide) (steps : List Step)
        → (test : Actor → Bool) → (move : Move)
        → IsMoveIf test even new move → test (run steps start).even ≡ true
        → PairStands odd even steps
        → PairStands odd new (steps ++ Even move ∷ []) }
{}

/// What a call of one of two sides hands out is what its step hands out.
pub fn hand_law()
    ensures odd { (odd even : LinkedSide) (steps : List Step) (move : Move)
        → (items : ℕ → List Tree) → (end : ℕ → Option End)
        → HandsOut odd move items end → PairStands odd even steps
        → Hands (run steps start).odd (run (steps ++ Odd move ∷ []) start).odd items end }
    ensures even { (odd even : LinkedSide) (steps : List Step) (move : Move)
        → (items : ℕ → List Tree) → (end : ℕ → Option End)
        → HandsOut even move items end → PairStands odd even steps
        → Hands (run steps start).even (run (steps ++ Even move ∷ []) start).even items end }
{}

/// A message that one of two sides takes from the other is a step of their history, and hands out what the step
/// hands out.
pub fn take_law()
    ensures odd { (odd new even left : LinkedSide) (steps : List Step)
        → (items : ℕ → List Tree) → (end : ℕ → Option End)
        → IsTake odd new even left items end → PairStands odd even steps
        → PairStands new left (steps ++ Odd Take_message ∷ [])
        × Hands (run steps start).odd (run (steps ++ Odd Take_message ∷ []) start).odd items end }
    ensures even { (odd even new left : LinkedSide) (steps : List Step)
        → (items : ℕ → List Tree) → (end : ℕ → Option End)
        → IsTake even new odd left items end → PairStands odd even steps
        → PairStands left new (steps ++ Even Take_message ∷ [])
        × Hands (run steps start).even
        (run (steps ++ Even Take_message ∷ []) start).even items end }
{}

/// A message that one of two sides refuses is a step of their history.
pub fn refuse_law()
    ensures odd { (odd new even left : LinkedSide) (steps : List Step)
        → RefusesNext odd new even left → PairStands odd even steps
        → (names : List ℕ) × PairStands new left (steps ++ Odd (Refuse names) ∷ []) }
    ensures even { (odd even new left : LinkedSide) (steps : List Step)
        → RefusesNext even new odd left → PairStands odd even steps
        → (names : List ℕ) × PairStands left new (steps ++ Even (Refuse names) ∷ []) }
{}

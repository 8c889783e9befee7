// Programs in memory.
ghost use Rattle.std.specs.Prelude.{◌≡◌, ◌<◌, ◌≤◌, ◌++◌, [], ◌∷◌, Some, ℕ, List, length, take, IsTrue, slice_get, IfOk, OnOk, OnErr, IsErrOf, IsNone, IsSome, IfSome, true, is_ok, is_some};
ghost use Rattle.xd_edge.specs.Faults.{Counted};
ghost use Rattle.xd_edge.specs.Children.{whole_output, start_not_failed, change_at, fate_at_end, with_fate, with_last, with_output, running, not_started, with_read_fault, with_end, with_wait_fault};
ghost use Rattle.xd_memory.specs.MemChildren.{Prepared, Starts, all_told, child_in, child_end_at, given_of, has_to_give, is_prepared, piece_at, texts_eq};

use crate::MemRun;
use std::alloc::Global;
use std::sync::Wait;
use xd_edge::{
    Blob, Blobs, ChildEnd, ChildFault, Children, Failed, Fate, FaultPlan, Indices, Text, Texts,
    copy_texts,
};

/// Programs in memory: each list of arguments with the pieces of its output and its end. A start takes the first that
/// has its arguments, again and again; one that was not prepared fails.
#[derive(Drop)]
pub struct MemChildren {
    pub children: Vec<(Texts, Blobs, ChildEnd)>,
    pub runs: Vec<MemRun>,
    pub plan: FaultPlan,
}

/// A child of a `MemChildren`: its place among the starts, and whether it was read to its end.
#[derive(Drop)]
pub struct MemChild {
    pub place: usize,
    pub is_read: bool,
}

impl MemChildren {
    /// These children, none of them started.
    pub fn new(
        alloc: Global,
        children: Vec<(Texts, Blobs, ChildEnd)>,
        fails: Indices,
    ) -> MemChildren
        ensures children { result.children ≡ children }
        ensures runs { result.runs.items ≡ [] }
        ensures fails { result.plan.fails ≡ fails }
        ensures count { result.plan.faults ≡ 0 }
    {
        MemChildren {
            children,
            runs: Vec::new(alloc),
            plan: FaultPlan::new(fails),
        }
    }
}

fn find_child(children: &[(Texts, Blobs, ChildEnd)], args: &[Text]) -> Option<usize>
    ensures { result ≡ child_in children.now args.now }
{
    children
        .iter()
        .position(|(other, _, _)| is_same(&other.items, args))
}

fn is_same(these: &[Text], those: &[Text]) -> bool
    ensures { result ≡ texts_eq these.now those.now }
{
    if these.len() != those.len() {
        return false;
    }
    for (i, text) in these.iter().enumerate() {
        if !text.is_same(&those[i]) {
            return false;
        }
    }
    true
}

// The child that is started next, or a fault.
fn next_child(
    plan: &mut FaultPlan,
    children: &[(Texts, Blobs, ChildEnd)],
    args: &[Text],
) -> Option<usize>
    ensures fails { plan.new.fails ≡ plan.old.fails }
    ensures counted { Counted (is_some result) plan.old.faults plan.new.faults }
    ensures found { IfSome result (λ n. child_in children.now args.now ≡ Some n) }
    ensures calm { plan.old.fails ≡ [] → IsSome (child_in children.now args.now) →
        plan.new.faults ≡ plan.old.faults }
{
    if plan.step().is_err() {
        return None;
    }
    let found = find_child(children, args);
    if found.is_none() {
        plan.fault();
    }
    found
}

fn set_fate(runs: &mut [MemRun], place: usize, fate: Fate)
    ensures fate { (children : List Prepared) →
        all_told children runs.new ≡ change_at place (with_fate fate) (all_told children runs.old) }
    ensures same_whole { (children : List Prepared) (k : ℕ) →
        has_to_give children k runs.new ≡ has_to_give children k runs.old }
{
    if place < runs.len() {
        runs[place].fate = fate;
    }
}

fn last_fate(old: Fate, new: Fate) -> Fate
    ensures { result ≡ fate_at_end old new }
{
    match old {
        Fate::NotRead => Fate::NotRead,
        _ => new,
    }
}

fn set_end(runs: &mut [MemRun], place: usize, fate: Fate)
    ensures fate { (children : List Prepared) →
        all_told children runs.new ≡ change_at place (with_last fate) (all_told children runs.old) }
    ensures same_whole { (children : List Prepared) (k : ℕ) →
        has_to_give children k runs.new ≡ has_to_give children k runs.old }
{
    if place < runs.len() {
        let run = &mut runs[place];
        run.fate = last_fate(run.fate, fate);
    }
}

// The piece that is given next, and how much of it was given.
fn next_piece(pieces: &[Blob], piece: usize, given: usize) -> (usize, usize)
    ensures same { given_of pieces.now result.0 result.1 ≡ given_of pieces.now piece given }
    ensures left { result.0 < length pieces.now → result.1 < length (piece_at pieces.now result.0) }
    ensures within { result.0 ≤ length pieces.now }
{
    let mut given = given;
    for i in piece..pieces.len() {
        if given < pieces[i].as_slice().len() {
            return (i, given);
        }
        given = 0;
    }
    (pieces.len(), 0)
}

// The next bytes of these pieces; none at their end.
fn give(pieces: &[Blob], run: &mut MemRun, into: &mut [u8]) -> usize
    ensures count { result ≤ length into.old }
    ensures same { (run.new.args ≡ run.old.args) × (run.new.child ≡ run.old.child)
        × (run.new.fate ≡ run.old.fate) }
    ensures gave { given_of pieces.now run.new.piece run.new.given ≡ given_of pieces.now
        run.old.piece run.old.given ++ take result into.new }
    ensures end { result ≡ 0 → 0 < length into.old →
        given_of pieces.now run.new.piece run.new.given ≡ whole_output pieces.now }
{
    let (piece, given) = next_piece(pieces, run.piece, run.given);
    if piece == pieces.len() {
        run.piece = piece;
        run.given = given;
        return 0;
    }
    let left = &pieces[piece].as_slice()[given..];
    let n = left.len().min(into.len());
    into[..n].copy_from_slice(&left[..n]);
    run.piece = piece;
    run.given = given + n;
    n
}

// The next bytes of the program that was started at this place; none at their end, or where it is not prepared.
fn give_at(
    children: &[(Texts, Blobs, ChildEnd)],
    runs: &mut [MemRun],
    place: usize,
    into: &mut [u8],
) -> Option<usize>
    ensures count { IfSome result (λ n. n ≤ length into.old) }
    ensures gave { IfSome result (λ n.
        all_told children.now runs.new ≡ change_at place (with_output (take n into.new))
        (all_told children.now runs.old)) }
    ensures end { IfSome result (λ n. n ≡ 0 → 0 < length into.old →
        IfSome (slice_get (all_told children.now runs.new) place) (λ run.
        run.output ≡ has_to_give children.now place runs.new)) }
    ensures none { IsNone result → runs.new ≡ runs.old }
    ensures same_whole { (k : ℕ) →
        has_to_give children.now k runs.new ≡ has_to_give children.now k runs.old }
    ensures some { is_prepared children.now place runs.old ≡ true → IsSome result }
{
    if place >= runs.len() {
        return None;
    }
    let run = &mut runs[place];
    let (_, pieces, _) = children.get(run.child)?;
    Some(give(&pieces.items, run, into))
}

impl Children for MemChildren {
    type Child = MemChild;

    ghost faults = { λ s. s.plan.faults };

    ghost runs = { λ s. Some (all_told s.children.items s.runs.items) };

    ghost place = { λ c. c.place };

    ghost whole = { λ s k. Some (has_to_give s.children.items k s.runs.items) };

    ghost is_read = { λ c. c.is_read };

    fn start(&mut self, alloc: Global, args: &[Text]) -> Result<MemChild, ChildFault>
        requires { 0 < length args.now }
        ensures next { IfOk result (λ child. child.place ≡ length self.old.runs.items) }
        ensures started { OnOk result
            (Starts self.old.children.items args.now self.old.runs.items self.new.runs.items) }
        ensures running { OnOk result
            (all_told self.new.children.items self.new.runs.items ≡ all_told self.old.children.items
            self.old.runs.items ++ running args.now ∷ []) }
        ensures failed { IsErrOf result ChildFault.Failed →
            all_told self.new.children.items self.new.runs.items ≡ all_told self.old.children.items
            self.old.runs.items ++ not_started args.now ∷ [] }
        ensures memory { IsErrOf result ChildFault.OutOfMemory →
            self.new.runs.items ≡ self.old.runs.items }
        ensures same_whole { (k : ℕ) → k < length self.old.runs.items →
            has_to_give self.new.children.items k self.new.runs.items ≡ has_to_give
            self.old.children.items k self.old.runs.items }
        ensures kept { (self.new.children ≡ self.old.children)
            × (self.new.plan.fails ≡ self.old.plan.fails) }
        ensures counted { Counted
            (start_not_failed result) self.old.plan.faults self.new.plan.faults }
        ensures calm { self.old.plan.fails ≡ [] →
            IsSome (child_in self.old.children.items args.now) →
            self.new.plan.faults ≡ self.old.plan.faults }
    {
        let place = self.runs.len();
        let args_kept = copy_texts(alloc, args)?;
        self.runs.reserve(1)?;
        let Some(child) = next_child(&mut self.plan, &self.children, args) else {
            self.runs.push_reserved(MemRun {
                args: args_kept,
                child: self.children.len(),
                piece: 0,
                given: 0,
                fate: Fate::NotStarted,
            });
            return Err(ChildFault::Failed);
        };
        self.runs.push_reserved(MemRun {
            args: args_kept,
            child,
            piece: 0,
            given: 0,
            fate: Fate::Running,
        });
        Ok(MemChild {
            place,
            is_read: false,
        })
    }

    fn read<R: Wait>(
        &mut self,
        _rt: &R,
        child: &mut MemChild,
        into: &mut [u8],
    ) -> Result<usize, Failed>
        ensures count { IfOk result (λ n. n ≤ length into.old) }
        ensures same_child { child.new.place ≡ child.old.place }
        ensures end { IfOk result (λ n. n ≡ 0 → 0 < length into.old → IsTrue child.new.is_read) }
        ensures end_failed { OnErr result (IsTrue child.new.is_read) }
        ensures gave { IfOk result (λ n.
            all_told self.new.children.items self.new.runs.items ≡ change_at child.old.place
            (with_output (take n into.new))
            (all_told self.old.children.items self.old.runs.items)) }
        ensures gave_all { IfOk result (λ n. n ≡ 0 → 0 < length into.old →
            IfSome (slice_get (all_told self.new.children.items self.new.runs.items)
            child.old.place) (λ run. run.output ≡ has_to_give self.new.children.items
            child.old.place self.new.runs.items)) }
        ensures failed { OnErr result
            (all_told self.new.children.items self.new.runs.items ≡ change_at child.old.place
            with_read_fault (all_told self.old.children.items self.old.runs.items)) }
        ensures same_whole { (k : ℕ) →
            has_to_give self.new.children.items k self.new.runs.items ≡ has_to_give
            self.old.children.items k self.old.runs.items }
        ensures kept { (self.new.children ≡ self.old.children)
            × (self.new.plan.fails ≡ self.old.plan.fails) }
        ensures counted { Counted (is_ok result) self.old.plan.faults self.new.plan.faults }
        ensures calm { self.old.plan.fails ≡ [] →
            is_prepared self.old.children.items child.old.place self.old.runs.items ≡ true →
            self.new.plan.faults ≡ self.old.plan.faults }
    {
        if let Err(failed) = self.plan.step() {
            set_fate(&mut self.runs, child.place, Fate::NotRead);
            child.is_read = true;
            return Err(failed);
        }
        let Some(n) = give_at(&self.children, &mut self.runs, child.place, into) else {
            set_fate(&mut self.runs, child.place, Fate::NotRead);
            child.is_read = true;
            return Err(self.plan.fault());
        };
        if n == 0 {
            child.is_read = true;
        }
        Ok(n)
    }

    fn wait<R: Wait>(&mut self, _rt: &R, child: MemChild) -> Result<ChildEnd, Failed>
        requires { IsTrue child.is_read }
        ensures prepared { IfOk result (λ e.
            child_end_at self.old.children.items child.place self.old.runs.items ≡ Some e) }
        ensures ended { IfOk result (λ e.
            all_told self.new.children.items self.new.runs.items ≡ change_at child.place
            (with_end e) (all_told self.old.children.items self.old.runs.items)) }
        ensures failed { OnErr result
            (all_told self.new.children.items self.new.runs.items ≡ change_at child.place
            with_wait_fault (all_told self.old.children.items self.old.runs.items)) }
        ensures same_whole { (k : ℕ) →
            has_to_give self.new.children.items k self.new.runs.items ≡ has_to_give
            self.old.children.items k self.old.runs.items }
        ensures kept { (self.new.children ≡ self.old.children)
            × (self.new.plan.fails ≡ self.old.plan.fails) }
        ensures counted { Counted (is_ok result) self.old.plan.faults self.new.plan.faults }
        ensures calm { self.old.plan.fails ≡ [] →
            is_prepared self.old.children.items child.place self.old.runs.items ≡ true →
            self.new.plan.faults ≡ self.old.plan.faults }
    {
        if let Err(failed) = self.plan.step() {
            set_end(&mut self.runs, child.place, Fate::NotWaited);
            return Err(failed);
        }
        match end_at(&self.children, &self.runs, child.place) {
            Some(end) => {
                set_end(&mut self.runs, child.place, Fate::Ended(end));
                Ok(end)
            }
            None => {
                set_end(&mut self.runs, child.place, Fate::NotWaited);
                Err(self.plan.fault())
            }
        }
    }
}

// The end of the program that was started at this place.
fn end_at(children: &[(Texts, Blobs, ChildEnd)], runs: &[MemRun], place: usize) -> Option<ChildEnd>
    ensures end { result ≡ child_end_at children.now place runs.now }
    ensures some { is_prepared children.now place runs.now ≡ true → IsSome result }
{
    let run = runs.get(place)?;
    let &(_, _, end) = children.get(run.child)?;
    Some(end)
}

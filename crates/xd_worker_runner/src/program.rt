// Programs, from their orders to their ends.
ghost use Rattle.std.specs.Prelude.{◌≡◌, ◌≤◌, ◌<◌, ◌++◌, ◌∷◌, ℕ, [], List, length, IsTrue, IfOk, OnOk, OnErr};
ghost use Rattle.xd_edge.specs.Children.{ChangesRun};
ghost use Rattle.xd_edge.specs.Faults.{Counted};
ghost use Rattle.xd_post.specs.Mails.{mails};
ghost use Rattle.xd_post.specs.Post.{put, ring_of_sender};
ghost use Rattle.xd_reader.specs.declared.news.LinkNews.TheVariants.{Output};
ghost use Rattle.xd_worker_runner.specs.Orders.{RunsOrders, programs_seen};
ghost use Rattle.xd_worker_runner.specs.Programs.{read_so};
ghost use Rattle.xd_worker_runner.specs.inner.Running.{PutsOutput, HeardPart, RunsOne, RunsPart, RunsTo, Watches, WatchesPart};

use std::alloc::Global;
use std::sync::Wait;
use xd_child::wait_for;
use xd_edge::{Blob, ChildFault, Children, MAX_PIECE_BYTES, OutOfMemory, Text, Texts};
use xd_journal::Outcome;
use xd_post::{Desk, Sender};
use xd_reader::{LinkNews, LinkStop};

/// Takes orders and runs them, up to the empty one, or until memory runs out.
pub fn carry_out<R: Wait, K: Children>(
    rt: &R,
    alloc: Global,
    children: &mut K,
    orders: &mut Desk<Texts>,
    sender: &mut Sender<LinkNews>,
)
    ensures runs { RunsOrders (mails orders.old) (mails orders.new)
        (programs_seen (K.runs children.old) (K.faults children.old))
        (programs_seen (K.runs children.new) (K.faults children.new))
        (put sender.old) (put sender.new) }
    ensures ring { ring_of_sender sender.new ≡ ring_of_sender sender.old }
{
    for _ in rt.forever() {
        let (_, order) = orders.wait(rt);
        if order.items.is_empty() {
            return;
        }
        if run_order(rt, alloc, children, sender, order.items.as_slice()).is_err() {
            sender.put(rt, LinkNews::End(LinkStop::OutOfMemory));
            return;
        }
    }
    unreachable!()
}

// Runs one order: puts what its program prints and how its test went.
fn run_order<R: Wait, K: Children>(
    rt: &R,
    alloc: Global,
    children: &mut K,
    sender: &mut Sender<LinkNews>,
    order: &[Text],
) -> Result<(), OutOfMemory>
    requires { 0 < length order.now }
    ensures ran { OnOk result
        (RunsOne order.now (programs_seen (K.runs children.old) (K.faults children.old))
        (programs_seen (K.runs children.new) (K.faults children.new))
        (put sender.old) (put sender.new)) }
    ensures part { OnErr result
        (RunsPart order.now (programs_seen (K.runs children.old) (K.faults children.old))
        (programs_seen (K.runs children.new) (K.faults children.new))
        (put sender.old) (put sender.new)) }
    ensures ring { ring_of_sender sender.new ≡ ring_of_sender sender.old }
{
    let outcome = run_program(rt, alloc, children, sender, order)?;
    sender.put(rt, LinkNews::ChildDone(outcome));
    Ok(())
}

// Starts the program of an order, puts what it prints, and waits for it. Says how its test went.
fn run_program<R: Wait, K: Children>(
    rt: &R,
    alloc: Global,
    children: &mut K,
    sender: &mut Sender<LinkNews>,
    order: &[Text],
) -> Result<Outcome, OutOfMemory>
    requires { 0 < length order.now }
    ensures ran { IfOk result (λ outcome.
        RunsTo outcome order.now (programs_seen (K.runs children.old) (K.faults children.old))
        (programs_seen (K.runs children.new) (K.faults children.new))
        (put sender.old) (put sender.new)) }
    ensures part { OnErr result
        (RunsPart order.now (programs_seen (K.runs children.old) (K.faults children.old))
        (programs_seen (K.runs children.new) (K.faults children.new))
        (put sender.old) (put sender.new)) }
    ensures ring { ring_of_sender sender.new ≡ ring_of_sender sender.old }
{
    match children.start(alloc, order) {
        Ok(child) => watch(rt, alloc, children, sender, child),
        Err(ChildFault::Failed) => Ok(Outcome::Failed(-2)),
        Err(ChildFault::OutOfMemory) => Err(OutOfMemory),
    }
}

// Puts what a program prints, and waits for it. Says how its test went.
fn watch<R: Wait, K: Children>(
    rt: &R,
    alloc: Global,
    children: &mut K,
    sender: &mut Sender<LinkNews>,
    child: K::Child,
) -> Result<Outcome, OutOfMemory>
    ensures watched { IfOk result (λ outcome.
        Watches outcome (K.place child)
        (programs_seen (K.runs children.old) (K.faults children.old))
        (programs_seen (K.runs children.new) (K.faults children.new))
        (put sender.old) (put sender.new)) }
    ensures part { OnErr result
        (WatchesPart (K.place child) (programs_seen (K.runs children.old) (K.faults children.old))
        (programs_seen (K.runs children.new) (K.faults children.new))
        (put sender.old) (put sender.new)) }
    ensures ring { ring_of_sender sender.new ≡ ring_of_sender sender.old }
{
    let mut child = child;
    match hear_output(rt, alloc, children, sender, &mut child) {
        Ok(whole) => Ok(wait_for(rt, children, child, whole)),
        Err(OutOfMemory) => {
            let whole = drop_output(rt, children, &mut child);
            let _outcome = wait_for(rt, children, child, whole);
            Err(OutOfMemory)
        }
    }
}

// Puts what a program prints, piece by piece; false where a read failed.
fn hear_output<R: Wait, K: Children>(
    rt: &R,
    alloc: Global,
    children: &mut K,
    sender: &mut Sender<LinkNews>,
    child: &mut K::Child,
) -> Result<bool, OutOfMemory>
    ensures same_child { K.place child.new ≡ K.place child.old }
    ensures is_read { OnOk result (IsTrue (K.is_read child.new)) }
    ensures heard { IfOk result (λ whole.
        PutsOutput whole (K.place child.old) (K.runs children.old) (K.runs children.new)
        (put sender.old) (put sender.new)) }
    ensures counted { IfOk result (λ whole.
        Counted whole (K.faults children.old) (K.faults children.new)) }
    ensures part { OnErr result
        (HeardPart (K.place child.old) (K.runs children.old) (K.runs children.new) (put sender.old)
        (put sender.new)) }
    ensures later { K.faults children.old ≤ K.faults children.new }
    ensures ring { ring_of_sender sender.new ≡ ring_of_sender sender.old }
{
    let mut buffer = [0u8; MAX_PIECE_BYTES];
    for _ in rt.forever() {
        match children.read(rt, child, &mut buffer) {
            Ok(0) => return Ok(true),
            Ok(n) => put_piece(rt, alloc, sender, &buffer[..n])?,
            Err(_) => return Ok(false),
        }
    }
    unreachable!()
}

// Puts a piece of what a program prints.
fn put_piece<R: Wait>(
    rt: &R,
    alloc: Global,
    sender: &mut Sender<LinkNews>,
    piece: &[u8],
) -> Result<(), OutOfMemory>
    ensures put { OnOk result (put sender.new ≡ put sender.old ++ Output piece.now ∷ []) }
    ensures none { OnErr result (put sender.new ≡ put sender.old) }
    ensures ring { ring_of_sender sender.new ≡ ring_of_sender sender.old }
{
    let piece = Blob::of(alloc, piece)?;
    sender.put(rt, LinkNews::Output(piece));
    Ok(())
}

// Reads what a program still prints, and drops it; false where a read failed.
fn drop_output<R: Wait, K: Children>(rt: &R, children: &mut K, child: &mut K::Child) -> bool
    ensures same_child { K.place child.new ≡ K.place child.old }
    ensures is_read { IsTrue (K.is_read child.new) }
    ensures gave { (output : List ℕ)
        × ChangesRun (K.place child.old) (read_so result output) (K.runs children.old)
        (K.runs children.new) }
    ensures later { K.faults children.old ≤ K.faults children.new }
{
    let mut buffer = [0u8; MAX_PIECE_BYTES];
    for _ in rt.forever() {
        match children.read(rt, child, &mut buffer) {
            Ok(0) => return true,
            Ok(_) => (),
            Err(_) => return false,
        }
    }
    unreachable!()
}

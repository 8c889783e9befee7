// The job that runs programs.
ghost use Rattle.std.specs.Prelude.{◌≡◌};
ghost use Rattle.xd_post.specs.Mails.{mails};
ghost use Rattle.xd_post.specs.Post.{put, ring_of_sender};
ghost use Rattle.xd_worker_runner.specs.Orders.{RunsOrders, programs_seen};
ghost use Rattle.xd_worker_runner.specs.Programs.{AreOver};

use crate::program::carry_out;
use std::alloc::Global;
use std::sync::Wait;
use xd_crew::Job;
use xd_edge::{Children, Texts};
use xd_post::{Desk, Sender};
use xd_reader::LinkNews;

/// A job that runs programs one after another, as it is ordered: an order is a program's name and its arguments, and the
/// empty list ends it. It puts what each prints, in pieces of 1 to 4,096 bytes, and then how its test went. Where memory
/// runs out it reads the running program to its end, waits for it, puts one end and takes no more orders.
#[derive(Drop)]
pub struct Runner<K: Children> {
    alloc: Global,
    pub children: K,
    pub orders: Desk<Texts>,
    pub sender: Sender<LinkNews>,
}

/// What a runner gives back.
#[derive(Drop)]
pub struct RunnerEnd<K: Children> {
    pub children: K,
    pub orders: Desk<Texts>,
    pub sender: Sender<LinkNews>,
}

impl<K: Children> Runner<K> {
    /// It has taken no order and put nothing.
    pub fn new(
        alloc: Global,
        children: K,
        orders: Desk<Texts>,
        sender: Sender<LinkNews>,
    ) -> Runner<K>
        ensures children { result.children ≡ children }
        ensures orders { result.orders ≡ orders }
        ensures sender { result.sender ≡ sender }
    {
        Runner {
            alloc,
            children,
            orders,
            sender,
        }
    }

    /// Takes a job apart that was handed back, with no order taken and nothing put.
    pub fn into_end(self) -> RunnerEnd<K>
        ensures children { result.children ≡ self.children }
        ensures orders { result.orders ≡ self.orders }
        ensures sender { result.sender ≡ self.sender }
    {
        let Runner {
            alloc: _,
            children,
            orders,
            sender,
        } = self;
        RunnerEnd {
            children,
            orders,
            sender,
        }
    }
}

impl<K: Children> Job for Runner<K> {
    type Out = RunnerEnd<K>;

    ghost gives = { λ job out.
        RunsOrders (mails job.orders) (mails out.orders)
        (programs_seen (K.runs job.children) (K.faults job.children))
        (programs_seen (K.runs out.children) (K.faults out.children))
        (put job.sender) (put out.sender)
        × (ring_of_sender out.sender ≡ ring_of_sender job.sender) };

    fn run<R: Wait>(self, rt: &R) -> RunnerEnd<K>
        ensures runs { RunsOrders (mails self.orders) (mails result.orders)
            (programs_seen (K.runs self.children) (K.faults self.children))
            (programs_seen (K.runs result.children) (K.faults result.children)) (put self.sender)
            (put result.sender) }
        ensures ring { ring_of_sender result.sender ≡ ring_of_sender self.sender }
        ensures over { AreOver (K.runs self.children) (K.runs result.children) }
    {
        let Runner {
            alloc,
            mut children,
            mut orders,
            mut sender,
        } = self;
        carry_out(rt, alloc, &mut children, &mut orders, &mut sender);
        RunnerEnd {
            children,
            orders,
            sender,
        }
    }
}

//! Real links: children of the program, TCP streams, and the program's own standard input and output.
#![tactic(auto)]

mod inlet;
mod outlet;
mod own_output;
mod real_sink;
mod real_starter;
mod stream;
mod waiting;
mod worker;

pub use inlet::{Inlet, Stoppable};
pub use outlet::Outlet;
pub use own_output::OwnOutput;
pub use real_sink::RealSink;
pub use real_starter::RealStarter;
pub use stream::StreamOutput;

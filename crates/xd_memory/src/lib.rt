//! The forms in memory of everything outside: sinks, sources, files, programs, clocks and links, which tell what they
//! took and gave, and fail where they are asked to. The program uses none of them.
#![tactic(auto)]

mod mem_children;
mod mem_clock;
mod mem_file;
mod mem_files;
mod mem_run;
mod mem_sink;
mod mem_source;
mod mem_starter;

pub use mem_children::{MemChild, MemChildren};
pub use mem_clock::MemClock;
pub use mem_file::MemFile;
pub use mem_files::MemFiles;
pub use mem_run::MemRun;
pub use mem_sink::MemSink;
pub use mem_source::MemSource;
pub use mem_starter::MemStarter;

// The suite file that a worker asks for.
ghost use Rattle.std.specs.Prelude.{◌≡◌, ◌≤◌, IfOk};
ghost use Rattle.xd_edge.specs.Faults.{Rose};
ghost use Rattle.xd_worker_serve.specs.Suites.{FilesGave};

use std::alloc::Global;
use xd_edge::{FileFault, Files, MAX_SUITE_BYTES, OutOfMemory, Text};
use xd_worker::WorkerInput;

/// What the files give for the path of a suite.
pub fn read_suite<F: Files>(
    alloc: Global,
    files: &mut F,
    path: &Text,
) -> Result<WorkerInput, OutOfMemory>
    ensures gave { IfOk result
        (FilesGave (F.held files.old) (Rose (F.faults files.old) (F.faults files.new)) path.now) }
    ensures kept { F.held files.new ≡ F.held files.old }
    ensures later { F.faults files.old ≤ F.faults files.new }
{
    match files.read_file(alloc, path, MAX_SUITE_BYTES) {
        Ok(bytes) => Ok(WorkerInput::SuiteBytes(bytes)),
        Err(FileFault::TooLarge) => Ok(WorkerInput::SuiteTooLarge),
        Err(FileFault::Failed) => Ok(WorkerInput::SuiteUnread),
        Err(FileFault::OutOfMemory) => Err(OutOfMemory),
    }
}

// The printed names of kinds and of faults.
ghost use Rattle.std.specs.Prelude.{◌≡◌};
ghost use Rattle.xd_wire.specs.Names.{kind_name, frame_fault_name, what_name};

use xd_frame::{FrameFault, Kind};
use xd_value::LoadWhat;

pub fn name_of_kind(kind: Kind) -> &'static str
    ensures { result.now ≡ kind_name kind }
{
    match kind {
        Kind::Status => "STATUS",
        Kind::Reconfigure => "RECONFIGURE",
        Kind::Terminate => "GATEWAY_TERMINATE",
        Kind::Exec => "CHANNEL_EXEC",
        Kind::Item => "CHANNEL_DATA",
        Kind::Close => "CHANNEL_CLOSE",
        Kind::CloseError => "CHANNEL_CLOSE_ERROR",
        Kind::LastMessage => "CHANNEL_LAST_MESSAGE",
    }
}

pub fn name_of_frame_fault(fault: FrameFault) -> &'static str
    ensures { result.now ≡ frame_fault_name fault }
{
    match fault {
        FrameFault::BadKind(_) => "BadKind",
        FrameFault::BadChannel(_) => "BadChannel",
        FrameFault::BadLength(_) => "BadLength",
        FrameFault::Cut => "Cut",
    }
}

pub fn name_of_what(what: LoadWhat) -> &'static str
    ensures { result.now ≡ what_name what }
{
    match what {
        LoadWhat::UnknownOpcode => "UnknownOpcode",
        LoadWhat::FloatOpcode => "FloatOpcode",
        LoadWhat::Short => "Short",
        LoadWhat::BadLength => "BadLength",
        LoadWhat::BadText => "BadText",
        LoadWhat::BadNumber => "BadNumber",
        LoadWhat::Misplaced => "Misplaced",
        LoadWhat::ListOrder => "ListOrder",
        LoadWhat::Unhashable => "Unhashable",
        LoadWhat::Repeated => "Repeated",
        LoadWhat::TooDeep => "TooDeep",
        LoadWhat::Leftover => "Leftover",
        LoadWhat::NoStop => "NoStop",
    }
}

// The calls of the side, by its table.
ghost use Rattle.std.specs.Prelude.{◌≡◌, ◌≤◌, IfOk, IfErr, OnOk, OnErr, Some, None};
ghost use Rattle.xd_factory.specs.View.{next_of};
ghost use Rattle.xd_factory.specs.Said.{IsFault};
ghost use Rattle.xd_factory.specs.SideTable.{opened, channel_table};
ghost use Rattle.xd_factory.specs.declared.faults.SideFault.{SideFault};
ghost use Rattle.xd_gateway.specs.Calls.{exec_opened, open_refusal};
ghost use Rattle.xd_gateway.specs.inner.Opening.{IsUnopened, opening_fault};
ghost use Rattle.xd_gateway.specs.Taking.{IsTaken, IsFaultOf, IsToRefuse};

use crate::GatewayFault;
use xd_factory::{OpenFault, Side, SideFault, Taken};
use xd_frame::Message;

/// Takes a message.
pub fn take(side: &mut Side, message: Message) -> Result<Taken, SideFault>
    ensures taken { IfOk result
        (IsTaken message (channel_table side.old) (channel_table side.new)) }
    ensures refused { IfErr result (IsFaultOf (channel_table side.old) message) }
    ensures fails { IfErr result (λ fault. (channel_table side.new).fault ≡ Some fault) }
    ensures refuses { (fault : SideFault) → IsToRefuse (channel_table side.old) message fault →
        IsFault fault result }
{
    // Why a message is refused is told by how many channels there are.
    prove!(side.status() <= xd_factory::MAX_ENTRIES);
    match side.take_message(message) {
        Ok(taken) => Ok(taken),
        Err(fault) => Err(fault),
    }
}

/// Opens the next channel of the own numbers.
pub fn open_next(side: &mut Side) -> Result<u32, GatewayFault>
    ensures number { IfOk result (λ n. n ≡ next_of side.old) }
    ensures small { IfOk result (λ n. n ≤ 2147483647) }
    ensures accepted { OnOk result (open_refusal side.old ≡ None) }
    ensures refused { IfErr result (IsUnopened (open_refusal side.old)) }
    ensures table { OnOk result (channel_table side.new ≡ opened (channel_table side.old)) }
    ensures err { OnErr result (channel_table side.new ≡ channel_table side.old) }
{
    match side.open_channel() {
        Ok(number) => Ok(number),
        Err(fault) => Err(opening_fault(fault)),
    }
}

// Why a call that opens a channel is refused.
fn opening_fault(fault: OpenFault) -> GatewayFault
    ensures { result ≡ opening_fault fault }
{
    match fault {
        OpenFault::OutOfMemory => GatewayFault::OutOfMemory,
        _ => GatewayFault::Opening(fault),
    }
}

/// Opens the channel of a call, with a callback.
pub fn open_call(side: &mut Side) -> Result<u32, GatewayFault>
    ensures number { IfOk result (λ n. n ≡ next_of side.old) }
    ensures small { IfOk result (λ n. n ≤ 2147483647) }
    ensures accepted { OnOk result (open_refusal side.old ≡ None) }
    ensures refused { IfErr result (IsUnopened (open_refusal side.old)) }
    ensures table { OnOk result (channel_table side.new ≡ exec_opened (channel_table side.old)) }
    ensures err { OnErr result (channel_table side.new ≡ channel_table side.old) }
{
    let number = open_next(side)?;
    hook(side, number);
    Ok(number)
}

ghost use Rattle.xd_factory.specs.Slot.{hooked_slot};
ghost use Rattle.xd_factory.specs.SideTable.{changed_at};

/// What comes on the channel is handed out from now on. What waited there, which was told as it came, is dropped.
pub fn hook(side: &mut Side, number: u32)
    ensures { channel_table side.new ≡ changed_at number hooked_slot (channel_table side.old) }
{
    let _waiting = side.set_callback(number);
}

// Why a gateway wrote nothing, or not all.
use xd_factory::{OpenFault, SendFault};

/// Why a gateway wrote nothing, or not all.
#[derive(Clone, Copy, Debug, PartialEq, Eq)]
pub enum GatewayFault {
    /// The sink failed, in this call or in an earlier one. Nothing more is written.
    SendFault,
    /// The side sends nothing there, or the value has no payload.
    Channel(SendFault),
    /// The side opens no channel.
    Opening(OpenFault),
    OutOfMemory,
}

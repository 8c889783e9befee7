use xd_channel::End;
use xd_value::Value;

/// What a message did. Each number is that of the message.
#[derive(Drop)]
pub enum Taken<V = Value> {
    /// Its item waits on the channel.
    Kept(u32),
    /// Its item is for the callback of the channel, which the caller runs.
    Handed(u32, V),
    /// An end came on a channel without a callback.
    EndKept(u32),
    /// The end is for the callback of the channel, which the caller runs.
    EndHanded(u32, End),
    /// Nothing: the channel is closed, or its receiving direction has ended, or the number is not the peer's to open.
    Dropped,
    /// The peer asks how this side is. The caller answers on this number.
    Status(u32),
    /// The peer calls a function with this value on the channel, which is open now.
    Exec(u32, V),
    /// The peer ends the link.
    Terminate,
}

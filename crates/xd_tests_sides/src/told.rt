// What a call of a side gave, in a form that can be compared.
use xd_channel::{End, Got};
use xd_factory::{HookFault, Taken};
use xd_value::Value;

#[derive(Clone, Copy, Debug, PartialEq, Eq)]
pub enum Told {
    Item(i128),
    Channel(u32),
    /// A value that is neither an integer nor a channel.
    Other,
    Closed,
    LastMessage,
    Error,
    Lost,
    Nothing,
    Kept(u32),
    EndKept(u32),
    Status(u32),
    Exec(u32),
    Dropped,
    Terminate,
    Refused,
}

fn of_value(value: &Value) -> Told {
    match value {
        Value::Int(number) => Told::Item(*number),
        Value::Channel(number) => Told::Channel(*number),
        _ => Told::Other,
    }
}

fn of_end(end: &End) -> Told {
    match end {
        End::Closed => Told::Closed,
        End::LastMessage => Told::LastMessage,
        End::Error(_) => Told::Error,
        End::Lost => Told::Lost,
    }
}

/// What a receive gave.
pub fn of_got(got: Result<Got<Value>, HookFault>) -> Told {
    match got {
        Ok(Got::Item(value)) => of_value(&value),
        Ok(Got::Ended(end)) => of_end(&end),
        Ok(Got::NotYet) => Told::Nothing,
        Err(_) => Told::Refused,
    }
}

/// What a message did.
pub fn of_taken(taken: &Taken) -> Told {
    match taken {
        Taken::Kept(number) => Told::Kept(*number),
        Taken::EndKept(number) => Told::EndKept(*number),
        Taken::Status(number) => Told::Status(*number),
        Taken::Exec(number, _) => Told::Exec(*number),
        Taken::Dropped => Told::Dropped,
        Taken::Terminate => Told::Terminate,
        Taken::Handed(_, value) => of_value(value),
        Taken::EndHanded(_, end) => of_end(end),
    }
}

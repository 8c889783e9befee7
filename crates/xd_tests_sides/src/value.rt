// What is refused to be written, and what copies and channels are.
use std::alloc::Global;
use std::test::Fail;
use xd_edge::Blob;
use xd_value::{DumpFault, Value, dumps};
use xd_value_loads::loads;

fn payload_of(alloc: Global, value: &Value) -> Result<Blob, Fail> {
    Ok(dumps(alloc, value).ok().ok_or("not written")?)
}

fn refusal(alloc: Global, value: &Value) -> Option<DumpFault> {
    dumps(alloc, value).err()
}

fn two(alloc: Global, first: Value, second: Value) -> Result<Vec<Value>, Fail> {
    Ok(vec![in alloc; first, second]?)
}

// Lists that nest 65 deep with the tuple in them.
fn nested_value(alloc: Global) -> Result<Value, Fail> {
    let mut deep = Value::Tuple(Vec::new(alloc));
    for _ in 0..64 {
        deep = Value::List(vec![in alloc; deep]?);
    }
    Ok(deep)
}

// A set of two frozen sets that are the same.
fn same_twice(alloc: Global) -> Result<Value, Fail> {
    let first = Value::FrozenSet(two(alloc, Value::Int(1), Value::Int(2))?);
    let second = Value::FrozenSet(two(alloc, Value::Int(1), Value::Int(2))?);
    Ok(Value::FrozenSet(two(alloc, first, second)?))
}

#[test]
fn refusals_to_write(rt: HostRuntime) -> Result<(), Fail> {
    let alloc = rt.alloc();
    let deep = nested_value(alloc)?;
    assert_eq!(rt; refusal(alloc, &deep), Some(DumpFault::TooDeep));
    let inner = Value::List(Vec::new(alloc));
    let set = Value::Set(two(alloc, Value::None, inner)?);
    assert_eq!(rt; refusal(alloc, &set), Some(DumpFault::Unhashable));
    let set = same_twice(alloc)?;
    assert_eq!(rt; refusal(alloc, &set), Some(DumpFault::Repeated));
    assert_eq!(rt;
        refusal(alloc, &Value::Channel(0)),
        Some(DumpFault::BadChannel)
    );
    assert_eq!(rt;
        refusal(alloc, &Value::Channel(0x8000_0000)),
        Some(DumpFault::BadChannel)
    );
    let long = Value::Bytes(Blob::from_vec(vec![in alloc; 0; 16_777_211]?));
    assert_eq!(rt; refusal(alloc, &long), Some(DumpFault::TooLong));
    Ok(())
}

#[test]
fn order_of_items_and_truth_values_count(rt: HostRuntime) -> Result<(), Fail> {
    let alloc = rt.alloc();
    let first = Value::FrozenSet(two(alloc, Value::Int(1), Value::Int(2))?);
    let second = Value::FrozenSet(two(alloc, Value::Int(2), Value::Int(1))?);
    let set = Value::Set(two(alloc, first, second)?);
    let written = payload_of(alloc, &set)?;
    assert!(rt; loads(alloc, written.as_slice()).is_ok());
    let set = Value::Set(two(alloc, Value::Bool(true), Value::Int(1))?);
    assert!(rt; dumps(alloc, &set).is_ok());
    Ok(())
}

#[test]
fn a_copy_and_its_channels(rt: HostRuntime) -> Result<(), Fail> {
    let alloc = rt.alloc();
    let inner = vec![in alloc; Value::Channel(2)]?;
    let value = Value::List(two(alloc, Value::Channel(4), Value::Tuple(inner))?);
    let copy = value.copy(alloc)?;
    let written = payload_of(alloc, &copy)?;
    assert_eq!(rt; written.as_slice(), payload_of(alloc, &value)?.as_slice());
    let channels = copy.channels(alloc)?;
    assert_eq!(rt; channels.items.as_slice(), [4, 2].as_slice());
    Ok(())
}

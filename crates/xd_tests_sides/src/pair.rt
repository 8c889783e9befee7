use crate::told::{Told, of_got, of_taken};
use xd_channel::End;
use xd_factory::Parity;
use xd_pair::LinkedSide;
use xd_value::Value;

fn heard(side: &mut LinkedSide, number: u32) -> Told {
    of_got(side.receive(number))
}

fn took(side: &mut LinkedSide, peer: &mut LinkedSide) -> Told {
    match side.take(peer) {
        Ok(Some(taken)) => of_taken(&taken),
        Ok(None) => Told::Nothing,
        Err(_) => Told::Refused,
    }
}

fn opened(side: &mut LinkedSide) -> Option<u32> {
    side.open_channel().ok()
}

fn is_sent(side: &mut LinkedSide, number: u32, value: &Value) -> bool {
    side.send(number, value).is_ok()
}

fn is_closed(side: &mut LinkedSide, number: u32) -> bool {
    side.close(number, None).is_ok()
}

// How many items a callback was handed when it was set, and whether the end was Closed.
fn hooked(side: &mut LinkedSide, number: u32) -> Option<(usize, bool)> {
    match side.set_callback(number) {
        Ok(waiting) => Some((
            waiting.items.len(),
            matches!(waiting.end, Some(End::Closed)),
        )),
        Err(_) => None,
    }
}

// The channel of the one callback that is owed an end, and whether that is that the link is lost.
fn owed(side: &mut LinkedSide) -> Option<(u32, bool)> {
    match side.finish_receiving() {
        Ok(ends) if ends.len() == 1 => Some((ends[0].0, matches!(ends[0].1, End::Lost))),
        Ok(_) | Err(_) => None,
    }
}

// A function is called on 1, a STATUS is asked on 3, the channel 5 is let go, and the link ends.
fn ask_all(side: &mut LinkedSide) -> bool {
    side.call(1, &Value::Int(1)).is_ok()
        && side.ask(3).is_ok()
        && side.give_up(5).is_ok()
        && side.terminate().is_ok()
}

// The STATUS is answered, and the function ends.
fn answer_all(side: &mut LinkedSide) -> bool {
    side.answer(3, &Value::Int(9)).is_ok() && side.end_function(1, None).is_ok()
}

#[test]
fn a_channel_travels_in_a_value(rt: HostRuntime) {
    let mut odd = LinkedSide::new(rt.alloc(), Parity::Odd);
    let mut even = LinkedSide::new(rt.alloc(), Parity::Even);
    assert_eq!(rt; opened(&mut odd), Some(1));
    assert_eq!(rt; opened(&mut odd), Some(3));
    assert!(rt; is_sent(&mut odd, 1, &Value::Channel(3)));
    assert!(rt; is_sent(&mut odd, 3, &Value::Int(7)));
    assert_eq!(rt; took(&mut even, &mut odd), Told::Kept(1));
    assert_eq!(rt; took(&mut even, &mut odd), Told::Kept(3));
    assert_eq!(rt; heard(&mut even, 1), Told::Channel(3));
    assert_eq!(rt; heard(&mut even, 3), Told::Item(7));
    assert_eq!(rt; heard(&mut even, 3), Told::Nothing);
    assert!(rt; is_closed(&mut even, 3));
    assert_eq!(rt; took(&mut odd, &mut even), Told::EndKept(3));
    assert_eq!(rt; heard(&mut odd, 3), Told::Closed);
    assert!(rt; !is_sent(&mut odd, 3, &Value::None));
}

#[test]
fn a_callback_is_handed_what_waits(rt: HostRuntime) {
    let mut odd = LinkedSide::new(rt.alloc(), Parity::Odd);
    let mut even = LinkedSide::new(rt.alloc(), Parity::Even);
    assert_eq!(rt; opened(&mut odd), Some(1));
    assert!(rt; is_sent(&mut odd, 1, &Value::Int(1)));
    assert!(rt; is_sent(&mut odd, 1, &Value::Int(2)));
    assert!(rt; is_closed(&mut odd, 1));
    for told in [Told::Kept(1), Told::Kept(1), Told::EndKept(1)] {
        assert_eq!(rt; took(&mut even, &mut odd), told);
    }
    assert_eq!(rt; hooked(&mut even, 1), Some((2, true)));
    assert_eq!(rt; hooked(&mut even, 1), Some((0, true)));
}

#[test]
fn the_end_of_the_link_reaches_each_channel(rt: HostRuntime) {
    let mut odd = LinkedSide::new(rt.alloc(), Parity::Odd);
    assert_eq!(rt; opened(&mut odd), Some(1));
    assert_eq!(rt; opened(&mut odd), Some(3));
    assert_eq!(rt; hooked(&mut odd, 1), Some((0, false)));
    assert_eq!(rt; owed(&mut odd), Some((1, true)));
    assert_eq!(rt; heard(&mut odd, 3), Told::Lost);
    assert_eq!(rt; opened(&mut odd), None);
}

#[test]
fn functions_and_questions_are_answered(rt: HostRuntime) {
    let mut odd = LinkedSide::new(rt.alloc(), Parity::Odd);
    let mut even = LinkedSide::new(rt.alloc(), Parity::Even);
    for number in [1, 3, 5] {
        assert_eq!(rt; opened(&mut odd), Some(number));
    }
    assert!(rt; ask_all(&mut odd));
    for told in [
        Told::Exec(1),
        Told::Status(3),
        Told::Dropped,
        Told::Terminate,
        Told::Nothing,
    ] {
        assert_eq!(rt; took(&mut even, &mut odd), told);
    }
    assert!(rt; answer_all(&mut even));
    for told in [Told::Kept(3), Told::EndKept(3), Told::EndKept(1)] {
        assert_eq!(rt; took(&mut odd, &mut even), told);
    }
    assert_eq!(rt; heard(&mut odd, 3), Told::Item(9));
}

// Sources and starters in memory.
use crate::lists::{none, one};
use std::alloc::Global;
use std::collections::VecDeque;
use std::sync::Wait;
use std::test::Fail;
use xd_edge::*;
use xd_link::*;
use xd_memory::*;

// What a read into four bytes gave; none where it failed.
fn heard<R: Wait + AllocGlobal>(rt: &R, source: &mut MemSource) -> Option<Vec<u8>> {
    let mut buffer = [0u8; 4];
    let Ok(count) = source.read(rt, &mut buffer) else {
        return None;
    };
    buffer[..count].to_vec(rt.alloc()).ok()
}

// Whether a read without room gives nothing.
fn hears_nothing<R: Wait>(rt: &R, source: &mut MemSource) -> bool {
    matches!(source.read(rt, &mut []), Ok(0))
}

#[test]
fn a_source_in_memory_gives_its_pieces_and_fails_by_its_plan(rt: HostRuntime) -> Result<(), Fail> {
    let alloc = rt.alloc();
    let bytes = Blob::of(alloc, &[1, 2, 3, 4, 5])?;
    let mut source = MemSource::new(bytes, one(alloc, 2)?, one(alloc, 1)?);
    let rows: [Option<&[u8]>; 3] = [Some(&[1, 2]), None, Some(&[3, 4, 5])];
    for wanted in rows {
        let found = heard(&rt, &mut source);
        assert!(rt; found.as_deref() == wanted);
    }
    assert!(rt; hears_nothing(&rt, &mut source) && !source.is_ended);
    assert!(rt; heard(&rt, &mut source).is_some_and(|bytes| bytes.is_empty()));
    assert!(rt; source.is_ended);
    assert_eq!(rt; source.plan.faults, 1);
    Ok(())
}

// A starter with one link, which gives the byte 7.
fn one_link(alloc: Global) -> Result<MemStarter, Fail> {
    let source = MemSource::new(Blob::of(alloc, &[7])?, none(alloc), none(alloc));
    let sink = MemSink::new(alloc, 4, none(alloc))?;
    let mut links = VecDeque::new(alloc);
    links.push_back((source, sink))?;
    Ok(MemStarter::new(alloc, links, none(alloc)))
}

fn started(
    alloc: Global,
    starter: &mut MemStarter,
    place: &Place,
) -> Option<Started<MemSource, MemSink>> {
    starter.start(alloc, place).ok()
}

// Kills the child of link 0, and waits for it twice.
fn is_ended<R: Wait>(rt: &R, starter: &mut MemStarter) -> bool {
    starter.kill(0).is_ok() && starter.reap(rt, 0).is_ok() && starter.reap(rt, 0).is_ok()
}

#[test]
fn a_starter_in_memory_hands_out_its_link(rt: HostRuntime) -> Result<(), Fail> {
    let mut starter = one_link(rt.alloc())?;
    let mut link = started(rt.alloc(), &mut starter, &Place::Own).ok_or("a link")?;
    assert_eq!(rt; link.link, 0);
    let found = heard(&rt, &mut link.source).ok_or("a byte")?;
    assert_eq!(rt; found.as_slice(), [7].as_slice());
    assert!(rt; is_ended(&rt, &mut starter));
    let begun = starter.begun.first().ok_or("a start")?;
    assert!(rt; begun.killed && begun.closed);
    assert_eq!(rt; begun.reaped, Reaped::More);
    Ok(())
}

// A child in the root folder, with a variable of its own.
fn popen(alloc: Global) -> Result<Place, Fail> {
    Ok(Place::Popen {
        chdir: Some(Text::of(alloc, "/")?),
        env: Env {
            items: vec![in alloc; (Text::of(alloc, "A")?, Text::of(alloc, "1")?)]?,
        },
    })
}

fn is_at_root(place: &Place) -> bool {
    match place {
        Place::Popen {
            chdir: Some(folder),
            ..
        } => folder.as_str() == "/",
        _ => false,
    }
}

#[test]
fn a_starter_in_memory_has_no_more_links_than_it_was_given(rt: HostRuntime) -> Result<(), Fail> {
    let alloc = rt.alloc();
    let mut starter = one_link(alloc)?;
    let place = popen(alloc)?;
    assert!(rt; started(alloc, &mut starter, &Place::Own).is_some());
    assert!(rt; started(alloc, &mut starter, &place).is_none());
    assert_eq!(rt; starter.starts.len(), 2);
    let noted = &starter.starts[1];
    assert!(rt; noted.failed && is_at_root(&noted.place));
    Ok(())
}

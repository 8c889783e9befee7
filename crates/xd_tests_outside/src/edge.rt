// The forms in memory of what is outside.
use std::alloc::Global;
use std::sync::Wait;
use std::test::Fail;
use xd_edge::*;
use xd_memory::*;

fn texts(alloc: Global, all: &[&str]) -> Result<Texts, Fail> {
    let mut items = Vec::new(alloc);
    for text in all {
        items.push(Text::of(alloc, text)?)?;
    }
    Ok(Texts { items })
}

fn numbers(alloc: Global, all: &[u32]) -> Result<Indices, Fail> {
    Ok(Indices {
        items: all.to_vec(alloc)?,
    })
}

// What a child wrote, and its end.
fn output_of<R: Wait + AllocGlobal>(
    rt: &R,
    children: &mut MemChildren,
    args: &Texts,
) -> Result<(Vec<u8>, ChildEnd), Fail> {
    let mut output = Vec::new(rt.alloc());
    if args.items.is_empty() {
        return Err(Fail::from("a program has a name"));
    }
    let mut child = children.start(rt.alloc(), &args.items)?;
    let mut buffer = [0u8; 2];
    for _ in rt.forever() {
        let n = children.read(rt, &mut child, &mut buffer)?;
        if n == 0 {
            return Ok((output, children.wait(rt, child)?));
        }
        output.extend_from_slice(&buffer[..n])?;
    }
    unreachable!()
}

fn starts(alloc: Global, children: &mut MemChildren, args: &Texts) -> bool {
    !args.items.is_empty() && children.start(alloc, &args.items).is_ok()
}

// Calls whose contracts no test holds, so that it is proved in seconds.

fn copy_of(text: &Text) -> Option<Text> {
    text.copy().ok()
}

fn bytes_copied(alloc: Global, bytes: &[u8]) -> Option<Blob> {
    Blob::of(alloc, bytes).ok()?.copy().ok()
}

fn wrote(sink: &mut MemSink, piece: &[u8]) -> Option<usize> {
    sink.write(piece).ok()
}

fn is_read(alloc: Global, files: &mut MemFiles, name: &Text, most: u64, wanted: &[u8]) -> bool {
    match files.read_file(alloc, name, most) {
        Ok(bytes) => bytes.as_slice() == wanted,
        Err(_) => false,
    }
}

fn is_too_large(alloc: Global, files: &mut MemFiles, name: &Text, most: u64) -> bool {
    matches!(files.read_file(alloc, name, most), Err(FileFault::TooLarge))
}

fn has_failed(alloc: Global, files: &mut MemFiles, name: &Text) -> bool {
    matches!(files.read_file(alloc, name, 2), Err(FileFault::Failed))
}

#[test]
fn a_text_and_bytes_are_copied(rt: HostRuntime) -> Result<(), Fail> {
    let text = Text::of(rt.alloc(), "a")?;
    let copy = copy_of(&text).ok_or("a copy")?;
    assert_eq!(rt; copy.as_str(), "a");
    assert!(rt; text.is_same(&copy));
    let blob = bytes_copied(rt.alloc(), &[1, 2]).ok_or("a copy")?;
    assert_eq!(rt; blob.as_slice(), [1, 2].as_slice());
    Ok(())
}

#[test]
fn a_listed_clock_never_falls(rt: HostRuntime) -> Result<(), Fail> {
    let mut clock = MemClock::new(vec![in rt.alloc(); 3, 2, 7]?);
    for moment in [3, 3, 7, 7] {
        assert_eq!(rt; clock.now(), moment);
    }
    Ok(())
}

#[test]
fn a_sink_in_memory_fails_at_the_calls_of_its_plan(rt: HostRuntime) -> Result<(), Fail> {
    let alloc = rt.alloc();
    let mut sink = MemSink::new(alloc, 3, numbers(alloc, &[1])?)?;
    assert_eq!(rt; wrote(&mut sink, &[1, 2]), Some(2));
    assert_eq!(rt; wrote(&mut sink, &[3]), None);
    assert_eq!(rt; wrote(&mut sink, &[3, 4]), Some(1));
    assert_eq!(rt; wrote(&mut sink, &[4]), None);
    sink.flush()?;
    assert_eq!(rt; sink.bytes.as_slice(), [1, 2, 3].as_slice());
    assert_eq!(rt; sink.flushed, 3);
    assert_eq!(rt; sink.plan.faults, 2);
    Ok(())
}

#[test]
fn files_in_memory_fail_at_the_calls_of_their_plan(rt: HostRuntime) -> Result<(), Fail> {
    let alloc = rt.alloc();
    let files = vec![in alloc; (Text::of(alloc, "a")?, Blob::of(alloc, &[1, 2])?, 3)]?;
    let mut files = MemFiles::new(alloc, files, numbers(alloc, &[2])?)?;
    let name = Text::of(alloc, "a")?;
    assert!(rt; is_read(alloc, &mut files, &name, 2, &[1, 2]));
    assert!(rt; is_too_large(alloc, &mut files, &name, 1));
    assert!(rt; has_failed(alloc, &mut files, &name));
    files.write_file(&name, &[3, 4, 5])?;
    assert!(rt; files.write_file(&name, &[6, 7, 8, 9]).is_err());
    assert!(rt; is_read(alloc, &mut files, &name, 3, &[3, 4, 5]));
    Ok(())
}

// The program `x y`, which prints two pieces and ends with status 5.
fn one_program(alloc: Global) -> Result<MemChildren, Fail> {
    let pieces = Blobs {
        items: vec![in alloc; Blob::of(alloc, &[1, 2, 3])?, Blob::of(alloc, &[4])?]?,
    };
    let prepared = vec![in alloc; (texts(alloc, &["x", "y"])?, pieces, ChildEnd::Status(5))]?;
    Ok(MemChildren::new(alloc, prepared, numbers(alloc, &[])?))
}

#[test]
fn a_program_in_memory_is_read_and_waited_for(rt: HostRuntime) -> Result<(), Fail> {
    let alloc = rt.alloc();
    let mut children = one_program(alloc)?;
    let (output, end) = output_of(&rt, &mut children, &texts(alloc, &["x", "y"])?)?;
    assert_eq!(rt; output.as_slice(), [1, 2, 3, 4].as_slice());
    assert_eq!(rt; end, ChildEnd::Status(5));
    assert!(rt; !starts(alloc, &mut children, &texts(alloc, &["x"])?));
    assert_eq!(rt; children.runs.len(), 2);
    Ok(())
}

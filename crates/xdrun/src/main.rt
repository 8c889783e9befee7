//! The program: `main`, which hands the real outside to the top call.
#![tactic(auto)]

ghost use Rattle.std.specs.Prelude.{◌≡◌, [], IfOk};
ghost use Rattle.std.specs.Process.{exit_status};

use std::alloc::Global;
use std::io::{BufWriter, ErrorKind};
use std::process::ExitCode;
use std::rt::Env;
use std::{env, io};
use xd_crew::{Slot, ThreadCrew, start_into};
use xd_edge::{OutSink, RealChildren, RealClock, RealFiles, Text, Texts};
use xd_real::RealStarter;
use xd_top::xdrun;

// The name that the program was started by, and the words after it.
fn words_of(rt: &(impl Env + AllocGlobal), alloc: Global) -> io::Result<(Text, Texts)> {
    let mut args = env::args(rt)?;
    let program = match args.next() {
        Some(word) => Text::from_string(word),
        None => Text::from_string(String::new(alloc)),
    };
    let mut items = Vec::new(alloc);
    for word in args {
        items.push(Text::from_string(word))?;
    }
    Ok((program, Texts { items }))
}

// Where a word is no UTF-8: a faulty command line, as no word at all is.
fn no_words(alloc: Global) -> (Text, Texts)
    ensures none { result.1 ≡ [] }
{
    let items = Vec::new(alloc);
    (Text::from_string(String::new(alloc)), Texts { items })
}

fn main(rt: HostRuntime) -> io::Result<ExitCode> {
    let alloc = rt.alloc();
    let (program, words) = match words_of(&rt, alloc) {
        Ok(found) => found,
        Err(fault) if fault.kind() == ErrorKind::OutOfMemory => return out_of_memory(&rt),
        Err(_) => no_words(alloc),
    };
    let Ok(writer) = BufWriter::new(alloc, rt.stdout()) else {
        return out_of_memory(&rt);
    };
    let (Ok(reading), Ok(running)) = (Slot::new(alloc), Slot::new(alloc)) else {
        return out_of_memory(&rt);
    };
    let (Ok(read_in), Ok(run_in)) = (reading.another(), running.another()) else {
        return out_of_memory(&rt);
    };
    let Ok(make) = Box::new(alloc, move || start_into(rt, alloc, &read_in)) else {
        return out_of_memory(&rt);
    };
    let make: Box<dyn Fn()> = make;
    let crew = ThreadCrew::new(rt, reading, make);
    let Ok(make) = Box::new(alloc, move || start_into(rt, alloc, &run_in)) else {
        return out_of_memory(&rt);
    };
    let make: Box<dyn Fn()> = make;
    let mut runner = ThreadCrew::new(rt, running, make);
    let mut files = RealFiles::new(&rt);
    let starter = RealStarter::new(&rt, alloc, program, rt.stdin());
    let children = RealChildren::new(rt);
    let mut clock = RealClock::new(&rt);
    let mut out = OutSink::new(writer);
    let mut err = OutSink::new(rt.stderr());
    match xdrun(
        &rt,
        alloc,
        &words.items,
        &mut files,
        starter,
        crew,
        children,
        &mut runner,
        &mut clock,
        &mut out,
        &mut err,
    ) {
        Ok(end) => Ok(ExitCode::from(end.status)),
        Err(_) => out_of_memory(&rt),
    }
}

// Says that memory ran out, for which the status is 6.
fn out_of_memory(rt: &impl Eprint) -> io::Result<ExitCode>
    ensures status { IfOk result (λ code. exit_status code ≡ 6) }
{
    eprintln!(rt; "xdrun: out of memory")?;
    Ok(ExitCode::from(6))
}

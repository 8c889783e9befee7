// The writing direction of a real link.
ghost use Rattle.std.specs.Prelude.{◌≡◌, None};

use crate::Outlet;
use std::fs::{Files, OpenOptions};
use std::io::Write;
use std::net::Net;
use std::process::{OpenProcess, Processes};
use xd_edge::{Failed, Sink, raise};

/// The writing direction of a real link, which tells nothing. A close ends it for good, also where what it holds could not
/// be handed on: a child's input ends, as it does where a write to it fails; a stream ends as its output says; the own
/// streams end both ways, so that a read which waits for the own input ends, too.
#[derive(Drop)]
pub struct RealSink<'a, H: Files + Processes + Net> {
    rt: &'a H,
    outlet: Option<Outlet<<H::Started as OpenProcess>::Stdin, H::Stream>>,
    // Takes the number of the closed standard output, so that a stray print is lost and not written into another file.
    plug: Option<H::File>,
    pub faults: u64,
}

impl<'a, H: Files + Processes + Net> RealSink<'a, H> {
    /// It has not failed yet.
    pub fn new(
        rt: &'a H,
        outlet: Outlet<<H::Started as OpenProcess>::Stdin, H::Stream>,
    ) -> RealSink<'a, H>
        ensures { result.faults ≡ 0 }
    {
        RealSink {
            rt,
            outlet: Some(outlet),
            plug: None,
            faults: 0,
        }
    }

    // Closes the input of a child that takes no more.
    fn leave_child(&mut self)
        ensures { self.new.faults ≡ self.old.faults }
    {
        if matches!(&self.outlet, Some(Outlet::Child(_))) {
            self.outlet = None;
        }
    }

    fn hand_on(&mut self) -> bool
        ensures { self.new.faults ≡ self.old.faults }
    {
        match &mut self.outlet {
            Some(outlet) => outlet.flush().is_ok(),
            None => false,
        }
    }

    // Whether what was open could be ended.
    fn end(&mut self) -> bool
        ensures { self.new.faults ≡ self.old.faults }
    {
        match self.outlet.take() {
            Some(Outlet::Own(own)) => {
                drop(own);
                self.plug = OpenOptions::new()
                    .write(true)
                    .open(self.rt, "/dev/null")
                    .ok();
                true
            }
            Some(Outlet::Stream(stream)) => stream.close().is_ok(),
            Some(Outlet::Child(_)) | None => true,
        }
    }
}

impl<'a, H: Files + Processes + Net> Sink for RealSink<'a, H> {
    ghost faults = { λ s. s.faults };

    ghost sunk = { λ _. None };

    fn write(&mut self, piece: &[u8]) -> Result<usize, Failed> {
        if let Some(outlet) = &mut self.outlet {
            if let Ok(n) = outlet.write(piece) {
                if n > 0 || piece.is_empty() {
                    return Ok(n);
                }
            }
        }
        self.leave_child();
        raise(&mut self.faults);
        Err(Failed)
    }

    fn flush(&mut self) -> Result<(), Failed> {
        if self.hand_on() {
            return Ok(());
        }
        raise(&mut self.faults);
        Err(Failed)
    }

    fn close(&mut self) -> Result<(), Failed> {
        let handed_on = self.hand_on();
        let ended = self.end();
        if handed_on && ended {
            return Ok(());
        }
        raise(&mut self.faults);
        Err(Failed)
    }
}

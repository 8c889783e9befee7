// What the parts of a spec that were read say together.
ghost use Rattle.std.specs.Prelude.{◌≡◌, IfOk, option_and_then, option_map};
ghost use Rattle.std.specs.Str.{chars};
ghost use Rattle.xd_spec.specs.Spec.{address_in, cut_at, is_bad_key, is_set, empty_draft, place, port_in};
ghost use Rattle.xd_spec.specs.Spec.{with_folder, with_key, with_pair, with_part, with_popen, with_socket, with_variable};

use crate::SpecFault;
use crate::cuts::{cut_at, cut_port};
use crate::numbers::number_in;
use std::alloc::Global;
use xd_edge::{Env, OutOfMemory, Text};
use xd_link::Place;

/// What the parts say: each key stands at most once.
#[derive(Drop)]
pub struct Draft {
    pub popen: bool,
    pub socket: Option<(Text, u16)>,
    pub chdir: Option<Text>,
    pub env: Env,
}

impl Draft {
    /// No part was read.
    pub fn new(alloc: Global) -> Draft
        ensures { result ≡ empty_draft }
    {
        Draft {
            popen: false,
            socket: None,
            chdir: None,
            env: Env {
                items: Vec::new(alloc),
            },
        }
    }

    /// With one part more.
    pub fn with_part(
        self,
        alloc: Global,
        part: &str,
    ) -> Result<Result<Draft, SpecFault>, OutOfMemory>
        ensures { IfOk result (λ r. r ≡ with_part self part.now) }
    {
        match cut_at('=', part) {
            Some((key, value)) => self.with_key(alloc, key, Some(value)),
            None => self.with_key(alloc, part, None),
        }
    }

    fn with_key(
        self,
        alloc: Global,
        key: &str,
        value: Option<&str>,
    ) -> Result<Result<Draft, SpecFault>, OutOfMemory>
        ensures { IfOk result (λ r.
            r ≡ with_key self key.now (option_map (λ v. v.now) value.entry)) }
    {
        if is_bad_key(key) {
            Ok(Err(SpecFault::BadKey))
        } else if key == "popen" {
            Ok(self.with_popen(value))
        } else if key == "socket" {
            self.with_socket(alloc, value)
        } else if key == "chdir" {
            self.with_folder(alloc, value)
        } else {
            self.with_pair(alloc, key, value)
        }
    }

    fn with_popen(self, value: Option<&str>) -> Result<Draft, SpecFault>
        ensures { result ≡ with_popen self (option_map (λ v. v.now) value.entry) }
    {
        if value.is_some() {
            return Err(SpecFault::BadKey);
        }
        if self.popen {
            return Err(SpecFault::Twice);
        }
        Ok(Draft {
            popen: true,
            ..self
        })
    }

    fn with_socket(
        self,
        alloc: Global,
        value: Option<&str>,
    ) -> Result<Result<Draft, SpecFault>, OutOfMemory>
        ensures { IfOk result (λ r.
            r ≡ with_socket self
            (option_and_then address_in (option_map (λ v. v.now) value.entry))) }
    {
        let Some(value) = value else {
            return Ok(Err(SpecFault::BadKey));
        };
        let Some((host, port)) = address_in(value) else {
            return Ok(Err(SpecFault::BadKey));
        };
        if self.socket.is_some() {
            return Ok(Err(SpecFault::Twice));
        }
        let host = Text::of(alloc, host)?;
        Ok(Ok(Draft {
            socket: Some((host, port)),
            ..self
        }))
    }

    fn with_folder(
        self,
        alloc: Global,
        value: Option<&str>,
    ) -> Result<Result<Draft, SpecFault>, OutOfMemory>
        ensures { IfOk result (λ r. r ≡ with_folder self (option_map (λ v. v.now) value.entry)) }
    {
        let Some(value) = value else {
            return Ok(Err(SpecFault::BadKey));
        };
        if self.chdir.is_some() {
            return Ok(Err(SpecFault::Twice));
        }
        let folder = Text::of(alloc, value)?;
        Ok(Ok(Draft {
            chdir: Some(folder),
            ..self
        }))
    }

    // A key of two parts: a variable.
    fn with_pair(
        self,
        alloc: Global,
        key: &str,
        value: Option<&str>,
    ) -> Result<Result<Draft, SpecFault>, OutOfMemory>
        ensures { IfOk result (λ r.
            r ≡ with_pair self (cut_at 58 key.now) (option_map (λ v. v.now) value.entry)) }
    {
        match cut_at(':', key) {
            Some((kind, name)) if kind == "env" && !name.is_empty() => {
                self.with_variable(alloc, name, value)
            }
            _ => Ok(Err(SpecFault::Unsupported)),
        }
    }

    fn with_variable(
        self,
        alloc: Global,
        name: &str,
        value: Option<&str>,
    ) -> Result<Result<Draft, SpecFault>, OutOfMemory>
        ensures { IfOk result (λ r.
            r ≡ with_variable self name.now (option_map (λ v. v.now) value.entry)) }
    {
        let Some(value) = value else {
            return Ok(Err(SpecFault::BadKey));
        };
        let name = Text::of(alloc, name)?;
        if is_set(&name, &self.env.items) {
            return Ok(Err(SpecFault::Twice));
        }
        let value = Text::of(alloc, value)?;
        let Draft {
            popen,
            socket,
            chdir,
            mut env,
        } = self;
        env.items.push((name, value))?;
        Ok(Ok(Draft {
            popen,
            socket,
            chdir,
            env,
        }))
    }

    /// The place that the parts name together.
    pub fn place(self) -> Result<Place, SpecFault>
        ensures { result ≡ place self.popen self.socket self.chdir self.env }
    {
        match (self.popen, self.socket, self.chdir) {
            (true, None, chdir) => Ok(Place::Popen {
                chdir,
                env: self.env,
            }),
            (false, Some((host, port)), None) if self.env.items.is_empty() => {
                Ok(Place::Socket { host, port })
            }
            _ => Err(SpecFault::Unsupported),
        }
    }
}

// A key that no spec may have.
fn is_bad_key(key: &str) -> bool
    ensures { result ≡ is_bad_key key.now }
{
    match key.as_bytes() {
        [] => true,
        [first, ..] => *first == b'_',
    }
}

// A variable of this name is among these.
fn is_set(name: &Text, env: &[(Text, Text)]) -> bool
    ensures { result ≡ is_set name.now env.now }
{
    for variable in env {
        if variable.0.is_same(name) {
            return true;
        }
    }
    false
}

/// The host and the port of HOST:PORT, which is cut at its last `:`. The host is not empty, and the port is from 1 to 65,535,
/// in one to five digits.
pub fn address_in(value: &str) -> Option<(&str, u16)>
    ensures { option_map (λ a. (chars a.0.now, a.1)) result ≡ address_in value.now }
{
    let (host, port) = cut_port(value)?;
    if host.is_empty() {
        return None;
    }
    let port = port_in(port)?;
    Some((host, port))
}

fn port_in(digits: &str) -> Option<u16>
    ensures { result ≡ port_in digits.now }
{
    if digits.len() > 5 {
        return None;
    }
    let number = number_in(65_535, digits)?;
    if number == 0 {
        return None;
    }
    Some(number as u16)
}

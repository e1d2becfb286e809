// The links of the system: TCP connections.
ghost use Rattle.std.specs.Prelude.{◌≡◌, None, IfOk, IsOk, IsSome};
ghost use Rattle.std.specs.Io.KnownBytes.{ReadConsumes, WriteAppends};
ghost use Rattle.tacd.specs.Prelude.{HasCause, NotesFailure, Reads, Takes};

use std::env::{Env, FillError};
use std::io::{ErrorKind, Read, Write};
use std::net::{IpAddr, Net, TcpListener, TcpStream};
use tac_io::{Failed, Link, Links};

/// A stream as a link, such as a TCP connection. It counts its faults. No clause says what goes over it. For every stream whose content is
/// known, clauses of `read` and `write` say that it passes on what the stream gave or took, and a failure as a fault.
#[derive(Drop)]
pub(crate) struct TcpLink<S> {
    stream: S,
    faults: u64,
    write_faults: u64,
}

impl<S> TcpLink<S> {
    /// Nothing went over the stream yet.
    pub(crate) fn new(stream: S) -> TcpLink<S>
        ensures stream { result.stream ≡ stream }
        ensures faults { (result.faults ≡ 0) × (result.write_faults ≡ 0) }
    {
        TcpLink {
            stream,
            faults: 0,
            write_faults: 0,
        }
    }
}

impl<S: Read + Write> Link for TcpLink<S> {
    ghost use Rattle.std.specs.Prelude.{None};

    ghost state = { λ s. record {
      taken = None;
      left = None;
      sent = None;
      reads = s.faults;
      writes = s.write_faults;
      read_failures = None;
      write_failures = None;
    } };

    fn read(&mut self, into: &mut [u8]) -> Result<usize, Failed>
        ensures bytes { Reads None None result into.new }
        ensures cause { HasCause self.old.faults self.new.faults result }
        ensures noted { NotesFailure None None None result }
        ensures write_faults { self.new.write_faults ≡ self.old.write_faults }
        ensures passed { ReadConsumes (S.remaining self.old.stream) (S.remaining self.new.stream) result into.new }
    {
        match self.stream.read(into) {
            Ok(count) => Ok(count),
            Err(_) => {
                self.faults = self.faults.saturating_add(1);
                Err(Failed)
            }
        }
    }

    fn write(&mut self, piece: &[u8]) -> Result<usize, Failed>
        ensures bytes { Takes None None result piece.now }
        ensures cause { HasCause self.old.write_faults self.new.write_faults result }
        ensures noted { NotesFailure None None None result }
        ensures read_faults { self.new.faults ≡ self.old.faults }
        ensures passed { WriteAppends (S.contents self.old.stream) (S.contents self.new.stream) result piece.now }
    {
        match self.stream.write(piece) {
            Ok(count) if count > 0 => Ok(count),
            _ => {
                self.write_faults = self.write_faults.saturating_add(1);
                Err(Failed)
            }
        }
    }

    fn faults(&self) -> u64 {
        self.faults
    }

    fn write_faults(&self) -> u64 {
        self.write_faults
    }
}

/// The TCP connections to a port, at the address in the variable `TAC_BIND`, or on every address of the machine if it is not set. They
/// count their faults.
#[derive(Drop)]
pub(crate) struct TcpLinks<'a, R> {
    rt: &'a R,
    listener: Option<TcpListener>,
    faults: u64,
}

impl<'a, R: Net<Listener = TcpListener, Stream = TcpStream>> TcpLinks<'a, R> {
    /// They do not listen yet.
    pub(crate) fn new(rt: &'a R) -> TcpLinks<'a, R>
        ensures listener { result.listener ≡ None }
        ensures faults { result.faults ≡ 0 }
    {
        TcpLinks {
            rt,
            listener: None,
            faults: 0,
        }
    }

    /// Returns the link of a connection. None is a fault, and not the end of the links, since peers may come at any time.
    fn link_or_fault(
        &mut self,
        stream: Option<TcpStream>,
    ) -> Result<Option<TcpLink<TcpStream>>, Failed>
        ensures link { IfOk result IsSome }
        ensures some { IsSome stream → IsOk result }
        ensures listener { self.new.listener ≡ self.old.listener }
        ensures cause { HasCause self.old.faults self.new.faults result }
    {
        match stream {
            Some(stream) => Ok(Some(TcpLink::new(stream))),
            None => {
                self.faults = self.faults.saturating_add(1);
                Err(Failed)
            }
        }
    }
}

/// Listens at a port of the address in the variable `TAC_BIND`, or of every address of the machine if it is not set. None if it cannot.
fn bind<R: Net<Listener = TcpListener, Stream = TcpStream> + Env>(
    rt: &R,
    port: u16,
) -> Option<TcpListener> {
    // No address is longer than this.
    let mut address = [0u8; 45];
    match rt.var("TAC_BIND", &mut address) {
        Ok(length) => {
            let address = str::from_utf8(&address[..length]).ok()?;
            let address = address.parse::<IpAddr>().ok()?;
            TcpListener::bind(rt, (address, port)).ok()
        }
        Err(FillError::TooLong) => None,
        // If the machine has no IPv6 addresses, they listen on its IPv4 addresses.
        Err(FillError::NotPresent) => match TcpListener::bind(rt, ("::", port)) {
            Ok(listener) => Some(listener),
            Err(_) => TcpListener::bind(rt, ("0.0.0.0", port)).ok(),
        },
    }
}

/// Waits for a connection, and returns it; None if it cannot wait any more.
fn accept(listener: &TcpListener) -> Option<TcpStream> {
    for _ in 0..u64::MAX {
        match listener.accept() {
            Ok((stream, _)) => {
                // A reply is one short line, to be sent at once. If this option cannot be set, the reply is sent all the same.
                let _ = stream.set_nodelay(true);
                return Some(stream);
            }
            // A peer that went away before it was taken does not end the game.
            Err(error) if error.kind() == ErrorKind::ConnectionAborted => {}
            Err(_) => return None,
        }
    }
    None
}

impl<'a, R: Net<Listener = TcpListener, Stream = TcpStream> + Env> Links for TcpLinks<'a, R> {
    ghost use Rattle.std.specs.Prelude.{None, is_some};

    type Link = TcpLink<TcpStream>;

    ghost state = { λ s. record { listens = is_some s.listener; ports = None; pending = None; faults = s.faults } };

    fn listen(&mut self, port: u16) -> Result<(), Failed> {
        match bind(self.rt, port) {
            Some(listener) => {
                self.listener = Some(listener);
                Ok(())
            }
            None => {
                self.faults = self.faults.saturating_add(1);
                Err(Failed)
            }
        }
    }

    fn next(&mut self) -> Result<Option<TcpLink<TcpStream>>, Failed> {
        let stream = accept(self.listener.as_ref().unwrap());
        self.link_or_fault(stream)
    }

    fn faults(&self) -> u64 {
        self.faults
    }
}

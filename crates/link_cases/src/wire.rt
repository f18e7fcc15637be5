//! What a switch talks over.
//!
//! Layer: tests; private. Called by many modules.
ghost use Rattle.std.specs.Prelude.{◌≤◌, ◌<◌, length, IfSome};

use outside_net::Link;
use std::io::{Read, Write};
use std::net::{Ipv4Addr, Net as Sockets, SocketAddr, TcpListener, TcpStream};
use std::thread;
use std::time::{Clock, Duration};

/// Bytes go both ways over it.
pub trait Wire: Drop {
    /// Opens it, and says whether it is open.
    fn open(&mut self) -> bool;

    /// Sends bytes, and says whether it did.
    fn put(&mut self, bytes: &[u8]) -> bool;

    /// Waits for bytes; there are none if the other side is gone.
    fn get(&mut self, place: &mut [u8]) -> Option<usize>
        requires { 0 < length place.old }
        ensures { IfSome result (λ n. n ≤ length place.new) };
}

/// One end of a pair in memory.
#[derive(Drop)]
pub struct LinkWire<E: Link> {
    end: E,
}

impl<E: Link> LinkWire<E> {
    /// Over this end.
    pub fn new(end: E) -> LinkWire<E> {
        LinkWire { end }
    }
}

impl<E: Link> Wire for LinkWire<E> {
    fn open(&mut self) -> bool {
        true
    }

    fn put(&mut self, bytes: &[u8]) -> bool {
        self.end.make_room(bytes.len()).is_ok() && self.end.send(bytes).is_ok()
    }

    fn get(&mut self, place: &mut [u8]) -> Option<usize> {
        if self.end.make_room(place.len()).is_err() {
            return None;
        }
        self.end.recv(place).ok()
    }
}

/// A stream to a port of this machine, which it comes in at after some milliseconds.
#[derive(Drop)]
pub struct PortWire<R> {
    rt: R,
    port: u16,
    after: u64,
    stream: Option<TcpStream>,
}

// How often it looks for the port, and how long it waits between.
const TRIES: u32 = 500;

const PAUSE: u64 = 10;

impl<R> PortWire<R> {
    /// It did not come in yet.
    pub fn new(rt: R, port: u16, after: u64) -> PortWire<R> {
        PortWire {
            rt,
            port,
            after,
            stream: None,
        }
    }
}

impl<R: Sockets<Stream = TcpStream, Listener = TcpListener> + Clock + Drop> Wire for PortWire<R> {
    fn open(&mut self) -> bool {
        thread::sleep(&self.rt, Duration::from_millis(self.after));
        for _ in 0..TRIES {
            let address = SocketAddr::from((Ipv4Addr::LOCALHOST, self.port));
            if let Ok(stream) = TcpStream::connect(&self.rt, address) {
                self.stream = Some(stream);
                return true;
            }
            thread::sleep(&self.rt, Duration::from_millis(PAUSE));
        }
        false
    }

    fn put(&mut self, bytes: &[u8]) -> bool {
        match &mut self.stream {
            Some(stream) => stream.write_all(bytes).is_ok(),
            None => false,
        }
    }

    fn get(&mut self, place: &mut [u8]) -> Option<usize> {
        match &mut self.stream {
            Some(stream) => match stream.read(place) {
                Ok(0) => None,
                Ok(count) => Some(count),
                Err(_) => None,
            },
            None => None,
        }
    }
}

//! Ends over TCP, in pairs or for peers that come in.
//!
//! Layer: runs; public. Called by `tcp` here, and by link_cases and nkctl.
ghost use Rattle.std.specs.Prelude.{None};

use super::TcpEnd;
use crate::net::{Net, NetError, NetFault};
use std::io;
use std::net::{Ipv4Addr, Net as Sockets, SocketAddr, TcpListener, TcpStream};
use std::time::Clock;

// How often an end looks for its peer, if nothing else is asked for: for a minute.
const LOOKS: u32 = 6000;

/// Streams over this machine's own loopback address: pairs, at ports that the system gives, and peers that come in.
#[derive(Drop)]
pub struct TcpNet<R> {
    rt: R,
    looks: u32,
    faults: u64,
    broken: u64,
}

impl<R> TcpNet<R> {
    /// Nothing was made. A peer has a minute to come in; if it does not, its end fails.
    pub fn new(rt: R) -> TcpNet<R> {
        TcpNet::with_looks(rt, LOOKS)
    }

    /// The same, but an end looks this often for its peer, once in ten milliseconds. From 1 on.
    pub fn with_looks(rt: R, looks: u32) -> TcpNet<R> {
        TcpNet {
            rt,
            looks: looks.max(1),
            faults: 0,
            broken: 0,
        }
    }
}

// Both ends of one connection, on which no message waits for more bytes to go with it.
fn connect<R: Sockets<Stream = TcpStream, Listener = TcpListener>>(
    rt: &R,
) -> io::Result<(TcpStream, TcpStream)> {
    let listener = TcpListener::bind(rt, "127.0.0.1:0")?;
    let here = TcpStream::connect(rt, listener.local_addr()?)?;
    let (there, _) = listener.accept()?;
    here.set_nodelay(true)?;
    there.set_nodelay(true)?;
    Ok((here, there))
}

// A port of this machine at which peers may come in. Whoever looks there does not wait.
pub(crate) fn listen<R: Sockets<Stream = TcpStream, Listener = TcpListener>>(
    rt: &R,
    port: u16,
) -> io::Result<TcpListener> {
    let door = TcpListener::bind(rt, SocketAddr::from((Ipv4Addr::LOCALHOST, port)))?;
    door.set_nonblocking(true)?;
    Ok(door)
}

impl<R: Sockets<Stream = TcpStream, Listener = TcpListener> + Clock + Copy + Drop + Send> Net
    for TcpNet<R> {
    type End = TcpEnd<R>;

    ghost faults = { λ n. n.faults };

    ghost broken = { λ n. n.broken };

    ghost gathered = { λ n. None };

    fn pair(&mut self, name: u32) -> Result<(TcpEnd<R>, TcpEnd<R>), NetError> {
        match connect(&self.rt) {
            Ok((here, there)) => Ok((
                TcpEnd::new(self.rt, here, name),
                TcpEnd::new(self.rt, there, name),
            )),
            Err(_) => {
                self.faults = self.faults.saturating_add(1);
                Err(NetError::Fault(NetFault::Broken))
            }
        }
    }

    fn meet(&mut self, port: u16, name: u32) -> Result<TcpEnd<R>, NetError> {
        match listen(&self.rt, port) {
            Ok(door) => Ok(TcpEnd::at(self.rt, door, self.looks, name)),
            Err(_) => {
                self.faults = self.faults.saturating_add(1);
                Err(NetError::Fault(NetFault::Broken))
            }
        }
    }

    fn take_back(&mut self, end: TcpEnd<R>) {
        if end.faults > 0 {
            self.broken = self.broken.saturating_add(1);
        }
    }
}

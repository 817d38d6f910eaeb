//! A TCP listener, bound when it is first needed.
ghost use Rattle.std.specs.Prelude.{◌≡◌, ◌↔◌, ◌≤◌, false, IsSome, IsOk, IsTrue, IfOk, is_some, length};

use bt_outside::LinkFailed;
use std::io::{ErrorKind, Read};
use std::net::{Net, SocketAddr, TcpListener, TcpStream};

// How often a call is made again that was interrupted, or met a connection that had gone.
const TRIES: u32 = 65536;

/// An address with its listener, which is there once the address is bound.
#[derive(Drop)]
pub struct Listener<'r, R: Net<Listener = TcpListener, Stream = TcpStream>> {
    rt: &'r R,
    address: &'r str,
    pub bound: Option<TcpListener>,
}

impl<'r, R: Net<Listener = TcpListener, Stream = TcpStream>> Listener<'r, R> {
    pub fn new(rt: &'r R, address: &'r str) -> Listener<'r, R>
        ensures { is_some result.bound ≡ false }
    {
        Listener {
            rt,
            address,
            bound: None,
        }
    }

    /// Binds the address, where it is not bound.
    pub fn bind(&mut self) -> Result<(), LinkFailed>
        ensures bound { IsOk result ↔ IsTrue (is_some self.new.bound) }
        ensures again { IsTrue (is_some self.old.bound) → IsOk result }
    {
        if self.bound.is_some() {
            return Ok(());
        }
        match TcpListener::bind(self.rt, self.address) {
            Ok(listener) => {
                self.bound = Some(listener);
                Ok(())
            }
            Err(_) => Err(LinkFailed),
        }
    }

    /// The address that is bound, with its port.
    pub fn local_address(&self) -> Option<SocketAddr>
        ensures { IsSome result → IsTrue (is_some self.now.bound) }
    {
        self.bound.as_ref()?.local_addr().ok()
    }

    /// Waits for the next connection. It binds the address first, where it is not bound.
    pub fn accept(&mut self) -> Result<TcpStream, LinkFailed>
        ensures { IsTrue (is_some self.old.bound) → IsTrue (is_some self.new.bound) }
    {
        self.bind()?;
        match &self.bound {
            Some(listener) => accept_from(listener),
            None => Err(LinkFailed),
        }
    }
}

// Whether an accept met a connection that had gone. The listener is as good as before.
fn has_gone(kind: ErrorKind) -> bool {
    matches!(
        kind,
        ErrorKind::ConnectionAborted | ErrorKind::ConnectionReset
    )
}

fn accept_from(listener: &TcpListener) -> Result<TcpStream, LinkFailed> {
    for _ in 0..TRIES {
        match listener.accept() {
            Ok((stream, _)) => {
                // Where the system refuses, replies may come later, and are the same.
                let _ = stream.set_nodelay(true);
                return Ok(stream);
            }
            Err(e) if has_gone(e.kind()) => {}
            Err(_) => return Err(LinkFailed),
        }
    }
    Err(LinkFailed)
}

/// Reads some bytes, and answers how many. It answers 0 at the end.
pub fn read_some(stream: &mut TcpStream, into: &mut [u8]) -> Result<usize, LinkFailed>
    ensures { IfOk result (λ n. n ≤ length into.old) }
{
    for _ in 0..TRIES {
        match stream.read(into) {
            Ok(count) => return Ok(count),
            Err(e) if e.kind() == ErrorKind::Interrupted => {}
            Err(_) => return Err(LinkFailed),
        }
    }
    Err(LinkFailed)
}

//! The connections of a TCP listener.
ghost use Rattle.std.specs.Prelude.{◌≡◌, ◌↔◌, ◌≤◌, None, [], false, is_some, length, IsSome, IsOk, IsErr, IsTrue, IfOk, OnErr};
ghost use Rattle.bt_base.specs.Counts.{Counts};
ghost use Rattle.bt_real.specs.Counted.{unbound, Gave};

use crate::link_tally::LinkTally;
use crate::listener::{Listener, read_some};
use bt_outside::{Disk, LinkFailed, Links};
use std::io::Write;
use std::marker::Model;
use std::net::{Net, Shutdown, SocketAddr, TcpListener, TcpStream};

/// The connections of a TCP listener, one after another, and at most so many.
///
/// A connection that fails is over at the next call of `next` or of `close`, and no other ends by
/// it. One that has gone before it is accepted is passed over, and uses up none of the count. Small
/// pieces leave at once (`TCP_NODELAY`), where the system allows that.
///
/// A read or a write without a connection at hand fails. Calls wait for the other side as long as
/// it takes. The links count their failures, and tell no bytes.
#[derive(Drop)]
pub struct TcpLinks<'r, R: Net<Listener = TcpListener, Stream = TcpStream>> {
    listener: Listener<'r, R>,
    left: u32,
    stream: Option<TcpStream>,
    tally: LinkTally,
}

impl<'r, R: Net<Listener = TcpListener, Stream = TcpStream>> Model for TcpLinks<'r, R> {
    ghost use Rattle.std.specs.Prelude.{is_some};
    ghost use Rattle.bt_real.specs.Counted.{Listened};

    ghost Value = { Listened };

    ghost view = { λ l. record {
      bound = is_some l.listener.bound;
      left = l.left;
      at_hand = is_some l.stream;
      faults = l.tally.faults;
      next_faults = l.tally.next_faults;
    } };
}

impl<'r, R: Net<Listener = TcpListener, Stream = TcpStream>> TcpLinks<'r, R> {
    /// The next `count` connections to that address, which is a host and a port, as in
    /// `127.0.0.1:7070`; for port 0 the system chooses one. Nothing is bound yet.
    pub fn new(rt: &'r R, address: &'r str, count: u32) -> TcpLinks<'r, R>
        ensures { result ≡ unbound count }
    {
        TcpLinks {
            listener: Listener::new(rt, address),
            left: count,
            stream: None,
            tally: LinkTally::new(),
        }
    }

    /// Binds the address, so that clients can connect from now on. Where it is bound, nothing is
    /// done. Where nobody has bound it, the first `next` does. A failure is counted as one of `next`.
    pub fn bind(&mut self) -> Result<(), LinkFailed>
        ensures bound { IsOk result ↔ IsTrue self.new.bound }
        ensures again { IsTrue self.old.bound → IsOk result }
        ensures faults { Counts self.old.faults self.new.faults result }
        ensures next_faults { Counts self.old.next_faults self.new.next_faults result }
        ensures others { self.new ≡ record self.old { bound = self.new.bound; faults = self.new.faults; next_faults = self.new.next_faults } }
    {
        let done = self.listener.bind().is_ok();
        self.tally.next(done)
    }

    /// The address that is bound, with the port that the system chose. None where none is bound,
    /// and where the system does not tell it.
    pub fn local_address(&self) -> Option<SocketAddr>
        ensures { IsSome result → IsTrue self.now.bound }
    {
        self.listener.local_address()
    }
}

// The clauses of a method stand in place of the trait's. They repeat those of the counts, and say
// of the connections what holds of these links alone.
impl<D: Disk, R: Net<Listener = TcpListener, Stream = TcpStream>> Links<D> for TcpLinks<'_, R> {
    ghost tells = { ⊥ };

    ghost left = { λ _. [] };

    ghost at_hand = { λ _. None };

    ghost sent = { λ _. [] };

    ghost noted = { λ _. None };

    ghost faults = { λ l. l.faults };

    ghost next_faults = { λ l. l.next_faults };

    fn next(&mut self) -> Result<bool, LinkFailed>
        ensures faults { Counts self.old.faults self.new.faults result }
        ensures next_faults { Counts self.old.next_faults self.new.next_faults result }
        ensures given { IfOk result (λ more. Gave more self.old.left self.new.left) }
        ensures at_hand { IfOk result (λ more. self.new.at_hand ≡ more) }
        ensures kept { OnErr result ((self.new.left ≡ self.old.left) × (self.new.at_hand ≡ false)) }
        ensures over { self.old.left ≡ 0 → IsOk result }
        ensures bound { IsTrue self.old.bound → IsTrue self.new.bound }
    {
        shut(&mut self.stream);
        if self.left == 0 {
            return Ok(false);
        }
        self.stream = self.listener.accept().ok();
        self.tally.next(self.stream.is_some())?;
        self.left -= 1;
        Ok(true)
    }

    fn read(&mut self, into: &mut [u8]) -> Result<usize, LinkFailed>
        ensures count { IfOk result (λ n. n ≤ length into.old) }
        ensures faults { Counts self.old.faults self.new.faults result }
        ensures next_faults { self.new.next_faults ≡ self.old.next_faults }
        ensures others { self.new ≡ record self.old { faults = self.new.faults } }
        ensures missing { self.old.at_hand ≡ false → IsErr result }
    {
        let count = match &mut self.stream {
            Some(stream) => read_some(stream, into),
            None => Err(LinkFailed),
        };
        self.tally.transfer(count.is_ok())?;
        count
    }

    // A reply leaves in one piece.
    fn write(&mut self, bytes: &[u8], _disk: &D) -> Result<(), LinkFailed>
        ensures faults { Counts self.old.faults self.new.faults result }
        ensures next_faults { self.new.next_faults ≡ self.old.next_faults }
        ensures others { self.new ≡ record self.old { faults = self.new.faults } }
        ensures missing { self.old.at_hand ≡ false → IsErr result }
    {
        let done = match &mut self.stream {
            Some(stream) => stream.write_all(bytes).is_ok(),
            None => false,
        };
        self.tally.transfer(done)
    }

    fn close(&mut self)
        ensures others { self.new ≡ record self.old { at_hand = false } }
        ensures faults { self.new.faults ≡ self.old.faults }
        ensures next_faults { self.new.next_faults ≡ self.old.next_faults }
    {
        shut(&mut self.stream);
    }
}

// The other side learns that nothing more comes. Where it has gone, there is nothing to shut down.
fn shut(stream: &mut Option<TcpStream>)
    ensures { is_some stream.new ≡ false }
{
    if let Some(open) = stream.take() {
        let _ = open.shutdown(Shutdown::Both);
    }
}

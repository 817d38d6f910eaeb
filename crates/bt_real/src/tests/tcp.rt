//! Connections over the loopback.
use crate::TcpLinks;
use bt_outside::{LinkFailed, Links, MemoryDisk};
use std::io;
use std::io::Write;
use std::net::{Net, Shutdown, SocketAddr, TcpListener, TcpStream};
use std::test::Fail;

// A client that has sent these bytes, and sends no more.
fn client<R>(rt: &R, address: SocketAddr, bytes: &[u8]) -> io::Result<TcpStream>
where
    R: Net<Listener = TcpListener, Stream = TcpStream>,
{
    let mut stream = TcpStream::connect(rt, address)?;
    stream.write_all(bytes)?;
    stream.shutdown(Shutdown::Write)?;
    Ok(stream)
}

fn next<R>(links: &mut TcpLinks<'_, R>) -> Result<bool, LinkFailed>
where
    R: Net<Listener = TcpListener, Stream = TcpStream>,
{
    Links::<MemoryDisk>::next(links)
}

// Whether the connection at hand holds these bytes, and then ends.
fn holds<R>(links: &mut TcpLinks<'_, R>, bytes: &[u8]) -> bool
where
    R: Net<Listener = TcpListener, Stream = TcpStream>,
{
    let mut into = [0u8];
    for &byte in bytes {
        if Links::<MemoryDisk>::read(links, &mut into) != Ok(1) || into != [byte] {
            return false;
        }
    }
    Links::<MemoryDisk>::read(links, &mut into) == Ok(0)
}

// Answers the connection at hand, and leaves it.
fn answer<R>(links: &mut TcpLinks<'_, R>, disk: &MemoryDisk, reply: &[u8]) -> bool
where
    R: Net<Listener = TcpListener, Stream = TcpStream>,
{
    let done = links.write(reply, disk).is_ok();
    Links::<MemoryDisk>::close(links);
    done
}

#[test]
fn a_connection_is_read_answered_and_closed(rt: HostRuntime) -> Result<(), Fail> {
    let disk = MemoryDisk::new(rt.alloc());
    let mut links = TcpLinks::new(&rt, "127.0.0.1:0", 2);
    assert_eq!(rt; links.bind(), Ok(()));
    let address = links.local_address().ok_or("no address")?;
    // This client goes away at once.
    drop(client(&rt, address, b"x")?);
    let stream = client(&rt, address, b"abc")?;
    assert_eq!(rt; next(&mut links), Ok(true));
    assert_eq!(rt; next(&mut links), Ok(true));
    assert!(rt; holds(&mut links, b"abc"));
    assert!(rt; answer(&mut links, &disk, b"reply"));
    assert_eq!(rt; io::read_to_string(rt.alloc(), stream)?.as_str(), "reply");
    assert_eq!(rt; next(&mut links), Ok(false));
    Ok(())
}

#[test]
fn a_failed_bind_uses_up_no_connection(rt: HostRuntime) -> Result<(), Fail> {
    let mut first = TcpLinks::new(&rt, "127.0.0.1:0", 1);
    assert_eq!(rt; first.bind(), Ok(()));
    let address = first.local_address().ok_or("no address")?;
    let text = format!(in rt.alloc(); "{address}")?;
    let mut second = TcpLinks::new(&rt, text.as_str(), 1);
    assert_eq!(rt; next(&mut second), Err(LinkFailed));
    drop(first);
    assert_eq!(rt; second.bind(), Ok(()));
    let _stream = client(&rt, address, b"abc")?;
    assert_eq!(rt; next(&mut second), Ok(true));
    assert_eq!(rt; next(&mut second), Ok(false));
    Ok(())
}

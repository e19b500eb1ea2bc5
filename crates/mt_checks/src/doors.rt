//! The doors of loopback: once the last session is given, a client that comes is refused.

use mt_io::{Door, TcpDoor};
use mt_ws::AnyDoor;
use std::io::Write;
use std::net::{Ipv4Addr, Net, TcpListener, TcpStream};
use std::process::Abort;

/// Whether a client is let in at the port.
fn is_let_in<N: Net<Listener = TcpListener, Stream = TcpStream>>(net: &N, port: u16) -> bool {
    TcpStream::connect(net, (Ipv4Addr::LOCALHOST, port)).is_ok()
}

/// A client that has said the first byte of a line.
fn spoken<N: Net<Listener = TcpListener, Stream = TcpStream>>(
    net: &N,
    port: u16,
) -> Option<TcpStream> {
    let mut client = TcpStream::connect(net, (Ipv4Addr::LOCALHOST, port)).ok()?;
    client.write_all(b"{").ok()?;
    Some(client)
}

/// The door gives its one link, to a client that has spoken, and listens until it is asked for another.
fn check_shut<R: Net<Listener = TcpListener, Stream = TcpStream> + Abort, D: Door>(
    rt: &R,
    door: &mut D,
    port: u16,
) {
    assert!(rt; door.listen(port, 1).is_ok());
    let client = spoken(rt, port);
    assert!(rt; client.is_some());
    let link = door.next_link();
    assert!(rt; matches!(&link, Ok(Some(_))));
    assert!(rt; is_let_in(rt, port));
    assert!(rt; matches!(door.next_link(), Ok(None)));
    assert!(rt; !is_let_in(rt, port));
    assert!(rt; door.door_faults() == 0);
    drop(link);
    drop(client);
}

#[test]
fn a_door_of_lines_shuts_after_its_last_link(rt: HostRuntime) {
    check_shut(&rt, &mut TcpDoor::of(&rt), 7_714);
}

#[test]
fn a_door_of_both_kinds_shuts_after_its_last_link(rt: HostRuntime) {
    check_shut(&rt, &mut AnyDoor::of(rt.alloc(), &rt), 7_715);
}

#[test]
fn a_door_that_was_shut_listens_again(rt: HostRuntime) {
    let mut door = TcpDoor::of(&rt);
    check_shut(&rt, &mut door, 7_716);
    assert!(&rt; door.listen(7_716, 1).is_ok());
    assert!(&rt; is_let_in(&rt, 7_716));
    drop(door);
}

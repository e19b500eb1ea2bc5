//! A client over loopback, and a port that is taken.
ghost use Rattle.std.specs.Prelude.{◌≤◌};
ghost use Rattle.std.specs.Thread.{IsSync};

use super::scene::{AMPLE, run_over, source_of};
use mt_io::{Door, OpenGate, TcpDoor};
use mt_top::Status;
use std::alloc::Global;
use std::io::{Read, Write};
use std::net::{Ipv4Addr, Net, TcpListener, TcpStream};
use std::process::Abort;
use std::sync::Wait;
use std::thread;
use std::thread::Threads;

/// The port that is served.
const PORT: u16 = 7_711;

/// What the client sends.
const SENT: &str = r#"{"do":"hello","role":"feed"}
{"do":"external","call":"AAA1","from":0,"to":1200,"x":0,"y":0,"z":2100000,"vx":480}
{"do":"bye"}
"#;

/// What it is answered.
const ANSWERED: &[u8] = b"{\"role\":\"feed\"}\n{\"entered\":1}\n{\"done\":\"bye\"}\n";

/// What the program writes.
const WRITTEN: &[u8] =
    b"{\"done\":\"begin\"}\n{\"conflicts\":0,\"entries\":1,\"faulted\":0,\"flights\":1,\"sessions\":1,\"starved\":0}\n";

/// A connection to a port, as soon as it is served.
pub fn connection<N: Net<Listener = TcpListener, Stream = TcpStream>>(
    net: &N,
    port: u16,
) -> Option<TcpStream> {
    for _ in 0..1_000_000u32 {
        if let Ok(stream) = TcpStream::connect(net, (Ipv4Addr::LOCALHOST, port)) {
            return Some(stream);
        }
        thread::yield_now();
    }
    None
}

/// Whether the program has ended what it writes.
pub fn is_over(stream: &mut TcpStream) -> bool {
    let mut more = [0u8; 1];
    matches!(stream.read(&mut more), Ok(0))
}

/// Whether a client is answered as it should.
fn speak<N: Net<Listener = TcpListener, Stream = TcpStream>>(net: &N) -> bool {
    let Some(mut stream) = connection(net, PORT) else {
        return false;
    };
    let mut answered = [0u8; 45];
    stream.write_all(SENT.as_bytes()).is_ok()
        && stream.read_exact(&mut answered).is_ok()
        && answered.as_slice() == ANSWERED
}

/// Whether the program serves one session as it should.
fn serve<R: Net<Listener = TcpListener, Stream = TcpStream> + Threads + Wait + Sync + Abort>(
    rt: &R,
    alloc: Global,
) -> bool
    requires sync { IsSync R.row }
{
    let mut input = source_of(rt, alloc, "{\"do\":\"begin\"}\n");
    let mut door = TcpDoor::of(rt);
    let words = "serve --port=7711 --sessions=1";
    let (status, output) = run_over(rt, alloc, words, &mut input, AMPLE, &mut door, &OpenGate);
    status == Status::Done && output.held() == WRITTEN
}

#[test]
fn a_client_over_loopback(rt: HostRuntime) {
    let alloc = rt.alloc();
    let (served, spoke) = thread::join(&rt, || serve(&rt, alloc), || speak(&rt));
    assert!(&rt; served);
    assert!(&rt; spoke);
}

/// Opens the door for one session at the first port that is free; its number.
fn open<N: Net<Listener = TcpListener, Stream = TcpStream>>(
    door: &mut TcpDoor<N>,
    first: u16,
) -> Option<u16>
    requires { first ≤ 60000 }
{
    for more in 0..32u16 {
        if door.listen(first + more, 1).is_ok() {
            return Some(first + more);
        }
    }
    None
}

#[test]
fn port_that_is_taken_is_a_fault(rt: HostRuntime) {
    let (mut first, mut second) = (TcpDoor::of(&rt), TcpDoor::of(&rt));
    let port = open(&mut first, 47_911).expect(&rt, "a free port");
    assert!(&rt; second.listen(port, 1).is_err());
    assert!(&rt; second.door_faults() == 1);
    assert!(&rt; matches!(second.next_link(), Ok(None)));
    assert!(&rt; second.door_faults() == 1);
}

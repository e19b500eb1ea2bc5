//! Two tries of one session with another session's change between them, over loopback: each is answered from the version that stands when its line
//! is read.
ghost use Rattle.std.specs.Thread.{IsSync};

use super::loopback::connection;
use super::scene::{AMPLE, run_over, source_of};
use mt_io::{OpenGate, TcpDoor};
use mt_top::Status;
use std::alloc::Global;
use std::io::{Read, Write};
use std::net::{Net, TcpListener, TcpStream};
use std::process::Abort;
use std::sync::Wait;
use std::thread;
use std::thread::Threads;

/// The port that is served.
const PORT: u16 = 7_714;

/// What a position sends first, and is answered: there is no such flight.
const FIRST: &str = r#"{"do":"hello","role":"position"}
{"do":"probe","call":"AAA1","level":350}
"#;

const AT_FIRST: &[u8] =
    b"{\"role\":\"position\"}\n{\"name\":\"AAA1\",\"no\":\"unknown-call\",\"version\":0}\n";

/// What a feed sends then, and is answered.
const FEED: &str = r#"{"do":"hello","role":"feed"}
{"do":"external","call":"BBB1","from":0,"to":1200,"x":0,"y":0,"z":2100000,"vx":480}
"#;

const FED: &[u8] = b"{\"role\":\"feed\"}\n{\"entered\":1}\n";

/// What the position sends again, and is answered at the version with that change.
const AGAIN: &str = r#"{"do":"probe","call":"AAA1","level":350}
"#;

const AT_LAST: &[u8] = b"{\"name\":\"AAA1\",\"no\":\"unknown-call\",\"version\":1}\n";

/// Whether these lines are answered so.
fn is_answered(stream: &mut TcpStream, lines: &str, replies: &[u8]) -> bool {
    if stream.write_all(lines.as_bytes()).is_err() {
        return false;
    }
    for byte in replies {
        let mut next = [0u8; 1];
        if stream.read_exact(&mut next).is_err() || next != [*byte] {
            return false;
        }
    }
    true
}

/// Whether both clients are answered as they should.
fn speak<N: Net<Listener = TcpListener, Stream = TcpStream>>(net: &N) -> bool {
    let (Some(mut position), Some(mut feed)) = (connection(net, PORT), connection(net, PORT)) else {
        return false;
    };
    is_answered(&mut position, FIRST, AT_FIRST)
        && is_answered(&mut feed, FEED, FED)
        && is_answered(&mut position, AGAIN, AT_LAST)
}

/// Whether the program serves two sessions.
fn serve<R: Net<Listener = TcpListener, Stream = TcpStream> + Threads + Wait + Sync + Abort>(
    rt: &R,
    alloc: Global,
) -> bool
    requires sync { IsSync R.row }
{
    let mut input = source_of(rt, alloc, "{\"do\":\"begin\"}\n");
    let mut door = TcpDoor::of(rt);
    let words = "serve --port=7714 --sessions=2 --workers=0";
    let (status, _) = run_over(rt, alloc, words, &mut input, AMPLE, &mut door, &OpenGate);
    status == Status::Done
}

#[test]
fn tries_of_one_session_are_answered_from_the_version_of_their_time(rt: HostRuntime) {
    let alloc = rt.alloc();
    let (served, spoke) = thread::join(&rt, || serve(&rt, alloc), || speak(&rt));
    assert!(&rt; served);
    assert!(&rt; spoke);
}

//! What is no session on one port of loopback: clients that say nothing, a page's requests, a greeting of TLS. Then as many sessions as were asked
//! for, whose connections are over when they are; and a client that comes after the last.
ghost use Rattle.std.specs.Thread.{IsSync};

use super::loopback::{connection, is_over};
use super::scene::{AMPLE, run_over, source_of};
use mt_io::OpenGate;
use mt_top::Status;
use mt_ws::AnyDoor;
use std::alloc::Global;
use std::io::{Read, Write};
use std::net::{Ipv4Addr, Net, TcpListener, TcpStream};
use std::process::Abort;
use std::sync::Wait;
use std::thread;
use std::thread::Threads;

/// The port that is served.
const PORT: u16 = 7_713;

/// Requests that a page of another site can have a browser send: two whose bodies are lines, the first by a method of no list; one for an image; and
/// one for a WebSocket. Last the first bytes of a greeting of TLS, with lines behind them.
const FOREIGN: [(&[u8], &[u8]); 5] = [
    (
        b"POSTED / HTTP/1.1\r\nHost: elsewhere.example:7713\r\nContent-Length: 29\r\n\r\n{\"do\":\"hello\",\"role\":\"feed\"}\n",
        BAD,
    ),
    (
        b"POST / HTTP/1.1\r\nHost: 127.0.0.1:7713\r\nOrigin: http://elsewhere.example\r\nContent-Length: 13\r\n\r\n{\"do\":\"list\"}\n",
        BAD,
    ),
    (
        b"GET /?1 HTTP/1.1\r\nHost: 127.0.0.1:7713\r\nReferer: http://elsewhere.example/\r\n\r\n",
        BAD,
    ),
    (
        b"GET / HTTP/1.1\r\nHost: 127.0.0.1:7713\r\nOrigin: http://elsewhere.example\r\nUpgrade: websocket\r\nConnection: Upgrade\r\nSec-WebSocket-Key: dGhlIHNhbXBsZSBub25jZQ==\r\nSec-WebSocket-Version: 13\r\n\r\n",
        FORBIDDEN,
    ),
    (b"\x16\x03\x01\x02\0\n{\"do\":\"list\"}\n", BAD),
];

/// How each is answered.
const BAD: &[u8] = b"HTTP/1.1 400 Bad Request\r\nConnection: close\r\nContent-Length: 0\r\n\r\n";

const FORBIDDEN: &[u8] =
    b"HTTP/1.1 403 Forbidden\r\nConnection: close\r\nContent-Length: 0\r\n\r\n";

/// What the line session sends first: a line that begins with a `P`, and is no method.
const FIRST: &[u8] = b"P\n";

/// What it sends byte by byte: the front of a method, and then another byte.
const BYTEWISE: &[u8] = b"POSTED\n";

/// What it sends then.
const LINES: &str = r#"{"do":"hello","role":"feed"}
{"do":"external","call":"AAA1","from":0,"to":1200,"x":0,"y":0,"z":2100000,"vx":480}
{"do":"list"}
"#;

/// What it is answered.
const ANSWERED: &[u8] =
    b"{\"no\":\"json\"}\n{\"no\":\"json\"}\n{\"role\":\"feed\"}\n{\"entered\":1}\n{\"conflicts\":[],\"version\":1}\n";

/// What it sends last, and is answered.
const BYE: &[u8] = b"{\"do\":\"bye\"}\n";

const DONE: &[u8] = b"{\"done\":\"bye\"}\n";

/// What the program writes: of what was no session nothing was entered, and none of it is counted.
const WRITTEN: &[u8] =
    b"{\"done\":\"begin\"}\n{\"conflicts\":0,\"entries\":1,\"faulted\":0,\"flights\":1,\"sessions\":2,\"starved\":0}\n";

/// Whether just these bytes come, and then nothing more.
fn is_answered_so(stream: &mut TcpStream, answer: &[u8]) -> bool {
    for byte in answer {
        let mut next = [0u8; 1];
        if stream.read_exact(&mut next).is_err() || next != [*byte] {
            return false;
        }
    }
    is_over(stream)
}

/// Whether a client that is no session is answered so, and nothing else.
fn is_refused_so(mut stream: TcpStream, sent: &[u8], answer: &[u8]) -> bool {
    stream.write_all(sent).is_ok() && is_answered_so(&mut stream, answer)
}

/// Whether all of them are.
fn are_refused<N: Net<Listener = TcpListener, Stream = TcpStream>>(net: &N) -> bool {
    for (sent, answer) in FOREIGN {
        let Some(stream) = connection(net, PORT) else {
            return false;
        };
        if !is_refused_so(stream, sent, answer) {
            return false;
        }
    }
    true
}

/// Whether all bytes could be sent, each by itself.
fn send_each(stream: &mut TcpStream, bytes: &[u8]) -> bool {
    for byte in bytes {
        if stream.write_all(&[*byte]).is_err() {
            return false;
        }
        thread::yield_now();
    }
    true
}

/// Whether a line session is answered as it should, up to its last line.
fn speak_lines(stream: &mut TcpStream) -> bool {
    let mut answered = [0u8; 87];
    stream.write_all(FIRST).is_ok()
        && send_each(stream, BYTEWISE)
        && stream.write_all(LINES.as_bytes()).is_ok()
        && stream.read_exact(&mut answered).is_ok()
        && answered.as_slice() == ANSWERED
}

/// Whether it is answered its last line, and its connection is over then.
fn say_bye(mut stream: TcpStream) -> bool {
    let mut answered = [0u8; 15];
    stream.write_all(BYE).is_ok()
        && stream.read_exact(&mut answered).is_ok()
        && answered.as_slice() == DONE
        && is_over(&mut stream)
}

/// Whether a client is refused, as soon as the program has seen that no session is left.
fn is_refused<N: Net<Listener = TcpListener, Stream = TcpStream>>(net: &N) -> bool {
    for _ in 0..10_000u32 {
        if TcpStream::connect(net, (Ipv4Addr::LOCALHOST, PORT)).is_err() {
            return true;
        }
        thread::yield_now();
    }
    false
}

/// Whether all find what they should: first those that are no session, with two beside them that never speak; and then two sessions, the first of which
/// is over before the other begins.
fn speak<N: Net<Listener = TcpListener, Stream = TcpStream>>(net: &N) -> bool {
    let (Some(silent), Some(mute)) = (connection(net, PORT), connection(net, PORT)) else {
        return false;
    };
    if !are_refused(net) {
        return false;
    }
    let (Some(mut first), Some(second)) = (connection(net, PORT), connection(net, PORT)) else {
        return false;
    };
    let spoke = speak_lines(&mut first) && say_bye(first) && say_bye(second) && is_refused(net);
    drop(silent);
    drop(mute);
    spoke
}

/// Whether the program serves them as it should.
fn serve<R: Net<Listener = TcpListener, Stream = TcpStream> + Threads + Wait + Sync + Abort>(
    rt: &R,
    alloc: Global,
) -> bool
    requires sync { IsSync R.row }
{
    let mut input = source_of(rt, alloc, "{\"do\":\"begin\"}\n");
    let mut door = AnyDoor::of(alloc, rt);
    let words = "serve --port=7713 --sessions=2 --workers=0";
    let (status, output) = run_over(rt, alloc, words, &mut input, AMPLE, &mut door, &OpenGate);
    status == Status::Done && output.held() == WRITTEN
}

#[test]
fn what_is_no_session_changes_nothing_and_uses_none_up(rt: HostRuntime) {
    let alloc = rt.alloc();
    let (served, spoke) = thread::join(&rt, || serve(&rt, alloc), || speak(&rt));
    assert!(&rt; served);
    assert!(&rt; spoke);
}

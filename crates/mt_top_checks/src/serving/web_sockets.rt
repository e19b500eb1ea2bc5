//! A line session and a WebSocket on one port of loopback.
//!
//! The frames are by RFC 6455. A client's are masked, here by 0: a text of n bytes is 81, n + 80, four bytes of mask and the text. A server's are not.
ghost use Rattle.std.specs.Thread.{IsSync};

use super::loopback::{connection, is_over};
use super::scene::{AMPLE, run_over, source_of};
use mt_io::OpenGate;
use mt_top::Status;
use mt_ws::AnyDoor;
use std::alloc::Global;
use std::io::{Read, Write};
use std::net::{Net, TcpListener, TcpStream};
use std::process::Abort;
use std::sync::Wait;
use std::thread;
use std::thread::Threads;

/// The port that is served.
const PORT: u16 = 7_712;

/// What the line session sends.
const LINES: &str = r#"{"do":"hello","role":"feed"}
{"do":"external","call":"AAA1","from":0,"to":1200,"x":0,"y":0,"z":2100000,"vx":480}
{"do":"list"}
{"do":"bye"}
"#;

/// What it is answered.
const ANSWERED: &[u8] =
    b"{\"role\":\"feed\"}\n{\"entered\":2}\n{\"conflicts\":[],\"version\":2}\n{\"done\":\"bye\"}\n";

/// How the other client asks for a WebSocket. The key is the example of RFC 6455.
const REQUEST: &str =
    "GET / HTTP/1.1\r\nHost: 127.0.0.1:7712\r\nUpgrade: websocket\r\nConnection: Upgrade\r\nSec-WebSocket-Key: dGhlIHNhbXBsZSBub25jZQ==\r\nSec-WebSocket-Version: 13\r\n\r\n";

/// What it sends then: a binary hello of 28 bytes, an external flight far off in a text of 89, a `list` of 13 and a `bye` of 12.
const FRAMES: [&[u8]; 4] = [
    b"\x82\x9c\0\0\0\0{\"do\":\"hello\",\"role\":\"feed\"}",
    b"\x81\xd9\0\0\0\0{\"do\":\"external\",\"call\":\"BBB1\",\"from\":0,\"to\":1200,\"x\":0,\"y\":1000000,\"z\":2100000,\"vx\":480}",
    b"\x81\x8d\0\0\0\0{\"do\":\"list\"}",
    b"\x81\x8c\0\0\0\0{\"do\":\"bye\"}",
];

/// What it is answered: texts of 15, 13, 28 and 14 bytes; and a close, since its session has ended.
const FRAMED: &[u8] =
    b"\x81\x0f{\"role\":\"feed\"}\x81\x0d{\"entered\":1}\x81\x1c{\"conflicts\":[],\"version\":1}\x81\x0e{\"done\":\"bye\"}\x88\0";

/// What the program writes.
const WRITTEN: &[u8] =
    b"{\"done\":\"begin\"}\n{\"conflicts\":0,\"entries\":2,\"faulted\":0,\"flights\":2,\"sessions\":2,\"starved\":0}\n";

/// Whether a line session is answered as it should.
fn speak_lines(mut stream: TcpStream) -> bool {
    let mut answered = [0u8; 74];
    stream.write_all(LINES.as_bytes()).is_ok()
        && stream.read_exact(&mut answered).is_ok()
        && answered.as_slice() == ANSWERED
}

/// Whether the handshake is answered: by status 101, and up to an empty line.
fn is_taken(stream: &mut TcpStream) -> bool {
    let mut first = [0u8; 12];
    if stream.read_exact(&mut first).is_err() || first.as_slice() != b"HTTP/1.1 101".as_slice() {
        return false;
    }
    let mut last = [0u8; 4];
    for _ in 0..4_096u32 {
        last.rotate_left(1);
        if stream.read_exact(&mut last[3..]).is_err() {
            return false;
        }
        if last.as_slice() == b"\r\n\r\n".as_slice() {
            return true;
        }
    }
    false
}

/// Whether a WebSocket is answered as it should.
fn speak_frames(mut stream: TcpStream) -> bool {
    if stream.write_all(REQUEST.as_bytes()).is_err() || !is_taken(&mut stream) {
        return false;
    }
    for frame in FRAMES {
        if stream.write_all(frame).is_err() {
            return false;
        }
    }
    let mut answered = [0u8; 80];
    stream.read_exact(&mut answered).is_ok()
        && answered.as_slice() == FRAMED
        && is_over(&mut stream)
}

/// Whether the two are answered as they should: the WebSocket, which is over then, while the other has yet to speak; and then that one.
fn speak<N: Net<Listener = TcpListener, Stream = TcpStream>>(net: &N) -> bool {
    let Some(lines) = connection(net, PORT) else {
        return false;
    };
    let Some(frames) = connection(net, PORT) else {
        return false;
    };
    speak_frames(frames) && speak_lines(lines)
}

/// Whether the program serves both as it should.
fn serve<R: Net<Listener = TcpListener, Stream = TcpStream> + Threads + Wait + Sync + Abort>(
    rt: &R,
    alloc: Global,
) -> bool
    requires sync { IsSync R.row }
{
    let mut input = source_of(rt, alloc, "{\"do\":\"begin\"}\n");
    let mut door = AnyDoor::of(alloc, rt);
    let words = "serve --port=7712 --sessions=2 --workers=0";
    let (status, output) = run_over(rt, alloc, words, &mut input, AMPLE, &mut door, &OpenGate);
    status == Status::Done && output.held() == WRITTEN
}

#[test]
fn lines_and_frames_over_loopback(rt: HostRuntime) {
    let alloc = rt.alloc();
    let (served, spoke) = thread::join(&rt, || serve(&rt, alloc), || speak(&rt));
    assert!(&rt; served);
    assert!(&rt; spoke);
}

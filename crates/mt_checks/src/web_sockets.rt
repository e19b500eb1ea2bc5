//! Lines over WebSockets in memory. The frames are by RFC 6455: a client's are masked, here by 0, so that a text of n bytes is 81, n + 80, four bytes
//! of mask and the text; a server's aren't, so that one of 14 bytes is 81, 0E and the text.

use mt_io::{Line, LineReader, Sink, Source, put_all};
use mt_ws::{AnyLink, WsCause, WsLink, WsNo};
use std::io::{Chain, Read};
use std::process::Abort;
use tungstenite::error::Error;
use tungstenite::{Duplex, NoMask, Role, WebSocket};

/// A stream that gives bytes and keeps what is written.
type Stream<'a> = Duplex<&'a [u8], Vec<u8>>;

/// A stream that gives bytes, and others in its later reads.
pub type TwoParts<'a> = Duplex<Chain<&'a [u8], &'a [u8]>, Vec<u8>>;

/// A line of 12 bytes in a binary frame of a client.
const BYE: &[u8] = b"\x82\x8c\0\0\0\0{\"do\":\"bye\"}";

/// A client's close, with code 1000.
const CLOSE: &[u8] = b"\x88\x82\0\0\0\0\x03\xe8";

/// A client's request, up to its Origin.
const HEAD: &[u8] =
    b"GET / HTTP/1.1\r\nHost: 127.0.0.1:7700\r\nUpgrade: websocket\r\nConnection: Upgrade\r\nSec-WebSocket-Key: dGhlIHNhbXBsZSBub25jZQ==\r\nSec-WebSocket-Version: 13\r\nOrigin: ";

/// A client's request, of a page of this Origin.
fn request_of(rt: &(impl AllocGlobal + Abort), origin: &[u8]) -> Vec<u8> {
    let mut request = HEAD.to_vec(rt.alloc()).expect(rt, "memory");
    request.extend_from_slice(origin).expect(rt, "memory");
    request.extend_from_slice(b"\r\n\r\n").expect(rt, "memory");
    request
}

/// A stream that gives these bytes.
fn stream_of<'a>(rt: &impl AllocGlobal, bytes: &'a [u8]) -> Stream<'a> {
    Duplex {
        reader: bytes,
        writer: Vec::new(rt.alloc()),
    }
}

/// A stream that gives these bytes, and after them those.
pub fn in_two<'a>(rt: &impl AllocGlobal, first: &'a [u8], then: &'a [u8]) -> TwoParts<'a> {
    Duplex {
        reader: first.chain(then),
        writer: Vec::new(rt.alloc()),
    }
}

/// A server's link over these bytes.
fn link_over<'a>(rt: &(impl AllocGlobal + Abort), bytes: &'a [u8]) -> WsLink<Stream<'a>> {
    let stream = stream_of(rt, bytes);
    let socket = WebSocket::from_raw_socket(rt.alloc(), stream, NoMask, Role::Server, None);
    WsLink::over(rt.alloc(), socket).expect(rt, "memory")
}

/// The lines of a link, each with a 0x0A after it, `LONG` for one that is too long, and at the end `END` or `FAULT`.
pub fn lines_of<S: Source>(rt: &(impl AllocGlobal + Abort), link: &mut S) -> Vec<u8> {
    let mut lines = Vec::new(rt.alloc());
    let mut reader = LineReader::make(rt.alloc()).expect(rt, "memory");
    for _ in 0..100u32 {
        let (text, more) = match reader.next(link) {
            Ok(Line::Text(text)) => (text, true),
            Ok(Line::Long) => (b"LONG".as_slice(), true),
            Ok(Line::End) => (b"END".as_slice(), false),
            Err(_) => (b"FAULT".as_slice(), false),
        };
        lines.extend_from_slice(text).expect(rt, "memory");
        if !more {
            break;
        }
        lines.push(b'\n').expect(rt, "memory");
    }
    lines
}

/// What was written to the stream of a link.
fn written(link: WsLink<Stream<'_>>) -> Vec<u8> {
    link.into_socket().into_inner().writer
}

/// The frames of a client are these lines, and are answered by these frames.
fn check_read(rt: &(impl AllocGlobal + Abort), frames: &[u8], lines: &[u8], replies: &[u8]) {
    let mut link = link_over(rt, frames);
    assert!(rt; lines_of(rt, &mut link).as_slice() == lines);
    assert!(rt; written(link).as_slice() == replies);
}

#[test]
fn messages_are_lines(rt: HostRuntime) {
    check_read(&rt, BYE, b"{\"do\":\"bye\"}\nFAULT", b"");
    check_read(&rt, CLOSE, b"END", b"\x88\x02\x03\xe8");
    // a ping, a text of two lines, a text in two fragments, an empty text, a text with its 0x0A, and a close
    let frames =
        b"\x89\x81\0\0\0\0p\x81\x83\0\0\0\0a\nb\x01\x81\0\0\0\0x\x80\x81\0\0\0\0y\x81\x80\0\0\0\0\x81\x82\0\0\0\0c\n\x88\x80\0\0\0\0";
    check_read(&rt, frames, b"a\nb\nxy\n\nc\nEND", b"\x8a\x01p\x88\0");
}

#[test]
fn a_message_piece_by_piece(rt: HostRuntime) {
    let mut link = link_over(&rt, BYE);
    let mut buf = [0; 64];
    let mut given = Vec::new(rt.alloc());
    // 5, 5 and 2 bytes, and then the ending by itself
    for _ in 0..4 {
        let count = link.read_some(&mut buf[..5]).expect(&rt, "bytes");
        given.extend_from_slice(&buf[..count]).expect(&rt, "memory");
    }
    assert!(&rt; given.as_slice() == b"{\"do\":\"bye\"}\n".as_slice());
    assert!(&rt; link.read_some(&mut buf).is_err());
    assert!(&rt; matches!(link.cause(), Some(WsCause::Read(_))));
    drop(link);
}

/// So many pings without content, and then a line.
fn pings_then_bye(rt: &(impl AllocGlobal + Abort), count: usize) -> Vec<u8> {
    let mut frames = Vec::new(rt.alloc());
    for _ in 0..count {
        frames
            .extend_from_slice(b"\x89\x80\0\0\0\0")
            .expect(rt, "memory");
    }
    frames.extend_from_slice(BYE).expect(rt, "memory");
    frames
}

#[test]
fn pings_are_passed_over(rt: HostRuntime) {
    let frames = pings_then_bye(&rt, 4_096);
    let mut link = link_over(&rt, &frames);
    assert!(&rt; lines_of(&rt, &mut link).as_slice() == b"{\"do\":\"bye\"}\nFAULT".as_slice());
    drop(link);
}

#[test]
fn one_ping_more_is_a_fault(rt: HostRuntime) {
    let frames = pings_then_bye(&rt, 4_097);
    let mut link = link_over(&rt, &frames);
    assert!(&rt; lines_of(&rt, &mut link).as_slice() == b"FAULT".as_slice());
    assert!(&rt; link.read_faults() == 1);
    assert!(&rt; matches!(link.cause(), Some(WsCause::Pings)));
    drop(link);
}

/// What is written piece by piece goes as these frames.
fn check_written(rt: &(impl AllocGlobal + Abort), pieces: &[&[u8]], frames: &[u8]) {
    let mut link = link_over(rt, b"");
    for piece in pieces {
        assert!(rt; put_all(&mut link, piece).is_ok());
    }
    assert!(rt; written(link).as_slice() == frames);
}

#[test]
fn lines_are_messages(rt: HostRuntime) {
    check_written(
        &rt,
        &[b"{\"done\":".as_slice(), b"\"bye\"}\n".as_slice()],
        b"\x81\x0e{\"done\":\"bye\"}",
    );
    check_written(&rt, &[b"\xff\n\n".as_slice()], b"\x82\x01\xff\x81\0");
}

#[test]
fn a_line_of_131_072_bytes_is_sent_and_a_longer_one_is_not(rt: HostRuntime) {
    let line = vec![in rt.alloc(); b'a'; 131_072].expect(&rt, "memory");
    let mut link = link_over(&rt, b"");
    assert!(&rt; put_all(&mut link, &line).is_ok());
    assert!(&rt; put_all(&mut link, b"a").is_err());
    assert!(&rt; link.write_faults() == 1);
    assert!(&rt; matches!(link.cause(), Some(WsCause::Long)));
    assert!(&rt; put_all(&mut link, b"\n").is_ok());
    // a text whose length takes eight bytes: 131,072 is 2 00 00
    let sent = written(link);
    assert!(&rt; sent.len() == 131_082);
    assert!(&rt; sent.starts_with(b"\x81\x7f\0\0\0\0\0\x02\0\0".as_slice()));
}

/// The frames of a client after its request are these lines.
fn check_web(rt: &(impl AllocGlobal + Abort), frames: &[u8], lines: &[u8]) {
    let request = request_of(rt, b"http://127.0.0.1:8000");
    let mut link = AnyLink::of(rt.alloc(), in_two(rt, &request, frames));
    assert!(rt; lines_of(rt, &mut link).as_slice() == lines);
    drop(link);
}

/// A frame of so many bytes `a`, of which the last five bytes of the length are given, and then a close.
fn long_text(rt: &(impl AllocGlobal + Abort), length: &[u8], count: usize) -> Vec<u8> {
    let mut frames = Vec::new(rt.alloc());
    frames
        .extend_from_slice(b"\x81\xff\0\0\0\0\0")
        .expect(rt, "memory");
    frames.extend_from_slice(length).expect(rt, "memory");
    frames.extend_from_slice(&[0; 4]).expect(rt, "memory");
    for _ in 0..count {
        frames.push(b'a').expect(rt, "memory");
    }
    frames.extend_from_slice(CLOSE).expect(rt, "memory");
    frames
}

#[test]
fn messages_of_a_handshake_are_bounded(rt: HostRuntime) {
    check_web(&rt, BYE, b"{\"do\":\"bye\"}\nFAULT");
    // 65,537 is 01 00 01, and 131,072 is 02 00 00
    check_web(&rt, &long_text(&rt, b"\x01\0\x01", 65_537), b"LONG\nEND");
    check_web(&rt, &long_text(&rt, b"\x02\0\0", 131_072), b"LONG\nEND");
}

#[test]
fn a_longer_message_fails_at_its_header(rt: HostRuntime) {
    // 131,073 is 02 00 01; not one byte of it comes
    let request = request_of(&rt, b"https://[::1]");
    let stream = in_two(&rt, &request, b"\x81\xff\0\0\0\0\0\x02\0\x01\0\0\0\0");
    let mut link = WsLink::accept(rt.alloc(), stream).expect(&rt, "a link");
    assert!(&rt; lines_of(&rt, &mut link).as_slice() == b"FAULT".as_slice());
    assert!(&rt; matches!(link.cause(), Some(WsCause::Read(Error::Capacity(_)))));
    drop(link);
}

/// A request is refused.
fn check_refused(rt: &(impl AllocGlobal + Abort), request: &[u8]) {
    let refused = matches!(
        WsLink::accept(rt.alloc(), stream_of(rt, request)),
        Err(WsNo::Handshake)
    );
    assert!(rt; refused);
}

#[test]
fn pages_from_elsewhere_are_refused(rt: HostRuntime) {
    check_refused(&rt, &request_of(&rt, b"http://127.0.0.1.example"));
    check_refused(&rt, &request_of(&rt, b"null"));
    check_refused(&rt, b"GET / HTTP/1.1\r\n\r\n");
    check_refused(&rt, b"GET / HTTP");
    check_refused(&rt, b"");
}

#[test]
fn a_first_byte_that_is_no_g(rt: HostRuntime) {
    let mut link = AnyLink::of(rt.alloc(), stream_of(&rt, b"{\"do\":\"bye\"}\n"));
    assert!(&rt; put_all(&mut link, b"early").is_err());
    assert!(&rt; link.write_faults() == 1);
    assert!(&rt; lines_of(&rt, &mut link).as_slice() == b"{\"do\":\"bye\"}\nEND".as_slice());
    assert!(&rt; put_all(&mut link, b"{\"done\":\"bye\"}\n").is_ok());
    assert!(&rt; link.read_faults() == 0);
    drop(link);
}

#[test]
fn no_first_byte(rt: HostRuntime) {
    let mut link = AnyLink::of(rt.alloc(), stream_of(&rt, b""));
    assert!(&rt; lines_of(&rt, &mut link).as_slice() == b"END".as_slice());
    assert!(&rt; link.read_faults() == 0);
    drop(link);
}

#[test]
fn half_a_request(rt: HostRuntime) {
    let mut link = AnyLink::of(rt.alloc(), stream_of(&rt, b"GET / HTTP/1.1\r\n"));
    assert!(&rt; lines_of(&rt, &mut link).as_slice() == b"FAULT".as_slice());
    assert!(&rt; put_all(&mut link, b"late").is_err());
    assert!(&rt; link.read_faults() == 1);
    assert!(&rt; link.write_faults() == 1);
    drop(link);
}

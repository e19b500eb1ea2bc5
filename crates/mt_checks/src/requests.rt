//! Streams that begin as requests of HTTP or as no text, and lines that begin almost so.

use super::web_sockets::{in_two, lines_of};
use mt_io::Source;
use mt_ws::AnyLink;
use std::process::Abort;

/// The most bytes of a first line without its 0x0A, and one more.
const LONGEST: [u8; 8_191] = [b'a'; 8_191];

const TOO_LONG: [u8; 8_192] = [b'a'; 8_192];

/// A stream that begins so, by this and then by that, is broken before a line of it is read.
fn check_broken(rt: &(impl AllocGlobal + Abort), first: &[u8], then: &[u8]) {
    let mut link = AnyLink::of(rt.alloc(), in_two(rt, first, then));
    assert!(rt; !link.is_foreign());
    assert!(rt; lines_of(rt, &mut link).as_slice() == b"FAULT".as_slice());
    assert!(rt; link.is_foreign());
    assert!(rt; link.read_faults() == 1);
    drop(link);
}

/// A stream of this and then of that is read as lines, each byte of it.
fn check_lines(rt: &(impl AllocGlobal + Abort), first: &[u8], then: &[u8], lines: &[u8]) {
    let mut link = AnyLink::of(rt.alloc(), in_two(rt, first, then));
    assert!(rt; lines_of(rt, &mut link).as_slice() == lines);
    assert!(rt; !link.is_foreign());
    assert!(rt; link.read_faults() == 0);
    drop(link);
}

#[test]
fn requests_are_broken(rt: HostRuntime) {
    check_broken(&rt, b"POST / HTTP/1.1\r\n\r\n{\"do\":\"bye\"}\n", b"");
    check_broken(&rt, b"POSTED / HTTP/1.1\r\n{\"do\":\"bye\"}\n", b"");
    check_broken(&rt, b"patch /drop HTTP/1.1\n", b"{\"do\":\"bye\"}\n");
    check_broken(&rt, b"P", b"OST / HTTP/1.0\n");
    check_broken(&rt, b"Z HTTP/2", b".0\r\n");
    check_broken(&rt, b" HTTP/1.1\n", b"");
    check_broken(&rt, b"\tPUT / HTTP/9.9\n", b"");
    check_broken(&rt, b"OPTIONS * HTTP/1.1", b"");
    check_broken(&rt, b"OPTIONS * HTTP/1.1\r", b"");
}

#[test]
fn what_is_no_text_is_broken(rt: HostRuntime) {
    check_broken(&rt, b"\x16\x03\x01\x02\0\n{\"do\":\"bye\"}\n", b"");
    check_broken(&rt, b"\x16", b"");
    check_broken(&rt, b"\0{\"do\":\"bye\"}\n", b"");
    check_broken(&rt, b"\x7f\n", b"");
    check_broken(&rt, b"\x1f\n", b"");
}

#[test]
fn first_line_without_an_end_is_broken(rt: HostRuntime) {
    check_broken(&rt, TOO_LONG.as_slice(), b"\n");
    check_broken(&rt, LONGEST.as_slice(), b"a");
}

#[test]
fn lines_that_begin_almost_so(rt: HostRuntime) {
    check_lines(
        &rt,
        b"P\nPOST / HTTP/1.1\n",
        b"",
        b"P\nPOST / HTTP/1.1\nEND",
    );
    check_lines(&rt, b"PO", b"STER\n", b"POSTER\nEND");
    check_lines(&rt, b"POST / HTTP/1\n", b"", b"POST / HTTP/1\nEND");
    check_lines(&rt, b"POST /HTTP/1.1\n", b"", b"POST /HTTP/1.1\nEND");
    check_lines(&rt, b"POST / HTTP/1.1 \n", b"", b"POST / HTTP/1.1 \nEND");
    check_lines(&rt, b"POST / HTTP/1.a\n", b"", b"POST / HTTP/1.a\nEND");
    check_lines(
        &rt,
        b"POST / HTTP/1.1\r\r\n",
        b"",
        b"POST / HTTP/1.1\r\r\nEND",
    );
    check_lines(&rt, b"{ HTTP/1.1\n", b"", b"{ HTTP/1.1\nEND");
    check_lines(&rt, b"\n", b"{}\n", b"\n{}\nEND");
    check_lines(&rt, b"\t\n", b"", b"\t\nEND");
    check_lines(&rt, b"CON", b"NECT", b"CONNECT\nEND");
    check_lines(&rt, b"D", b"", b"D\nEND");
}

#[test]
fn longest_first_line_is_one(rt: HostRuntime) {
    let mut link = AnyLink::of(rt.alloc(), in_two(&rt, LONGEST.as_slice(), b"\n"));
    let lines = lines_of(&rt, &mut link);
    assert!(&rt; lines.len() == 8_191 + 4);
    assert!(&rt; lines.ends_with(b"a\nEND"));
    assert!(&rt; !link.is_foreign());
    drop(link);
}

//! The standard streams.

use mt_io::{Sink, Source, StdIn, StdOut, put_all};
use std::process::Abort;

/// The standard input has ended.
fn check_input(rt: &impl Abort, mut input: StdIn) {
    let mut buf = [0; 8];
    assert!(rt; input.read_some(&mut buf) == Ok(0));
    assert!(rt; input.read_faults() == 0);
}

#[test]
fn the_standard_streams(rt: HostRuntime) {
    check_input(&rt, StdIn::of(rt.stdin()));
    let mut output = StdOut::of(rt.stdout());
    assert!(rt; put_all(&mut output, b"a line\n") == Ok(()));
    assert!(rt; output.write_faults() == 0);
}

//! Links in memory.
ghost use Rattle.std.specs.Prelude.{◌<◌};

use mt_io::MemLink;
use std::alloc::Global;
use std::process::Abort;

/// A link whose client sends this text, with room for all that is answered.
pub fn link(rt: &impl Abort, alloc: Global, text: &str) -> MemLink {
    let bytes = text.as_bytes().to_vec(alloc).expect(rt, "memory");
    MemLink::make(alloc, bytes, 65_536).expect(rt, "memory")
}

/// The same, but that this write fails, counted from 1, and that no call moves more than `most` bytes.
pub fn failing_link(rt: &impl Abort, alloc: Global, text: &str, write: u64, most: u32) -> MemLink
    requires { 0 < most }
{
    let bytes = text.as_bytes().to_vec(alloc).expect(rt, "memory");
    let link = MemLink::make(alloc, bytes, 65_536).expect(rt, "memory");
    let mut writes = Vec::new(alloc);
    writes.push(write).expect(rt, "memory");
    link.failing(Vec::new(alloc), writes, most)
}

/// A link whose client sends this text byte by byte, so that no line is ahead while another is answered.
pub fn slow_link(rt: &impl Abort, alloc: Global, text: &str) -> MemLink {
    let bytes = text.as_bytes().to_vec(alloc).expect(rt, "memory");
    let link = MemLink::make(alloc, bytes, 65_536).expect(rt, "memory");
    link.failing(Vec::new(alloc), Vec::new(alloc), 1)
}

/// A link was answered so, and then shut, once.
pub fn check_held(rt: &impl Abort, link: &MemLink, answer: &str) {
    assert!(rt; link.held() == answer.as_bytes());
    assert!(rt; link.shuts() == 1);
    assert!(rt; link.held_at_shut() == answer.len());
}

//! Lines in, bytes out: sources, sinks, links and doors that count their faults, a reader of lines, a whole
//! write; and the gate between two turns.
#![tactic(auto)]

mod admission;
mod ahead;
mod calls;
mod door;
mod duplex;
mod gate;
mod gathered;
mod laws;
mod line;
mod line_reader;
mod loopback;
mod mem_door;
mod mem_link;
mod mem_sink;
mod mem_source;
mod read_line;
mod sink;
mod source;
mod std_streams;
mod tcp;
mod whole_write;

pub use admission::{Admission, Arrival, FirstCome, next_arrival};
pub use door::Door;
pub use duplex::Duplex;
pub use gate::{Gate, OpenGate};
pub use laws::laws_of_lines;
pub use line::{Line, LineFault};
pub use line_reader::LineReader;
pub use loopback::Loopback;
pub use mem_door::MemDoor;
pub use mem_link::MemLink;
pub use mem_sink::MemSink;
pub use mem_source::MemSource;
pub use mt_memory::Memory;
pub use sink::Sink;
pub use source::{Failed, Source};
pub use std_streams::{StdIn, StdOut};
pub use tcp::{TcpDoor, TcpLink};
pub use whole_write::{WriteFault, put_all};

//! Why a link failed, or wasn't made.

use tungstenite::Error;

/// Why a call on a link failed: the one that failed last.
#[derive(Debug, Drop)]
pub enum WsCause {
    /// The socket's `read` gave this error, which is no want of memory. That the stream ended without a close is one, and so are bytes that
    /// are no frame, a text that isn't UTF-8 and a message that is too long.
    Read(Error),
    /// The socket's `send` gave this error, which is no want of memory. The line wasn't sent, or may yet leave with a later one.
    Send(Error),
    /// More than 4,096 pings and pongs came in one read.
    Pings,
    /// More than 131,072 bytes were written without a 0x0A.
    Long,
    /// No memory was found for a message.
    Memory,
}

/// Why no link was made.
#[derive(Clone, Copy, Debug, PartialEq, Eq)]
pub enum WsNo {
    /// The handshake failed: the stream failed or ended, what came is no request for a WebSocket, or the page that asks is from elsewhere.
    Handshake,
    /// No memory was found for the handshake or the link.
    Memory,
}

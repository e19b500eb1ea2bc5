//! What a connection is, by the first bytes that come of it.
ghost use Rattle.std.specs.Prelude.{◌≡◌, ◌≢◌, ◌↔◌, ◌++◌, ◌∷◌, [], ℕ, List, IsTrue, MatchOption};
ghost use Rattle.mt_ws.specs.Beginning.{BeginsPlainly, EndsAsRequest, IsNoText, IsRequestLine, IsStart, IsVersion, IsVersionNumber, NeedsMore};
ghost use Rattle.mt_ws.specs.Private.Opening.{IsStartOfLine};

use crate::origin::behind;
use crate::sending::cut;

/// The most bytes of a first line, its 0x0A with them.
pub const LONGEST_FIRST_LINE: usize = 8_192;

/// How many bytes the end of a request's first line has: a blank, `HTTP/`, a digit, a point and a digit.
const VERSION: usize = 9;

/// What a connection is.
#[derive(Clone, Copy, Debug, PartialEq, Eq)]
pub enum Start {
    /// A line session.
    Lines,
    /// The request of a WebSocket, or another one by `GET`.
    Web,
    /// No session: a request of HTTP by another method, or no text, as the greeting of TLS.
    Foreign,
}

/// What these first bytes say that a connection is; none where more are needed. `ended` says that no more come.
pub fn start_of(head: &[u8], ended: bool) -> Option<Start>
    ensures { MatchOption result (NeedsMore head.now ended) (IsStart head.now ended) }
{
    if head.is_empty() {
        return None;
    }
    if head[0] == b'{' {
        return Some(Start::Lines);
    }
    if head[0] == b'G' {
        return Some(Start::Web);
    }
    if is_no_text(head[0]) {
        return Some(Start::Foreign);
    }
    by_first_line(head, ended)
}

// Whether this is a control byte other than tab, line feed and carriage return.
fn is_no_text(byte: u8) -> bool
    ensures { IsTrue result ↔ IsNoText byte }
{
    byte == 127 || (byte < b' ' && byte != b'\t' && byte != b'\n' && byte != b'\r')
}

// What a connection is whose first byte leaves that open.
fn by_first_line(head: &[u8], ended: bool) -> Option<Start>
    requires { BeginsPlainly head.now }
    ensures { MatchOption result (NeedsMore head.now ended) (IsStart head.now ended) }
{
    let (line, whole) = cut(head);
    if whole || ended {
        return Some(start_of_line(line));
    }
    if head.len() >= LONGEST_FIRST_LINE {
        return Some(Start::Foreign);
    }
    None
}

// What a whole first line says.
fn start_of_line(line: &[u8]) -> Start
    ensures { IsStartOfLine line.now result }
{
    if ends_as_request(line) {
        return Start::Foreign;
    }
    Start::Lines
}

// Whether a line ends as the first line of a request of HTTP does.
fn ends_as_request(line: &[u8]) -> bool
    ensures { IsTrue result ↔ EndsAsRequest line.now }
{
    is_request_line(line) || is_request_line_before_return(line)
}

// Whether a version of HTTP and a carriage return stand at the end.
fn is_request_line_before_return(line: &[u8]) -> bool
    ensures { IsTrue result ↔ ((text : List ℕ) × (line.now ≡ text ++ 13 ∷ []) × IsRequestLine text) }
{
    match ahead_of(line, b"\r".as_slice()) {
        Some(text) => is_request_line(text),
        None => false,
    }
}

// Whether a version of HTTP stands at the end.
fn is_request_line(line: &[u8]) -> bool
    ensures { IsTrue result ↔ IsRequestLine line.now }
{
    if line.len() < VERSION {
        return false;
    }
    let (_, version) = line.split_at(line.len() - VERSION);
    is_version(version)
}

// Whether this is a blank, the name of HTTP and a number.
fn is_version(text: &[u8]) -> bool
    ensures { IsTrue result ↔ IsVersion text.now }
{
    match behind(text, b" HTTP/".as_slice()) {
        Some(number) => is_number(number),
        None => false,
    }
}

// Whether this is a digit, a point and a digit.
fn is_number(text: &[u8]) -> bool
    ensures { IsTrue result ↔ IsVersionNumber text.now }
{
    text.len() == 3 && text[0].is_ascii_digit() && text[1] == b'.' && text[2].is_ascii_digit()
}

// What stands ahead of these bytes, where the text ends with them.
fn ahead_of<'a>(text: &'a [u8], end: &[u8]) -> Option<&'a [u8]>
    ensures { MatchOption result ((front : List ℕ) → text.now ≢ front ++ end.now) (λ front. text.now ≡ front.now ++ end.now) }
{
    text.strip_suffix(end)
}

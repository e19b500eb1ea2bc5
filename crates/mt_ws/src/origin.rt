//! Which pages may talk to a server on loopback.
ghost use Rattle.std.specs.Prelude.{◌≡◌, ◌≢◌, ◌++◌, ◌↔◌, ℕ, List, IfOk, IsErr, IsTrue, MatchOption, codes};
ghost use Rattle.http.specs.Request.{head_of};
ghost use Rattle.http_header.specs.HeaderMap.{get};
ghost use Rattle.mt_ws.specs.Private.Origin.{BeginsNot, BeginsWith, IsHost, IsLocalPage, IsForeign, IsName, IsPort, IsScheme};

use http::{Request, Response, StatusCode};
use std::alloc::Global;
use tungstenite::Callback;
use tungstenite::handshake::server::ErrorResponse;

/// Lets a handshake on exactly where it has no Origin, as that of a client that is no browser, or where its first Origin is a page of this
/// machine, at any port. Every other one is refused by status 403, that of `null` too: any site can have it, by a frame in a sandbox.
#[derive(Drop)]
pub struct LocalPages {
    alloc: Global,
}

impl LocalPages {
    /// With this allocator for a refusal.
    pub fn of(alloc: Global) -> LocalPages {
        LocalPages { alloc }
    }
}

impl Callback for LocalPages {
    fn on_request(
        self,
        request: &Request<()>,
        response: Response<()>,
    ) -> Result<Response<()>, ErrorResponse>
        ensures same { IfOk result (λ given. given ≡ response) }
        ensures local { IsErr result ↔ IsForeign (get (head_of request.now).headers (codes "origin")) }
    {
        match request.headers().get("origin") {
            None => Ok(response),
            Some(origin) => {
                if is_local(origin.as_bytes()) {
                    Ok(response)
                } else {
                    Err(refusal(self.alloc))
                }
            }
        }
    }
}

// The answer to a page from elsewhere.
fn refusal(alloc: Global) -> ErrorResponse {
    let mut refusal = Response::new(alloc, None);
    *refusal.status_mut() = StatusCode::FORBIDDEN;
    refusal
}

/// Whether this Origin is a page of this machine, at any port.
pub fn is_local(origin: &[u8]) -> bool
    ensures { IsTrue result ↔ IsLocalPage origin.now }
{
    match behind_scheme(origin) {
        Some(rest) => match behind_host(rest) {
            Some(port) => is_port(port),
            None => false,
        },
        None => false,
    }
}

// What stands after the scheme of a page.
fn behind_scheme(origin: &[u8]) -> Option<&[u8]>
    ensures { MatchOption result (BeginsNot IsScheme origin.now) (λ rest. BeginsWith IsScheme origin.now rest.now) }
{
    match behind(origin, b"http://".as_slice()) {
        Some(rest) => Some(rest),
        None => behind(origin, b"https://".as_slice()),
    }
}

// What stands after a name or an address of this machine.
fn behind_host(text: &[u8]) -> Option<&[u8]>
    ensures { MatchOption result (BeginsNot IsHost text.now) (λ rest. BeginsWith IsHost text.now rest.now) }
{
    match behind_name(text) {
        Some(rest) => Some(rest),
        None => behind(text, b"[::1]".as_slice()),
    }
}

// What stands after its name or its older address.
fn behind_name(text: &[u8]) -> Option<&[u8]>
    ensures { MatchOption result (BeginsNot IsName text.now) (λ rest. BeginsWith IsName text.now rest.now) }
{
    match behind(text, b"127.0.0.1".as_slice()) {
        Some(rest) => Some(rest),
        None => behind(text, b"localhost".as_slice()),
    }
}

/// What stands after these bytes, where the text begins with them.
pub fn behind<'a>(text: &'a [u8], front: &[u8]) -> Option<&'a [u8]>
    ensures { MatchOption result ((rest : List ℕ) → text.now ≢ front.now ++ rest) (λ rest. text.now ≡ front.now ++ rest.now) }
{
    text.strip_prefix(front)
}

// Whether this is no port, or a colon and digits.
fn is_port(port: &[u8]) -> bool
    ensures { IsTrue result ↔ IsPort port.now }
{
    match port {
        [] => true,
        [b':', digits @ ..] => digits.iter().all(|digit| digit.is_ascii_digit()),
        _ => false,
    }
}

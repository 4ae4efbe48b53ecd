// The head of a request.
ghost use Rattle.std.specs.Prelude.{◌≡◌, ℕ, List, Some, None, IfErr, IfOk, IfSome};
ghost use Rattle.httparse.specs.Grammar.{HasNoRequest, ReadsRequest, RequestHead};
ghost use Rattle.ring_status.specs.Requests.{IsRefused, method_of, request_of};

use crate::status::Status;
use crate::target::{Target, read_target};
use httparse::Error;
use httparse::spans::{EMPTY_HEADER_SPAN, parse_request};

/// The most bytes of a request's head.
pub const HEAD_BYTES: usize = 8_192;

/// The most fields of a head.
const FIELDS: usize = 64;

/// How it is asked.
#[derive(Clone, Copy, PartialEq, Eq)]
pub enum Method {
    /// For the whole answer.
    Get,
    /// For the head of the answer alone.
    Head,
}

/// What is asked, and how.
#[derive(Clone, Copy, PartialEq, Eq)]
pub struct HttpRequest {
    pub method: Method,
    pub target: Target,
}

fn method_of(method: &[u8]) -> Result<Method, Status>
    ensures { result ≡ method_of method.now }
{
    if method == b"GET".as_slice() {
        Ok(Method::Get)
    } else if method == b"HEAD".as_slice() {
        Ok(Method::Head)
    } else {
        Err(Status::NotAllowed)
    }
}

// What a method and a target ask.
fn request_of(method: &[u8], target: &[u8]) -> Result<HttpRequest, Status>
    ensures { result ≡ request_of method.now target.now }
{
    let method = method_of(method)?;
    let target = read_target(target)?;
    Ok(HttpRequest { method, target })
}

/// What the head asks that the bytes begin with, or `None` where more bytes may make it whole. Refused as 431 where it
/// has more than 64 fields, as 400 where no bytes behind these make it a head, as 405 where its method is neither GET
/// nor HEAD, and else as its target is.
pub fn read_request(bytes: &[u8]) -> Result<Option<HttpRequest>, Status>
    ensures asked { IfOk result (λ r. IfSome r (λ asked. (head : RequestHead) × (rest : List ℕ)
        × ReadsRequest bytes.now head rest × (request_of head.method head.target ≡ Ok asked))) }
    ensures more { IfOk result (λ r. r ≡ None → HasNoRequest bytes.now) }
    ensures refused { IfErr result (λ why. IsRefused bytes.now why) }
{
    let mut fields = [EMPTY_HEADER_SPAN; FIELDS];
    match parse_request(bytes, &mut fields) {
        Ok(httparse::Status::Complete(head)) => {
            Ok(Some(request_of(head.method.of(bytes), head.path.of(bytes))?))
        }
        Ok(httparse::Status::Partial) => Ok(None),
        Err(Error::TooManyHeaders) => Err(Status::TooLarge),
        Err(_) => Err(Status::BadRequest),
    }
}

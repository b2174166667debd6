// Responses that are held whole.
ghost use Rattle.std.specs.Prelude.{◌≡◌, [], ◌++◌, IfOk, IsTrue, List, ℕ};
ghost use Rattle.case_table.specs.Refusals.{refusal_row};
ghost use Rattle.share_lines.specs.Errors.{takes_detail};
ghost use Rattle.share_reply.specs.Refusing.{Refused};
ghost use Rattle.share_serve.specs.Responses as spec;

use case_table::{Method, Refusal};
use json_tree::Text;
use response_text::head::ContentType;
use response_text::status::Status;
use share_lines::error_text;
use std::alloc::{AllocError, Global};

/// How a response is delivered.
#[derive(Clone, Copy, Debug, PartialEq, Eq)]
pub(crate) struct Delivery {
    /// When it is made, in milliseconds since 1970.
    pub(crate) moment: u64,
    /// Whether the connection is closed behind it.
    pub(crate) closes: bool,
    /// Whether it answers HEAD, and so has no body.
    pub(crate) to_head: bool,
}

/// A response that is held whole: its status, the form of its body, and its body.
#[derive(Drop)]
pub(crate) struct Response {
    pub(crate) status: Status,
    pub(crate) form: ContentType,
    pub(crate) body: Text,
}

fn status_of(refusal: Refusal, allowed: Method) -> Status
    ensures { result ≡ spec.status_by allowed (refusal_row refusal).status }
{
    Status::of_refusal(refusal, allowed)
}

fn refusal_with(
    alloc: Global,
    allowed: Method,
    refusal: Refusal,
    detail: &str,
) -> Result<Response, AllocError>
    requires { IsTrue (takes_detail refusal detail.now) }
    ensures { IfOk result (λ r. r ≡ spec.refusal_with allowed (record { refusal = refusal; detail = detail.now })) }
{
    Ok(Response {
        status: status_of(refusal, allowed),
        form: ContentType::Json,
        body: error_text(alloc, refusal, detail)?,
    })
}

/// The response that tells a refusal with its detail.
pub(crate) fn refusal_response(
    alloc: Global,
    refusal: Refusal,
    detail: &str,
) -> Result<Response, AllocError>
    requires { IsTrue (takes_detail refusal detail.now) }
    ensures { IfOk result (λ r. r ≡ spec.refusal_response (record { refusal = refusal; detail = detail.now })) }
{
    refusal_with(alloc, Method::Get, refusal, detail)
}

/// The response that tells the methods that a route has.
pub(crate) fn only_response(alloc: Global, allowed: Method) -> Result<Response, AllocError>
    ensures { IfOk result (λ r. r ≡ spec.only_response allowed) }
{
    refusal_with(alloc, allowed, Refusal::MethodNotAllowed, "")
}

/// The response that tells how many bytes an object has, where it has none of those that are asked for.
pub(crate) fn out_response(alloc: Global, size: u64) -> Result<Response, AllocError>
    ensures { IfOk result (λ r. r ≡ spec.out_response size) }
{
    Ok(Response {
        status: Status::RangeNotSatisfiable(Some(size)),
        form: ContentType::Json,
        body: error_text(alloc, Refusal::RangeNotSatisfiable, "")?,
    })
}

/// The response that has the bytes of an empty object.
pub(crate) fn empty_response(alloc: Global) -> Response
    ensures { result ≡ spec.file_response [] }
{
    Response {
        status: Status::Ok(None),
        form: ContentType::Bytes,
        body: Text::of(String::new(alloc)),
    }
}

pub(crate) fn json_response(text: Text) -> Response
    ensures { result ≡ spec.json_response text }
{
    Response {
        status: Status::Ok(None),
        form: ContentType::Json,
        body: text,
    }
}

pub(crate) fn version_response(alloc: Global, version: u64) -> Response
    ensures { result ≡ spec.version_response version }
{
    Response {
        status: Status::Ok(Some(version)),
        form: ContentType::Json,
        body: Text::of(String::new(alloc)),
    }
}

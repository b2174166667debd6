// The statuses that are answered.
ghost use Rattle.std.specs.Prelude.{◌≡◌, ◌≤◌, ◌<◌, length};
ghost use Rattle.case_table.specs.Refusals.{refusal_row};
ghost use Rattle.response_text.specs.Statuses.{code, reason, allowed_names as names_of, IsBare};

use case_table::{Method, Refusal};
use file_ranges::part::ByteRange;

/// The names of the methods that are allowed, as the field Allow has them (RFC 9110, section 10.2.1).
pub(crate) fn allowed_names(method: Method) -> &'static str
    ensures names { result.now ≡ names_of method }
    ensures short { length result.now ≤ 9 }
{
    match method {
        Method::Get => "GET",
        Method::Post => "POST",
        Method::GetOrHead => "GET, HEAD",
    }
}

/// The status of a response (RFC 9110, section 15), with what the status calls for in the fields.
#[derive(Clone, Copy, Debug, PartialEq, Eq)]
pub enum Status {
    /// 200, with the version of the table where the answer tells one.
    Ok(Option<u64>),
    /// 206, with the part that is sent.
    PartialContent(ByteRange),
    /// 400.
    BadRequest,
    /// 401, which has the challenge `Bearer`.
    Unauthorized,
    /// 403.
    Forbidden,
    /// 404.
    NotFound,
    /// 405, with the methods that are allowed.
    MethodNotAllowed(Method),
    /// 409.
    Conflict,
    /// 413.
    ContentTooLarge,
    /// 416, with how many bytes the object has, where the answer tells it.
    RangeNotSatisfiable(Option<u64>),
    /// 431 (RFC 6585, section 5).
    RequestHeaderFieldsTooLarge,
    /// 500.
    InternalServerError,
    /// 501.
    NotImplemented,
    /// 503.
    ServiceUnavailable,
}

impl Status {
    /// The status with which a refusal is answered; that of a wrong method tells the methods that are allowed, and that of a range
    /// tells no size.
    pub fn of_refusal(refusal: Refusal, allowed: Method) -> Status
        ensures code { code result ≡ (refusal_row refusal).status }
        ensures bare { IsBare allowed result }
    {
        match refusal {
            Refusal::Unauthenticated => Status::Unauthorized,
            Refusal::LinkInvalid | Refusal::LinkExpired | Refusal::LinkRevoked => Status::Forbidden,
            Refusal::NotFound | Refusal::FileGone => Status::NotFound,
            Refusal::MethodNotAllowed => Status::MethodNotAllowed(allowed),
            Refusal::Conflict | Refusal::Contended => Status::Conflict,
            Refusal::BodyTooLarge => Status::ContentTooLarge,
            Refusal::RangeNotSatisfiable => Status::RangeNotSatisfiable(None),
            Refusal::HeadTooLarge => Status::RequestHeaderFieldsTooLarge,
            Refusal::CatalogBlocked => Status::InternalServerError,
            Refusal::TransferCoding => Status::NotImplemented,
            Refusal::StoreFault => Status::ServiceUnavailable,
            _ => Status::BadRequest,
        }
    }

    /// Its code of three digits.
    pub fn code(&self) -> u16
        ensures value { result ≡ code self.now }
        ensures short { result < 1000 }
    {
        match self {
            Status::Ok(_) => 200,
            Status::PartialContent(_) => 206,
            Status::BadRequest => 400,
            Status::Unauthorized => 401,
            Status::Forbidden => 403,
            Status::NotFound => 404,
            Status::MethodNotAllowed(_) => 405,
            Status::Conflict => 409,
            Status::ContentTooLarge => 413,
            Status::RangeNotSatisfiable(_) => 416,
            Status::RequestHeaderFieldsTooLarge => 431,
            Status::InternalServerError => 500,
            Status::NotImplemented => 501,
            Status::ServiceUnavailable => 503,
        }
    }

    /// Its reason phrase (RFC 9110, section 15; RFC 6585, section 5).
    pub fn reason(&self) -> &'static str
        ensures text { result.now ≡ reason self.now }
        ensures short { length result.now ≤ 31 }
    {
        match self {
            Status::Ok(_) => "OK",
            Status::PartialContent(_) => "Partial Content",
            Status::BadRequest => "Bad Request",
            Status::Unauthorized => "Unauthorized",
            Status::Forbidden => "Forbidden",
            Status::NotFound => "Not Found",
            Status::MethodNotAllowed(_) => "Method Not Allowed",
            Status::Conflict => "Conflict",
            Status::ContentTooLarge => "Content Too Large",
            Status::RangeNotSatisfiable(_) => "Range Not Satisfiable",
            Status::RequestHeaderFieldsTooLarge => "Request Header Fields Too Large",
            Status::InternalServerError => "Internal Server Error",
            Status::NotImplemented => "Not Implemented",
            Status::ServiceUnavailable => "Service Unavailable",
        }
    }
}

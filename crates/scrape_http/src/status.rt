//! The statuses of replies.
ghost use Rattle.std.specs.Prelude.{◌≡◌};
ghost use Rattle.scrape_http.specs.Status.{code_of, phrase_of};

use http::StatusCode;

/// The status of a reply (RFC 9110, section 15; RFC 6585, section 5).
#[derive(Clone, Copy, Debug, PartialEq, Eq)]
pub enum Status {
    /// 200 OK: the text of a scrape.
    Success,
    /// 400 Bad Request: no head of a request, or none or several Host fields where there is to be one.
    BadRequest,
    /// 404 Not Found: another path than `/metrics`.
    NotFound,
    /// 405 Method Not Allowed: neither GET nor HEAD.
    MethodNotAllowed,
    /// 431 Request Header Fields Too Large: no head within 8,192 bytes, or over 64 fields.
    TooLarge,
    /// 503 Service Unavailable: the source had no scrape.
    Unavailable,
}

impl Status {
    /// The code.
    pub fn code(self) -> StatusCode
        ensures { result ≡ code_of self }
    {
        match self {
            Status::Success => StatusCode::OK,
            Status::BadRequest => StatusCode::BAD_REQUEST,
            Status::NotFound => StatusCode::NOT_FOUND,
            Status::MethodNotAllowed => StatusCode::METHOD_NOT_ALLOWED,
            Status::TooLarge => StatusCode::REQUEST_HEADER_FIELDS_TOO_LARGE,
            Status::Unavailable => StatusCode::SERVICE_UNAVAILABLE,
        }
    }

    /// The phrase that stands behind the code.
    pub(crate) fn phrase(self) -> &'static str
        ensures { result.now ≡ phrase_of self }
    {
        self.code().canonical_reason().unwrap()
    }
}

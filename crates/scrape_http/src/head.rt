//! What the head of a request asks for.
ghost use Rattle.std.specs.Prelude.{◌≡◌, length, All, count_by};
ghost use Rattle.httparse.specs.Spans.{IsRequestWithin, IsRequestAt, IsHeaderWithin, span_bytes};
ghost use Rattle.httparse.specs.Grammar.{RequestHead};
ghost use Rattle.scrape_http.specs.Head.{is_host, is_get_or_head, refusal_by, wanted_of};

use crate::request::Wanted;
use crate::status::Status;
use crate::target::path_of;
use http::Method;
use httparse::spans::{HeaderSpan, RequestSpans};

/// Whether it is the name of a Host field, in any case.
fn is_host(name: &[u8]) -> bool
    ensures { result ≡ is_host name.now }
{
    name.eq_ignore_ascii_case(b"Host")
}

/// How many of the fields are Host fields.
fn hosts_in(bytes: &[u8], fields: &[HeaderSpan]) -> usize
    requires { All (IsHeaderWithin (length bytes.now)) fields.now }
    ensures { result ≡ count_by (λ field. is_host (span_bytes bytes.now field.name)) fields.now }
{
    let mut count = 0;
    for field in fields {
        if is_host(field.name.of(bytes)) {
            count += 1;
        }
    }
    count
}

/// Whether metrics are read by this method.
fn is_get_or_head(method: &[u8]) -> bool
    ensures { result ≡ is_get_or_head method.now }
{
    method == Method::GET.as_str().as_bytes() || method == Method::HEAD.as_str().as_bytes()
}

/// Why a request is refused, if it is, by its first cause: the Host fields, the path, the method.
fn refusal(hosts: usize, minor: u8, target: &[u8], method: &[u8]) -> Option<Status>
    ensures { result ≡ refusal_by hosts minor target.now method.now }
{
    if hosts > 1 || (minor == 1 && hosts == 0) {
        Some(Status::BadRequest)
    } else if path_of(target) != b"/metrics".as_slice() {
        Some(Status::NotFound)
    } else if !is_get_or_head(method) {
        Some(Status::MethodNotAllowed)
    } else {
        None
    }
}

/// What a whole head asks for.
pub(crate) fn wanted_of(bytes: &[u8], head: &RequestSpans, fields: &[HeaderSpan]) -> Wanted
    requires within { IsRequestWithin bytes.now fields.now head.now }
    ensures { (h : RequestHead) → IsRequestAt bytes.now fields.now head.now h → result ≡ wanted_of h }
{
    let hosts = hosts_in(bytes, &fields[..head.headers]);
    let method = head.method.of(bytes);
    // What httparse calls a path is the whole target.
    Wanted {
        refusal: refusal(hosts, head.version, head.path.of(bytes), method),
        with_body: method != Method::HEAD.as_str().as_bytes(),
    }
}

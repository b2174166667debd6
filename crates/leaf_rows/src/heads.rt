// Heads of responses as they go out.
use crate::answer::Answer;
use crate::given::Given;
use case_table::{Method, Refusal};
use file_ranges::part::ByteRange;
use response_text::head::{ContentType, ResponseHead};
use response_text::head_text;
use response_text::status::Status;
use row_files::RowFault;
use serde_json::Value;

// The last moment that has a date.
const LAST: u64 = 253_402_300_799_999;

fn method(word: &str) -> Option<Method> {
    match word {
        "Get" => Some(Method::Get),
        "Post" => Some(Method::Post),
        "GetOrHead" => Some(Method::GetOrHead),
        _ => None,
    }
}

// The status of a part, from a first to a last place of so many bytes.
fn partial(numbers: &[Value]) -> Option<Status> {
    let [first, last, size] = numbers else {
        return None;
    };
    let range = ByteRange::of(first.as_u64()?, last.as_u64()?, size.as_u64()?)?;
    Some(Status::PartialContent(range))
}

// That of a `refusal`, of a `part`, of a range that isn't satisfiable where there is a `size`, or of an answer, maybe of a `version`.
fn status_in(with: &Value) -> Option<Status> {
    if let Some(word) = with.get("refusal") {
        let allowed = method(with.get("allowed")?.as_str()?)?;
        return Some(Status::of_refusal(Refusal::of_word(word.as_str()?)?, allowed));
    }
    if let Some(numbers) = with.get("part") {
        return partial(numbers.as_array()?);
    }
    match with.get("size") {
        Some(size) => Some(Status::RangeNotSatisfiable(Some(size.as_u64()?))),
        None => Some(Status::Ok(with.get("version").and_then(Value::as_u64))),
    }
}

fn content_type(word: &str) -> Option<ContentType> {
    match word {
        "Json" => Some(ContentType::Json),
        "JsonLines" => Some(ContentType::JsonLines),
        "DeltaLines" => Some(ContentType::DeltaLines),
        "Bytes" => Some(ContentType::Bytes),
        _ => None,
    }
}

fn head_in(given: &Given, out: &mut Answer) -> Option<ResponseHead> {
    let status = status_in(given.with)?;
    let content_type = content_type(given.word("type", out))?;
    let length = given.word("length", out).parse::<u128>().ok()?;
    let moment = given.number("moment", out);
    if moment > LAST {
        return None;
    }
    Some(ResponseHead {
        status,
        moment,
        content_type,
        length,
        closes: given.flag("closes", out),
    })
}

fn head(given: &Given, out: &mut Answer) {
    match head_in(given, out) {
        Some(head) => match head_text(out.alloc(), &head) {
            Ok(text) => out.bytes(&text),
            Err(_) => out.fail(RowFault::NoMemory),
        },
        None => out.lacks("head"),
    }
}

// The code and the reason of a status.
fn status(given: &Given, out: &mut Answer) {
    match status_in(given.with) {
        Some(status) => {
            out.number("", u64::from(status.code()));
            out.words(" ", status.reason());
        }
        None => out.lacks("status"),
    }
}

/// Answers a call, where it is one of these.
pub(crate) fn answer(call: &str, given: &Given, out: &mut Answer) -> bool {
    match call {
        "response_text" => head(given, out),
        "status" => status(given, out),
        _ => return false,
    }
    true
}

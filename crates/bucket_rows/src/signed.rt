// Requests, signed.
use json_tree::Text;
use row_files::{RowFault, RowFile, list_at, number_at, text_at, text_or_nothing, word_at};
use serde_json::Value;
use signed_call::{
    Asked, Call, CallKey, CallPlace, Fields, Method, Stamp, authorization, head_text, stamp_of,
};

const LAST_MOMENT: u64 = 253_402_300_799_999;

fn word(file: &RowFile, row: &Value, name: &'static str) -> Result<Text, RowFault> {
    match String::from_utf8(text_at(file, row, name)?) {
        Ok(text) => Ok(Text::of(text)),
        Err(_) => Err(RowFault::Member(name)),
    }
}

fn key_of(file: &RowFile, row: &Value) -> Result<CallKey, RowFault> {
    let token = match word_at(row, "session") {
        Some(_) => Some(word(file, row, "session")?),
        None => None,
    };
    Ok(CallKey {
        id: word(file, row, "id")?,
        secret: word(file, row, "secret")?,
        token,
    })
}

fn stamp(row: &Value) -> Result<Stamp, RowFault> {
    match number_at(row, "moment")? {
        Some(moment) if moment <= LAST_MOMENT => Ok(stamp_of(moment)),
        _ => Err(RowFault::Member("moment")),
    }
}

fn method(row: &Value) -> Result<Method, RowFault> {
    match word_at(row, "method") {
        Some("GET") => Ok(Method::Get),
        Some("HEAD") => Ok(Method::Head),
        Some("PUT") => Ok(Method::Put),
        _ => Err(RowFault::Member("method")),
    }
}

// The fields, or parameters, of a list of `[NAME,VALUE]`.
fn fields(file: &RowFile, row: &Value, name: &'static str) -> Result<Fields, RowFault> {
    let mut fields = Fields::new(file.alloc());
    for pair in list_at(row, name)? {
        match (
            pair.get(0).and_then(Value::as_str),
            pair.get(1).and_then(Value::as_str),
        ) {
            (Some(name), Some(value)) => fields.push(file.alloc(), name, value)?,
            _ => return Err(RowFault::Member(name)),
        }
    }
    Ok(fields)
}

/// The value of Authorization for what is asked.
pub(crate) fn authorization_of(file: &RowFile, row: &Value) -> Result<Vec<u8>, RowFault> {
    let asked = Asked {
        method: method(row)?,
        path: word(file, row, "path")?,
        query: fields(file, row, "query")?,
        fields: fields(file, row, "fields")?,
        digest: word(file, row, "digest")?,
    };
    let key = key_of(file, row)?;
    let region = word(file, row, "region")?;
    let text = authorization(file.alloc(), &key, region.as_str(), &stamp(row)?, &asked)?;
    Ok(Vec::from_slice(file.alloc(), text.as_str().as_bytes())?)
}

fn call_of<'a>(
    row: &Value,
    name: &'a str,
    mark: &'a str,
    token: &'a str,
    bytes: &'a [u8],
) -> Result<Call<'a>, RowFault> {
    let token = if token.is_empty() { None } else { Some(token) };
    match word_at(row, "asks") {
        Some("get") => Ok(Call::Get {
            name,
            from: number_at(row, "from")?.unwrap_or(0),
            last: number_at(row, "last")?.unwrap_or(0),
        }),
        Some("head") => Ok(Call::Head { name }),
        Some("put") => Ok(Call::PutAbsent { name, mark, bytes }),
        Some("list") => Ok(Call::List {
            prefix: name,
            token,
        }),
        _ => Err(RowFault::Member("asks")),
    }
}

/// The text of a request up to its body.
pub(crate) fn head_of(file: &RowFile, row: &Value) -> Result<Vec<u8>, RowFault> {
    let key = key_of(file, row)?;
    let place = CallPlace {
        host: word(file, row, "host")?,
        region: word(file, row, "region")?,
        bucket: word(file, row, "bucket")?,
    };
    let bytes = text_or_nothing(file, row, "bytes")?;
    let call = call_of(
        row,
        word_at(row, "object").unwrap_or(""),
        word_at(row, "mark").unwrap_or(""),
        word_at(row, "token").unwrap_or(""),
        &bytes,
    )?;
    let text = head_text(file.alloc(), &key, &place, &stamp(row)?, &call)?;
    Ok(Vec::from_slice(file.alloc(), text.as_str().as_bytes())?)
}

// The parts of a text.
use crate::file::{RowFault, RowFile};
use base64::engine::general_purpose::STANDARD;
use itoa::Buffer;
use serde_json::Value;
use std::alloc::Global;

// Appends the text of a JSON string, or that of which it is the name.
fn push_plain(file: &RowFile, text: &str, out: &mut Vec<u8>) -> Result<(), RowFault> {
    match text.strip_prefix('$') {
        Some(name) if name.starts_with('$') => out.extend_from_slice(name.as_bytes())?,
        Some(name) => out.extend_from_slice(file.named(name)?)?,
        None => out.extend_from_slice(text.as_bytes())?,
    }
    Ok(())
}

// Appends plain texts, one after another.
fn push_joined(file: &RowFile, value: &Value, out: &mut Vec<u8>) -> Result<(), RowFault> {
    match value {
        Value::String(text) => push_plain(file, text, out),
        Value::Array(parts) => {
            for part in parts {
                match part {
                    Value::String(text) => push_plain(file, text, out)?,
                    _ => return Err(RowFault::Text),
                }
            }
            Ok(())
        }
        _ => Err(RowFault::Text),
    }
}

/// A count, none where the value is no such number.
pub(crate) fn count_of(value: &Value) -> Option<u64> {
    value.as_u64()
}

/// The two values of a list that has two.
pub(crate) fn two(value: &Value) -> Option<(&Value, &Value)> {
    let Value::Array(pair) = value else {
        return None;
    };
    match pair.as_slice() {
        [first, second] => Some((first, second)),
        _ => None,
    }
}

fn push_times(
    file: &RowFile,
    count: u64,
    value: &Value,
    out: &mut Vec<u8>,
) -> Result<(), RowFault> {
    for _ in 0..count {
        push_joined(file, value, out)?;
    }
    Ok(())
}

fn push_front(
    file: &RowFile,
    count: u64,
    value: &Value,
    out: &mut Vec<u8>,
) -> Result<(), RowFault> {
    let from = out.len();
    push_joined(file, value, out)?;
    match usize::try_from(count) {
        Ok(count) if count <= out.len().saturating_sub(from) => {
            out.truncate(from.saturating_add(count));
            Ok(())
        }
        _ => Err(RowFault::Text),
    }
}

fn push_sized(
    file: &RowFile,
    head: &Value,
    body: &Value,
    out: &mut Vec<u8>,
) -> Result<(), RowFault> {
    push_joined(file, head, out)?;
    let mut bytes = Vec::new(file.alloc());
    push_joined(file, body, &mut bytes)?;
    out.extend_from_slice(b"Content-Length: ")?;
    out.extend_from_slice(Buffer::new().format(bytes.len()).as_bytes())?;
    out.extend_from_slice(b"\r\n\r\n")?;
    out.extend_from_slice(&bytes)?;
    Ok(())
}

// Appends the digits of a number below 10^8, up to so many.
fn push_digits(number: u64, most: usize, out: &mut Vec<u8>) -> Result<(), RowFault> {
    let mut unit = 10_000_000u64;
    for place in 0..8usize {
        if place < most {
            let digit = (number / unit.max(1) % 10) as u8;
            out.push(b'0' + digit)?;
        }
        unit /= 10;
    }
    Ok(())
}

fn push_counted(size: u64, out: &mut Vec<u8>) -> Result<(), RowFault> {
    let Ok(size) = usize::try_from(size) else {
        return Err(RowFault::Text);
    };
    let mut left = size;
    for number in 0..u64::MAX {
        if left == 0 {
            break;
        }
        push_digits(number, left, out)?;
        left = left.saturating_sub(8);
    }
    Ok(())
}

fn push_base64(alloc: Global, text: &str, out: &mut Vec<u8>) -> Result<(), RowFault> {
    match STANDARD.decode(alloc, text.as_bytes()) {
        Ok(bytes) => Ok(out.extend_from_slice(&bytes)?),
        Err(_) => Err(RowFault::Text),
    }
}

// Appends what a form makes of a number and plain texts.
fn push_numbered(
    file: &RowFile,
    form: &str,
    count: u64,
    value: &Value,
    out: &mut Vec<u8>,
) -> Result<(), RowFault> {
    match form {
        "times" => push_times(file, count, value, out),
        "front" => push_front(file, count, value, out),
        _ => Err(RowFault::Text),
    }
}

// Appends what a form makes of two values.
fn push_pair(
    file: &RowFile,
    form: &str,
    first: &Value,
    second: &Value,
    out: &mut Vec<u8>,
) -> Result<(), RowFault> {
    match count_of(first) {
        Some(count) => push_numbered(file, form, count, second, out),
        None if form == "sized" => push_sized(file, first, second, out),
        None => Err(RowFault::Text),
    }
}

fn push_form(file: &RowFile, form: &str, value: &Value, out: &mut Vec<u8>) -> Result<(), RowFault> {
    match form {
        "base64" => match value {
            Value::String(text) => push_base64(file.alloc(), text, out),
            _ => Err(RowFault::Text),
        },
        "counted" => match count_of(value) {
            Some(size) => push_counted(size, out),
            None => Err(RowFault::Text),
        },
        _ => match two(value) {
            Some((first, second)) => push_pair(file, form, first, second, out),
            None => Err(RowFault::Text),
        },
    }
}

// Appends a PART.
fn push_part(file: &RowFile, part: &Value, out: &mut Vec<u8>) -> Result<(), RowFault> {
    match part {
        Value::String(text) => push_plain(file, text, out),
        Value::Object(members) => match members.iter().next() {
            Some((form, value)) => push_form(file, form, value, out),
            None => Err(RowFault::Text),
        },
        _ => Err(RowFault::Text),
    }
}

/// Appends a TEXT.
pub(crate) fn push_text(file: &RowFile, value: &Value, out: &mut Vec<u8>) -> Result<(), RowFault> {
    let Value::Array(parts) = value else {
        return push_part(file, value, out);
    };
    for part in parts {
        push_part(file, part, out)?;
    }
    Ok(())
}

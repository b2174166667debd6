// What answers decide.
use bucket_store::{GetReply, Look, get_next, looked, put_next, put_reply, size_next};
use row_files::{RowFault, RowFile, flag_at, number_at, word_at};
use serde_json::Value;
use std::fmt::Debug;

// As `Debug` shows it.
fn shown<T: Debug>(file: &RowFile, value: T) -> Result<Vec<u8>, RowFault>
where
    T: Drop,
{
    Ok(format!(in file.alloc(); "{value:?}")?.into_bytes())
}

// The status of that name; none where the line was lost.
fn status(row: &Value) -> Result<Option<u16>, RowFault> {
    match number_at(row, "status")? {
        Some(number) if number < 1000 => Ok(Some(number as u16)),
        Some(_) => Err(RowFault::Member("status")),
        None => Ok(None),
    }
}

// Which request of its call it is.
fn made(row: &Value) -> Result<u32, RowFault> {
    match number_at(row, "made")? {
        Some(number) if number < 1000 => Ok(number as u32),
        _ => Err(RowFault::Member("made")),
    }
}

/// What follows from the answer to a put, or from a look behind it.
pub(crate) fn put_told(file: &RowFile, row: &Value) -> Result<Vec<u8>, RowFault> {
    match word_at(row, "look") {
        Some("ours") => shown(file, looked(Look::Ours)),
        Some("others") => shown(file, looked(Look::Others)),
        Some("nothing") => shown(file, looked(Look::Nothing)),
        Some(_) => Err(RowFault::Member("look")),
        None => shown(file, put_next(made(row)?, put_reply(status(row)?))),
    }
}

/// What follows from the answer to a get.
pub(crate) fn get_told(file: &RowFile, row: &Value) -> Result<Vec<u8>, RowFault> {
    let range = match (number_at(row, "first")?, number_at(row, "end")?) {
        (Some(first), Some(end)) => Some((first, end)),
        _ => None,
    };
    let reply = GetReply {
        status: status(row)?,
        range,
        length: number_at(row, "length")?.unwrap_or(0),
        no_such_key: flag_at(row, "no_such_key")?,
    };
    let from = number_at(row, "from")?.unwrap_or(0);
    let last = number_at(row, "last")?.unwrap_or(0);
    shown(file, get_next(made(row)?, from, last, &reply))
}

/// What follows from the answer to a look at a size.
pub(crate) fn size_told(file: &RowFile, row: &Value) -> Result<Vec<u8>, RowFault> {
    shown(
        file,
        size_next(made(row)?, status(row)?, number_at(row, "length")?),
    )
}

// The members of a row.
use crate::file::{RowFault, RowFile};
use crate::parts::count_of;
use serde_json::Value;
use std::alloc::Global;

/// The member of that name, if it is there.
pub fn member_at<'a>(of: &'a Value, name: &str) -> Option<&'a Value> {
    of.get(name)
}

/// The characters of the string of that name, none where it is lacking or something else.
pub fn word_at<'a>(of: &'a Value, name: &str) -> Option<&'a str> {
    match member_at(of, name) {
        Some(Value::String(text)) => Some(text.as_str()),
        _ => None,
    }
}

/// The truth value of that name, false where it is lacking.
pub fn flag_at(of: &Value, name: &'static str) -> Result<bool, RowFault> {
    match member_at(of, name) {
        None => Ok(false),
        Some(Value::Bool(flag)) => Ok(*flag),
        Some(_) => Err(RowFault::Member(name)),
    }
}

/// The number of that name, none where it is lacking.
pub fn number_at(of: &Value, name: &'static str) -> Result<Option<u64>, RowFault> {
    let Some(value) = member_at(of, name) else {
        return Ok(None);
    };
    match count_of(value) {
        Some(number) => Ok(Some(number)),
        None => Err(RowFault::Member(name)),
    }
}

/// The values of the list of that name, none where it is lacking.
pub fn list_at<'a>(of: &'a Value, name: &'static str) -> Result<&'a [Value], RowFault> {
    match member_at(of, name) {
        None => Ok(&[]),
        Some(Value::Array(values)) => Ok(values.as_slice()),
        Some(_) => Err(RowFault::Member(name)),
    }
}

fn push_numbers(of: &Value, name: &'static str, numbers: &mut Vec<u64>) -> Result<(), RowFault> {
    for value in list_at(of, name)? {
        match count_of(value) {
            Some(number) => numbers.push(number)?,
            None => return Err(RowFault::Member(name)),
        }
    }
    Ok(())
}

/// The numbers of the list of that name, none where it is lacking.
pub fn numbers_at(alloc: Global, of: &Value, name: &'static str) -> Result<Vec<u64>, RowFault> {
    let mut numbers = Vec::new(alloc);
    push_numbers(of, name, &mut numbers)?;
    Ok(numbers)
}

/// The TEXT of that name.
pub fn text_at(file: &RowFile, of: &Value, name: &'static str) -> Result<Vec<u8>, RowFault> {
    match member_at(of, name) {
        Some(value) => file.text(value),
        None => Err(RowFault::Member(name)),
    }
}

/// The TEXT of that name, empty where it is lacking.
pub fn text_or_nothing(file: &RowFile, of: &Value, name: &str) -> Result<Vec<u8>, RowFault> {
    match member_at(of, name) {
        Some(value) => file.text(value),
        None => Ok(Vec::new(file.alloc())),
    }
}

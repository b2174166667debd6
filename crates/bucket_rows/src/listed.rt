// Bodies of answers, read.
use bucket_text::{Fault, Listing, code_of, listing_of};
use json_tree::Text;
use row_files::{RowFault, RowFile, text_at};
use serde_json::Value;
use std::alloc::AllocError;

fn push_line(out: &mut Vec<u8>, text: &Text) -> Result<(), AllocError> {
    out.extend_from_slice(text.as_str().as_bytes())?;
    out.extend_from_slice(b"\n")
}

fn push_listing(out: &mut Vec<u8>, listing: &Listing) -> Result<(), AllocError> {
    for key in listing.keys.items() {
        push_line(out, key)?;
    }
    if let Some(next) = &listing.next {
        out.extend_from_slice(b"next ")?;
        push_line(out, next)?;
    }
    Ok(())
}

/// The keys of a page, a line each, and where it goes on; or that it is bad.
pub(crate) fn listing_told(file: &RowFile, row: &Value) -> Result<Vec<u8>, RowFault> {
    let body = text_at(file, row, "body")?;
    let mut out = Vec::new(file.alloc());
    match listing_of(file.alloc(), &body) {
        Ok(listing) => push_listing(&mut out, &listing)?,
        Err(Fault::Bad) => out.extend_from_slice(b"bad")?,
        Err(Fault::NoMemory) => return Err(RowFault::NoMemory),
    }
    Ok(out)
}

/// The code of an error, or that it is bad.
pub(crate) fn code_told(file: &RowFile, row: &Value) -> Result<Vec<u8>, RowFault> {
    let body = text_at(file, row, "body")?;
    let mut out = Vec::new(file.alloc());
    match code_of(file.alloc(), &body) {
        Ok(code) => push_line(&mut out, &code)?,
        Err(Fault::Bad) => out.extend_from_slice(b"bad")?,
        Err(Fault::NoMemory) => return Err(RowFault::NoMemory),
    }
    Ok(out)
}

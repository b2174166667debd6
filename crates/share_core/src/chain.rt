// The pages of a chain, joined.
ghost use Rattle.std.specs.Prelude.{◌≡◌, ◌++◌, ◌∷◌, [], IfOk, OnOk, filter, option_map};
ghost use Rattle.share_lines.specs.Bodies.{lines_in};
ghost use Rattle.share_core.specs.Chains as chains;

use crate::reply::{Body, Reply};
use share_lines::{Line, Lines, LinesFault, lines_of};
use share_request::ResponseFormat;
use std::alloc::{AllocError, Global};
use std::collections::VecDeque;

// Whether a line is a file or a change.
fn is_content(line: &Line) -> bool
    ensures { result ≡ chains.is_content line.now }
{
    match line {
        Line::File(_) => true,
        Line::Add(_) => true,
        Line::Cdf(_) => true,
        Line::Remove(_) => true,
        Line::Protocol => false,
        Line::MetaData(_) => false,
        Line::End(_) => false,
    }
}

// The lines of a text, none where it isn't lines.
fn lines_in_text(alloc: Global, text: &[u8]) -> Result<Option<Lines>, AllocError>
    ensures { IfOk result (λ o. option_map (filter chains.is_content) o ≡ chains.content_read (lines_in text.now)) }
{
    match lines_of(alloc, text) {
        Ok(lines) => Ok(Some(lines)),
        Err(LinesFault::Bad { .. }) => Ok(None),
        Err(LinesFault::NoMemory) => Err(AllocError),
    }
}

// The lines of a body, none where it isn't lines in the parquet format.
fn lines_in_body(alloc: Global, body: &Body) -> Result<Option<Lines>, AllocError>
    ensures { IfOk result (λ o. option_map (filter chains.is_content) o ≡ chains.content_in body.now) }
{
    match body {
        Body::Lines(ResponseFormat::Parquet, text) => lines_in_text(alloc, text.get()),
        Body::Lines(ResponseFormat::Delta, _) => Ok(None),
        Body::Empty => Ok(None),
        Body::Json(_) => Ok(None),
        Body::File(..) => Ok(None),
    }
}

// The lines of a page of status 200, none where a reply isn't one.
fn lines_in_page(alloc: Global, reply: &Reply) -> Result<Option<Lines>, AllocError>
    ensures { IfOk result (λ o. option_map (filter chains.is_content) o ≡ chains.page_in reply.now) }
{
    if reply.status == 200 {
        lines_in_body(alloc, &reply.body)
    } else {
        Ok(None)
    }
}

// Adds a line that is a file or a change.
fn push_line(content: &mut Vec<Line>, line: Line) -> Result<(), AllocError>
    ensures { OnOk result (content.new.items ≡ content.old.items ++ filter chains.is_content (line ∷ [])) }
{
    if is_content(&line) {
        content.push(line)?;
        Ok(())
    } else {
        Ok(())
    }
}

// Adds the files or changes of a page's lines.
fn push_content(content: &mut Vec<Line>, mut lines: VecDeque<Line>) -> Result<(), AllocError>
    ensures { OnOk result (content.new.items ≡ content.old.items ++ filter chains.is_content lines.items) }
{
    while let Some(line) = lines.pop_front() {
        push_line(content, line)?;
    }
    Ok(())
}

/// The files or the changes of a chain's pages, joined: none exactly where a reply isn't a page of status 200 in the parquet format. The
/// error is want of memory.
pub fn join_pages(alloc: Global, replies: &[Reply]) -> Result<Option<Lines>, AllocError>
    ensures { IfOk result (λ o. o ≡ chains.joined replies.now) }
{
    let mut content = Vec::new(alloc);
    for reply in replies {
        match lines_in_page(alloc, reply)? {
            Some(lines) => push_content(&mut content, VecDeque::from(lines.into_items()))?,
            None => return Ok(None),
        }
    }
    Ok(Some(Lines::of(content)))
}

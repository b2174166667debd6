// A page of a table's files or of its changes.
ghost use Rattle.std.specs.Prelude.{◌≡◌, Option, IfOk, MatchBool, MatchOption, MatchResult, Some, None};
ghost use Rattle.json_tree.specs.Gives.{AnswersBy};
ghost use Rattle.share_lines.specs.Bodies.{lacks_memory};
ghost use Rattle.share_client.specs.Listings.{or_start};
ghost use Rattle.share_client.specs.Reads.{GivesText, ReadsPage};
ghost use Rattle.share_client.specs.TablePages.{Form, change_in, content_in, head_with, page_with, parts_in, table_page_in, token_of};
ghost use Rattle.share_client.specs.TableSteps.{ReadsParts, ReadsTablePage};

use crate::ClientFault;
use crate::exchange::Response;
use crate::page_head::PageHead;
use crate::table_version::version_in;
use json_tree::{Text, unless_empty};
use share_lines::{EndLine, FileLine, Line, LinesFault};
use std::alloc::{AllocError, Global};
use std::collections::VecDeque;

// A line of a page, by the form in which the page comes.
pub(crate) trait PageLine: Sized + Drop {
    // What stands in front of the files or changes.
    type Front: Drop;

    // The form.
    ghost form: { Form Self Self.Front };

    // The lines of a body.
    fn lines(alloc: Global, bytes: &[u8]) -> Result<Vec<Self>, LinesFault>
        ensures { AnswersBy lacks_memory (λ ls. ls.items) result (form.lines bytes.now) };

    // Takes away what stands in front.
    fn take_front(lines: &mut VecDeque<Self>) -> Option<Self::Front>
        ensures { MatchOption result (form.front lines.old.items ≡ None) (λ f. form.front lines.old.items ≡ Some (f, lines.new.items)) };

    // The text of that.
    fn front_text(alloc: Global, front: &Self::Front) -> Result<Text, AllocError>
        ensures { IfOk result (λ t. t ≡ form.text front.now) };

    // The end, where the line is one.
    fn end(self) -> Option<EndLine>
        ensures { result ≡ form.ends self };
}

// What the pages of an answer have.
pub(crate) trait Content: Sized + Drop {
    // A line of such a page.
    type Line: PageLine;

    // What is read of a line, if anything.
    ghost reads: { Self.Line → Option Self };

    // What a line has, or the line where it has something else.
    fn of_line(line: Self::Line) -> Result<Self, Self::Line>
        ensures { MatchResult result (λ item. reads line ≡ Some item) (λ other. (reads line ≡ None) × (other ≡ line)) };
}

impl Content for FileLine {
    ghost use Rattle.share_client.specs.TablePages.{file_in};

    type Line = Line;

    ghost reads = { file_in };

    fn of_line(line: Line) -> Result<FileLine, Line> {
        match line {
            Line::File(file) => Ok(file),
            other => Err(other),
        }
    }
}

fn is_change(line: &Line) -> bool
    ensures { MatchBool result (change_in line.now ≡ Some line.now) (change_in line.now ≡ None) }
{
    matches!(line, Line::Add(_) | Line::Cdf(_) | Line::Remove(_))
}

impl Content for Line {
    ghost use Rattle.share_client.specs.TablePages.{change_in};

    type Line = Line;

    ghost reads = { change_in };

    fn of_line(line: Line) -> Result<Line, Line> {
        if is_change(&line) {
            Ok(line)
        } else {
            Err(line)
        }
    }
}

// The token of an end, which has to be the last line.
fn token_of<P: PageLine>(line: P, last: bool) -> Result<Option<Text>, ClientFault>
    ensures { GivesText result (token_of P.form line last) }
{
    match line.end() {
        Some(end) if last => Ok(unless_empty(end.token)),
        _ => Err(ClientFault::BadReply { at: 0 }),
    }
}

// Moves the files or changes behind those that were read before. The answer is the token of the end, if there is one.
fn read_content<T: Content>(
    found: &mut Vec<T>,
    mut lines: VecDeque<T::Line>,
) -> Result<Option<Text>, ClientFault>
    ensures { ReadsPage found.old.items found.new.items (content_in T.Line.form T.reads lines.items) result }
{
    while let Some(line) = lines.pop_front() {
        match T::of_line(line) {
            Ok(item) => found.push(item)?,
            Err(line) => return token_of(line, lines.is_empty()),
        }
    }
    Ok(None)
}

fn read_parts<T: Content>(
    found: &mut Vec<T>,
    mut lines: VecDeque<T::Line>,
) -> Result<(<T::Line as PageLine>::Front, Option<Text>), ClientFault>
    ensures { ReadsParts found.old.items found.new.items (parts_in T.Line.form T.reads lines.items) result }
{
    match <T::Line as PageLine>::take_front(&mut lines) {
        Some(front) => match read_content(found, lines) {
            Ok(token) => Ok((front, token)),
            Err(fault) => Err(fault),
        },
        None => Err(ClientFault::BadReply { at: 0 }),
    }
}

fn head_of<P: PageLine>(
    alloc: Global,
    version: u64,
    front: P::Front,
) -> Result<PageHead<P::Front>, AllocError>
    ensures { IfOk result (λ head. head ≡ head_with P.form version front) }
{
    let text = P::front_text(alloc, &front)?;
    Ok(PageHead {
        version,
        front,
        text,
    })
}

// Reads the page of that version and those lines, its files or changes behind those that were read before.
fn read_page<T: Content>(
    alloc: Global,
    found: &mut Vec<T>,
    version: u64,
    lines: VecDeque<T::Line>,
) -> Result<(PageHead<<T::Line as PageLine>::Front>, Option<Text>), ClientFault>
    ensures { ReadsTablePage found.old.items found.new.items (or_start (page_with T.Line.form T.reads version lines.items)) result }
{
    match read_parts(found, lines) {
        Ok((front, token)) => Ok((head_of::<T::Line>(alloc, version, front)?, token)),
        Err(fault) => Err(fault),
    }
}

// The same of a response. The answer is what all pages have alike, and the token of the next page.
pub(crate) fn read_table_page<T: Content>(
    alloc: Global,
    found: &mut Vec<T>,
    response: &Response,
) -> Result<(PageHead<<T::Line as PageLine>::Front>, Option<Text>), ClientFault>
    ensures { ReadsTablePage found.old.items found.new.items (table_page_in T.Line.form T.reads response.now) result }
{
    let Some(version) = version_in(response) else {
        return Err(ClientFault::BadReply { at: 0 });
    };
    match <T::Line as PageLine>::lines(alloc, response.body.as_slice()) {
        Ok(lines) => read_page(alloc, found, version, VecDeque::from(lines)),
        Err(LinesFault::Bad { at }) => Err(ClientFault::BadReply { at }),
        Err(LinesFault::NoMemory) => Err(ClientFault::NoMemory),
    }
}

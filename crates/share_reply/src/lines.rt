// The lines of a reply.
ghost use Rattle.std.specs.Prelude.{◌≡◌, ◌<◌, ◌+◌, ◌^◌, ◌++◌, [], IfOk, List, OnErr, OnOk, length, map, option_map, option_to_list, slice_get, unwrap_or, ℕ};
ghost use Rattle.delta_lines.specs.declared.kinds.DeltaLine.TheVariants as line;
ghost use Rattle.json_print.specs.Lengths.{capped};
ghost use Rattle.page_token.specs.declared.cursor.TableAccess.{TableAccess};
ghost use Rattle.share_reply.specs.Formats.{text_in};
ghost use Rattle.share_reply.specs.Planned.{content_lines, count_of, fed, given_in, line_from, lines_of, linked_in};
ghost use Rattle.share_reply.specs.declared.keys.ReplyKeys.{ReplyKeys};

use crate::access::Signing;
use crate::given::{Given, delta_parts, plain_protocol};
use change_feed::Change;
use delta_lines::{
    delta_meta_len, delta_parts_len, delta_protocol_len, push_delta_file, push_delta_meta,
    push_delta_protocol,
};
use json_tree::{Millis, Pairs, Text};
use log_actions::{AddFile, MetaData, Protocol};
use share_lines::{
    EndLine, Line, end_len, file_parts_len, line_len, meta_len, push_end, push_file_parts,
    push_meta, push_protocol,
};
use share_request::ResponseFormat;
use std::alloc::{AllocError, Global};
use std::marker::Model;

// What a page has between its metaData and its end.
#[derive(Drop)]
pub(crate) enum Content<'a> {
    Nothing,
    Files(Vec<&'a AddFile>),
    Changes(Vec<Change<'a>>),
}

// What a line is printed of.
#[derive(Drop)]
pub(crate) enum PlanLine<'a> {
    Protocol(&'a Protocol),
    Meta(&'a MetaData),
    File(Given<'a>),
    End(&'a EndLine),
}

// The lines of a page, in whichever format they are printed; the plain protocol stands in where none is held. Contracts see the lines.
#[derive(Drop)]
pub(crate) struct PageLines<'a> {
    signing: Signing<'a>,
    held: Option<&'a Protocol>,
    plain: Protocol,
    meta: &'a MetaData,
    content: Content<'a>,
    end: Option<EndLine>,
}

impl<'a> Model for PageLines<'a> {
    ghost use Rattle.std.specs.Prelude.{List, option_map, unwrap_or};
    ghost use Rattle.delta_lines.specs.declared.kinds.DeltaLine.{DeltaLine};
    ghost use Rattle.share_reply.specs.Planned.{lines_of};

    ghost Value = { List DeltaLine };

    ghost view = { λ p. lines_of p.signing.keys.now p.signing.access p.signing.expires (unwrap_or (option_map (λ h. h.now) p.held) p.plain) p.meta.now p.content p.end };
}

/// The lines of a reply in the format that is asked for, each made when it is asked for. Contracts see the texts of the lines, each
/// without a line feed.
#[derive(Drop)]
pub struct LinePlan<'a> {
    page: PageLines<'a>,
    format: ResponseFormat,
}

impl<'a> Model for LinePlan<'a> {
    ghost use Rattle.std.specs.Prelude.{List, map, ℕ};
    ghost use Rattle.share_reply.specs.Formats.{text_in};

    ghost Value = { List (List ℕ) };

    ghost view = { λ p. map (text_in p.format) p.page };
}

// ---- one line

#[tactic(auto, using(crate::proofs::LineLengths::by_kind))]
fn push_given(
    alloc: Global,
    out: &mut Vec<u8>,
    signing: &Signing<'_>,
    format: ResponseFormat,
    given: &Given<'_>,
) -> Result<(), AllocError>
    ensures line { OnOk result (out.new.items ≡ out.old.items ++ fed (text_in format (line.File (linked_in signing.now.keys.now signing.now.access signing.now.expires given.now)))) }
    ensures kept { OnErr result (out.new.items ≡ out.old.items) }
{
    let expires = signing.expires;
    let url = signing
        .access
        .link(alloc, signing.keys, expires, given.path())?;
    match format {
        ResponseFormat::Parquet => {
            let no_values = Pairs::new(alloc);
            let no_stats = None;
            let parts = given.parquet_parts(&url, expires, &no_values, &no_stats);
            push_file_parts(alloc, out, given.kind(), &parts)
        }
        ResponseFormat::Delta => {
            let parts = delta_parts(&url, expires, given.action, given.time, given.version);
            push_delta_file(alloc, out, &parts)
        }
    }
}

fn push_protocol_in(
    alloc: Global,
    out: &mut Vec<u8>,
    format: ResponseFormat,
    protocol: &Protocol,
) -> Result<(), AllocError>
    ensures line { OnOk result (out.new.items ≡ out.old.items ++ fed (text_in format (line.Protocol protocol.now))) }
    ensures kept { OnErr result (out.new.items ≡ out.old.items) }
{
    match format {
        ResponseFormat::Parquet => push_protocol(out),
        ResponseFormat::Delta => push_delta_protocol(alloc, out, protocol),
    }
}

fn push_meta_in(
    alloc: Global,
    out: &mut Vec<u8>,
    format: ResponseFormat,
    meta: &MetaData,
) -> Result<(), AllocError>
    ensures line { OnOk result (out.new.items ≡ out.old.items ++ fed (text_in format (line.MetaData meta.now))) }
    ensures kept { OnErr result (out.new.items ≡ out.old.items) }
{
    match format {
        ResponseFormat::Parquet => push_meta(alloc, out, meta),
        ResponseFormat::Delta => push_delta_meta(alloc, out, meta),
    }
}

// An end is alike in both formats.
fn push_end_in(alloc: Global, out: &mut Vec<u8>, end: &EndLine) -> Result<(), AllocError>
    ensures line { OnOk result ((format : ResponseFormat) → out.new.items ≡ out.old.items ++ fed (text_in format (line.End end.now))) }
    ensures kept { OnErr result (out.new.items ≡ out.old.items) }
{
    push_end(alloc, out, end)
}

fn push(
    alloc: Global,
    out: &mut Vec<u8>,
    signing: &Signing<'_>,
    format: ResponseFormat,
    line: &PlanLine<'_>,
) -> Result<(), AllocError>
    ensures line { OnOk result (out.new.items ≡ out.old.items ++ fed (text_in format (line_from signing.now.keys.now signing.now.access signing.now.expires line.now))) }
    ensures kept { OnErr result (out.new.items ≡ out.old.items) }
{
    match line {
        PlanLine::Protocol(protocol) => push_protocol_in(alloc, out, format, protocol),
        PlanLine::Meta(meta) => push_meta_in(alloc, out, format, meta),
        PlanLine::File(given) => push_given(alloc, out, signing, format, given),
        PlanLine::End(end) => push_end_in(alloc, out, end),
    }
}

// ---- how long a line is

// How many bytes a file's line has without a link, 2^64 - 1 where they are more.
#[tactic(auto, using(crate::proofs::LineLengths::by_kind))]
fn bare_len(alloc: Global, format: ResponseFormat, expires: Millis, given: &Given<'_>) -> u64
    ensures { result ≡ capped (length (text_in format (line.File (given_in [] expires given.now)))) }
{
    let no_url = Text::of(String::new(alloc));
    match format {
        ResponseFormat::Parquet => {
            let no_values = Pairs::new(alloc);
            let no_stats = None;
            let parts = given.parquet_parts(&no_url, expires, &no_values, &no_stats);
            file_parts_len(given.kind(), &parts)
        }
        ResponseFormat::Delta => {
            let parts = delta_parts(&no_url, expires, given.action, given.time, given.version);
            delta_parts_len(&parts)
        }
    }
}

// How many bytes a line of so many has with a link of so many in it and its line feed. The error is that there are 2^64 or more.
fn linked_len(bytes: u64, link: u128) -> Result<u64, AllocError>
    requires few { link < 2 ^ 67 }
    ensures { (bare linked : List ℕ) → bytes ≡ capped (length bare) → length linked ≡ length bare + link → IfOk result (λ bytes. bytes ≡ length (fed linked)) }
{
    let bytes = u128::from(bytes) + link + 1;
    match u64::try_from(bytes) {
        Ok(bytes) => Ok(bytes),
        Err(_) => Err(AllocError),
    }
}

fn given_len(
    alloc: Global,
    signing: &Signing<'_>,
    format: ResponseFormat,
    given: &Given<'_>,
) -> Result<u64, AllocError>
    ensures { IfOk result (λ bytes. bytes ≡ length (fed (text_in format (line.File (linked_in signing.now.keys.now signing.now.access signing.now.expires given.now))))) }
{
    let expires = signing.expires;
    let link = signing.access.link_len(signing.keys, expires, given.path());
    linked_len(bare_len(alloc, format, expires, given), link)
}

// How many bytes a line has with its line feed that has so many without. The error is that there are 2^64 or more.
fn fed_len(bytes: u64) -> Result<u64, AllocError>
    ensures { (text : List ℕ) → bytes ≡ capped (length text) → IfOk result (λ bytes. bytes ≡ length (fed text)) }
{
    match bytes.checked_add(1) {
        Some(bytes) => Ok(bytes),
        None => Err(AllocError),
    }
}

fn protocol_len(format: ResponseFormat, protocol: &Protocol) -> u64
    ensures { result ≡ capped (length (text_in format (line.Protocol protocol.now))) }
{
    match format {
        ResponseFormat::Parquet => line_len(&Line::Protocol),
        ResponseFormat::Delta => delta_protocol_len(protocol),
    }
}

fn meta_len_in(format: ResponseFormat, meta: &MetaData) -> u64
    ensures { result ≡ capped (length (text_in format (line.MetaData meta.now))) }
{
    match format {
        ResponseFormat::Parquet => meta_len(meta),
        ResponseFormat::Delta => delta_meta_len(meta),
    }
}

fn end_len_in(end: &EndLine) -> u64
    ensures { (format : ResponseFormat) → result ≡ capped (length (text_in format (line.End end.now))) }
{
    end_len(end)
}

// How many bytes `push` appends. No line is made for it.
fn len_of(
    alloc: Global,
    signing: &Signing<'_>,
    format: ResponseFormat,
    line: &PlanLine<'_>,
) -> Result<u64, AllocError>
    ensures { IfOk result (λ bytes. bytes ≡ length (fed (text_in format (line_from signing.now.keys.now signing.now.access signing.now.expires line.now)))) }
{
    match line {
        PlanLine::File(given) => given_len(alloc, signing, format, given),
        PlanLine::Protocol(protocol) => fed_len(protocol_len(format, protocol)),
        PlanLine::Meta(meta) => fed_len(meta_len_in(format, meta)),
        PlanLine::End(end) => fed_len(end_len_in(end)),
    }
}

// ---- where it stands

fn count_of(content: &Content<'_>) -> usize
    ensures { result ≡ count_of content.now }
{
    match content {
        Content::Nothing => 0,
        Content::Files(files) => files.len(),
        Content::Changes(changes) => changes.len(),
    }
}

fn content_at<'b>(content: &'b Content<'_>, place: usize) -> Option<PlanLine<'b>>
    ensures { (keys : ReplyKeys) (a : TableAccess) (expires : ℕ) → option_map (line_from keys a expires) result ≡ slice_get (content_lines keys a expires content.now) place }
{
    match content {
        Content::Nothing => None,
        Content::Files(files) => match files.get(place) {
            Some(file) => Some(PlanLine::File(Given::of_file(file))),
            None => None,
        },
        Content::Changes(changes) => match changes.get(place) {
            Some(change) => Some(PlanLine::File(Given::of_change(change))),
            None => None,
        },
    }
}

fn end_at(end: &Option<EndLine>) -> Option<PlanLine<'_>>
    ensures { (keys : ReplyKeys) (a : TableAccess) (expires : ℕ) → option_map (line_from keys a expires) result ≡ slice_get (option_to_list (option_map (λ e. line.End e) end.now)) 0 }
{
    match end {
        Some(end) => Some(PlanLine::End(end)),
        None => None,
    }
}

fn rest_at<'b>(
    content: &'b Content<'_>,
    end: &'b Option<EndLine>,
    place: usize,
) -> Option<PlanLine<'b>>
    ensures { (keys : ReplyKeys) (a : TableAccess) (expires : ℕ) → option_map (line_from keys a expires) result ≡ slice_get (content_lines keys a expires content.now ++ option_to_list (option_map (λ e. line.End e) end.now)) place }
{
    let count = count_of(content);
    if place < count {
        return content_at(content, place);
    }
    if place == count {
        return end_at(end);
    }
    None
}

fn protocol_or<'b>(held: Option<&'b Protocol>, plain: &'b Protocol) -> &'b Protocol
    ensures { result.now ≡ unwrap_or (option_map (λ p. p.now) held.entry) plain.now }
{
    held.unwrap_or(plain)
}

// The line of that number, none behind the last.
fn line_at<'b>(
    protocol: &'b Protocol,
    meta: &'b MetaData,
    content: &'b Content<'_>,
    end: &'b Option<EndLine>,
    n: u64,
) -> Option<PlanLine<'b>>
    ensures { (keys : ReplyKeys) (a : TableAccess) (expires : ℕ) → option_map (line_from keys a expires) result ≡ slice_get (lines_of keys a expires protocol.now meta.now content.now end.now) n }
{
    if n == 0 {
        return Some(PlanLine::Protocol(protocol));
    }
    if n == 1 {
        return Some(PlanLine::Meta(meta));
    }
    rest_at(content, end, (n - 2) as usize)
}

impl<'a> PageLines<'a> {
    ghost use Rattle.std.specs.Prelude.{◌≡◌, ◌++◌, IfOk, OnErr, OnOk, length, option_map, slice_get};
    ghost use Rattle.share_reply.specs.Feeds.{told_protocol};
    ghost use Rattle.share_reply.specs.Formats.{text_in};
    ghost use Rattle.share_reply.specs.Planned.{fed_or_none, lines_of};

    // The lines of these parts.
    pub(crate) fn of(
        signing: Signing<'a>,
        held: Option<&'a Protocol>,
        meta: &'a MetaData,
        content: Content<'a>,
        end: Option<EndLine>,
    ) -> PageLines<'a>
        ensures { result ≡ lines_of signing.entry.keys.now signing.entry.access signing.entry.expires (told_protocol (option_map (λ p. p.now) held.entry)) meta.now content.entry end }
    {
        PageLines {
            signing,
            held,
            plain: plain_protocol(),
            meta,
            content,
            end,
        }
    }

    // Appends the line of that number in a format, and a line feed; nothing behind the last line.
    fn push_line(
        &self,
        alloc: Global,
        format: ResponseFormat,
        n: u64,
        out: &mut Vec<u8>,
    ) -> Result<(), AllocError>
        ensures line { OnOk result (out.new.items ≡ out.old.items ++ fed_or_none (option_map (text_in format) (slice_get self.now n))) }
        ensures kept { OnErr result (out.new.items ≡ out.old.items) }
    {
        let protocol = protocol_or(self.held, &self.plain);
        match line_at(protocol, self.meta, &self.content, &self.end, n) {
            Some(line) => push(alloc, out, &self.signing, format, &line),
            None => Ok(()),
        }
    }

    // How many bytes `push_line` appends.
    fn line_len(&self, alloc: Global, format: ResponseFormat, n: u64) -> Result<u64, AllocError>
        ensures { IfOk result (λ bytes. bytes ≡ length (fed_or_none (option_map (text_in format) (slice_get self.now n)))) }
    {
        let protocol = protocol_or(self.held, &self.plain);
        match line_at(protocol, self.meta, &self.content, &self.end, n) {
            Some(line) => len_of(alloc, &self.signing, format, &line),
            None => Ok(0),
        }
    }
}

impl<'a> LinePlan<'a> {
    ghost use Rattle.std.specs.Prelude.{◌≡◌, ◌++◌, IfOk, OnErr, OnOk, length, map};
    ghost use Rattle.share_reply.specs.Formats.{body_of, text_in};
    ghost use Rattle.share_reply.specs.Planned.{text_at};

    // The lines of a page in a format.
    pub(crate) fn of(page: PageLines<'a>, format: ResponseFormat) -> LinePlan<'a>
        ensures { result ≡ map (text_in format) page.entry }
    {
        LinePlan { page, format }
    }

    /// How many lines there are.
    pub fn count(&self) -> u64
        ensures { result ≡ length self.now }
    {
        let content = count_of(&self.page.content) as u64;
        if self.page.end.is_some() {
            content + 3
        } else {
            content + 2
        }
    }

    /// Appends the text of the line of that number, counted from 0, and a line feed; nothing behind the last line. On `Err`, which
    /// is want of memory, nothing is appended.
    #[tactic(auto, using(crate::proofs::Standing::text_of))]
    pub fn push_line(&self, alloc: Global, n: u64, out: &mut Vec<u8>) -> Result<(), AllocError>
        ensures line { OnOk result (out.new.items ≡ out.old.items ++ text_at self.now n) }
        ensures kept { OnErr result (out.new.items ≡ out.old.items) }
    {
        self.page.push_line(alloc, self.format, n, out)
    }

    // How many bytes `push_line` appends.
    #[tactic(auto, using(crate::proofs::Standing::text_of))]
    fn line_len(&self, alloc: Global, n: u64) -> Result<u64, AllocError>
        ensures { IfOk result (λ bytes. bytes ≡ length (text_at self.now n)) }
    {
        self.page.line_len(alloc, self.format, n)
    }

    /// The bytes of all lines, each with its line feed. The lines of files and changes are counted and not made: none of their links is
    /// signed for it. The error is want of memory for one of the other lines, or that there are 2^64 bytes or more, which no memory holds.
    pub fn len(&self, alloc: Global) -> Result<u64, AllocError>
        ensures { IfOk result (λ bytes. bytes ≡ length (body_of self.now)) }
    {
        let mut bytes = 0u64;
        for n in 0..self.count() {
            match bytes.checked_add(self.line_len(alloc, n)?) {
                Some(more) => bytes = more,
                None => return Err(AllocError),
            }
        }
        Ok(bytes)
    }
}

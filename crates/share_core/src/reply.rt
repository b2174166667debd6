// Replies as values.
ghost use Rattle.std.specs.Prelude.{◌≡◌, IfOk};
ghost use Rattle.share_core.specs.Answers.{refusal_reply, sent};
ghost use Rattle.share_reply.specs.Formats.{body_of};
ghost use Rattle.share_reply.specs.declared.plan.Plan.TheVariants as plan_is;

use case_table::{Method, Refusal};
use edge_core::Name;
use file_ranges::span::Span;
use json_tree::Text;
use share_lines::error_text;
use share_reply::{LinePlan, Plan, Refused};
use share_request::ResponseFormat;
use std::alloc::{AllocError, Global};
use std::marker::Model;

/// Bytes. Contracts see them as a list.
#[derive(Drop)]
pub struct Bytes {
    items: Vec<u8>,
}

impl Model for Bytes {
    ghost use Rattle.std.specs.Prelude.{List, ℕ};

    ghost Value = { List ℕ };

    ghost view = { λ b. b.items.items };
}

impl Bytes {
    ghost use Rattle.std.specs.Prelude.{◌≡◌};

    /// These bytes.
    pub fn of(items: Vec<u8>) -> Bytes
        ensures { result ≡ items.items }
    {
        Bytes { items }
    }

    /// The bytes, in order.
    pub fn get(&self) -> &[u8]
        ensures { result.now ≡ self.now }
    {
        &self.items
    }
}

/// What a reply has after its head.
#[derive(Drop)]
pub enum Body {
    /// Nothing.
    Empty,
    /// A JSON text.
    Json(Text),
    /// Lines of JSON in that format, each with its line feed.
    Lines(ResponseFormat, Bytes),
    /// The object of that name in the store, or the part of it that is asked for. No view shows its size, by which a part is given
    /// with status 206, or refused with 416.
    File(Name, Option<Span>),
}

/// What a request is answered.
#[derive(Drop)]
pub struct Reply {
    /// The status (RFC 9110, section 15).
    pub status: u16,
    /// The version of the table, where the reply tells one.
    pub version: Option<u64>,
    /// The methods that the path's route has, where the request had another one.
    pub allow: Option<Method>,
    /// What stands after the head.
    pub body: Body,
}

fn refusal_reply(alloc: Global, refused: &Refused) -> Result<Reply, AllocError>
    ensures { IfOk result (λ r. r ≡ refusal_reply refused.now) }
{
    Ok(Reply {
        status: refused.refusal().status(),
        version: None,
        allow: None,
        body: Body::Json(refused.text(alloc)?),
    })
}

fn only_reply(alloc: Global, allowed: Method) -> Result<Reply, AllocError>
    ensures { IfOk result (λ r. r ≡ sent (plan_is.Only allowed)) }
{
    Ok(Reply {
        status: Refusal::MethodNotAllowed.status(),
        version: None,
        allow: Some(allowed),
        body: Body::Json(error_text(alloc, Refusal::MethodNotAllowed, "")?),
    })
}

fn given(version: Option<u64>, body: Body) -> Reply
    ensures { result ≡ record { status = 200; version = version; allow = None; body = body } }
{
    Reply {
        status: 200,
        version,
        allow: None,
        body,
    }
}

// The text of all lines of a plan.
fn text_of(alloc: Global, lines: &LinePlan<'_>) -> Result<Bytes, AllocError>
    ensures { IfOk result (λ t. t ≡ body_of lines.now) }
{
    let mut text = Vec::new(alloc);
    for n in 0..lines.count() {
        lines.push_line(alloc, n, &mut text)?;
    }
    Ok(Bytes::of(text))
}

fn lines_reply(
    alloc: Global,
    version: u64,
    format: ResponseFormat,
    lines: &LinePlan<'_>,
) -> Result<Reply, AllocError>
    ensures { IfOk result (λ r. r ≡ sent (plan_is.Lines version format lines.now)) }
{
    let text = text_of(alloc, lines)?;
    Ok(given(Some(version), Body::Lines(format, text)))
}

/// The reply that a plan comes to. The error is want of memory.
pub(crate) fn reply_by(alloc: Global, plan: Plan<'_>) -> Result<Reply, AllocError>
    ensures { IfOk result (λ r. r ≡ sent plan.entry) }
{
    match plan {
        Plan::Refused(refused) => refusal_reply(alloc, &refused),
        Plan::Only(allowed) => only_reply(alloc, allowed),
        Plan::Json(text) => Ok(given(None, Body::Json(text))),
        Plan::Version(version) => Ok(given(Some(version), Body::Empty)),
        Plan::Lines(version, format, lines) => lines_reply(alloc, version, format, &lines),
        Plan::File(name, span) => Ok(given(None, Body::File(name, span))),
    }
}

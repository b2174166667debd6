// What is signed of a call.
ghost use Rattle.std.specs.Prelude.{◌≡◌, ◌++◌, IfOk, OnOk, Option, string_bytes};
ghost use Rattle.signed_call.specs.Calls as spec;

use crate::call::Call;
use crate::canonical::Asked;
use crate::escape::push_path;
use crate::field::Fields;
use crate::key::{CallKey, CallPlace};
use crate::moment::push_moment;
use crate::sign::digest_of;
use crate::stamp::Stamp;
use itoa::Buffer;
use json_tree::Text;
use std::alloc::{AllocError, Global};

// The path of the bucket, or of an object in it.
fn path_of(alloc: Global, bucket: &str, call: &Call<'_>) -> Result<Text, AllocError>
    ensures { IfOk result (λ t. t ≡ spec.path_of bucket.now call.now) }
{
    let mut path = String::from_str(alloc, "/")?;
    path.push_str(bucket)?;
    match call {
        Call::Get { name, .. } | Call::Head { name } | Call::PutAbsent { name, .. } => {
            path.push_str("/")?;
            path.push_str(name)?;
        }
        Call::List { .. } => {}
    }
    let mut escaped = String::new(alloc);
    push_path(&mut escaped, path.as_bytes())?;
    Ok(Text::of(escaped))
}

// Where a listing goes on.
fn push_next(alloc: Global, query: &mut Fields, token: Option<&str>) -> Result<(), AllocError>
    ensures { OnOk result (query.new ≡ query.old ++ spec.token_query token.entry) }
{
    match token {
        Some(token) => query.push(alloc, "continuation-token", token),
        None => Ok(()),
    }
}

// What is listed.
fn push_listed(alloc: Global, query: &mut Fields, prefix: &str) -> Result<(), AllocError>
    ensures { OnOk result (query.new ≡ query.old ++ spec.listed_query prefix.now) }
{
    query.push(alloc, "delimiter", "/")?;
    query.push(alloc, "encoding-type", "url")?;
    query.push(alloc, "list-type", "2")?;
    query.push(alloc, "max-keys", "1000")?;
    query.push(alloc, "prefix", prefix)
}

fn query_of(alloc: Global, call: &Call<'_>) -> Result<Fields, AllocError>
    ensures { IfOk result (λ q. q ≡ spec.query_of call.now) }
{
    let mut query = Fields::new(alloc);
    if let Call::List { prefix, token } = call {
        push_next(alloc, &mut query, *token)?;
        push_listed(alloc, &mut query, prefix)?;
    }
    Ok(query)
}

// The value of Range.
fn range_value(alloc: Global, from: u64, last: u64) -> Result<String, AllocError>
    ensures { IfOk result (λ t. string_bytes t ≡ spec.range_value from last) }
{
    let mut text = String::from_str(alloc, "bytes=")?;
    text.push_str(Buffer::new().format(from))?;
    text.push_str("-")?;
    text.push_str(Buffer::new().format(last))?;
    Ok(text)
}

// What a get or a put has before the fields that each request has.
fn push_own(alloc: Global, fields: &mut Fields, call: &Call<'_>) -> Result<(), AllocError>
    ensures { OnOk result (fields.new ≡ fields.old ++ spec.own_fields call.now) }
{
    match call {
        Call::Get { from, last, .. } => {
            let value = range_value(alloc, *from, *last)?;
            fields.push(alloc, "range", &value)
        }
        Call::PutAbsent { .. } => fields.push(alloc, "if-none-match", "*"),
        _ => Ok(()),
    }
}

// The mark of a put.
fn push_mark(alloc: Global, fields: &mut Fields, call: &Call<'_>) -> Result<(), AllocError>
    ensures { OnOk result (fields.new ≡ fields.old ++ spec.mark_fields call.now) }
{
    match call {
        Call::PutAbsent { mark, .. } => fields.push(alloc, "x-amz-meta-share-put", mark),
        _ => Ok(()),
    }
}

// The token of a session.
fn push_token(alloc: Global, fields: &mut Fields, token: &Option<Text>) -> Result<(), AllocError>
    ensures { OnOk result (fields.new ≡ fields.old ++ spec.token_fields token.now) }
{
    match token {
        Some(token) => fields.push(alloc, "x-amz-security-token", token.as_str()),
        None => Ok(()),
    }
}

fn fields_of(
    alloc: Global,
    host: &str,
    token: &Option<Text>,
    stamp: &Stamp,
    call: &Call<'_>,
    digest: &str,
) -> Result<Fields, AllocError>
    ensures { IfOk result (λ f. f ≡ spec.fields_of host.now token.now stamp.now call.now digest.now) }
{
    let mut moment = String::new(alloc);
    push_moment(&mut moment, stamp)?;
    let mut fields = Fields::new(alloc);
    fields.push(alloc, "host", host)?;
    push_own(alloc, &mut fields, call)?;
    fields.push(alloc, "x-amz-content-sha256", digest)?;
    fields.push(alloc, "x-amz-date", &moment)?;
    push_mark(alloc, &mut fields, call)?;
    push_token(alloc, &mut fields, token)?;
    Ok(fields)
}

/// What is signed of a call.
pub(crate) fn asked_of(
    alloc: Global,
    key: &CallKey,
    place: &CallPlace,
    stamp: &Stamp,
    call: &Call<'_>,
) -> Result<Asked, AllocError>
    ensures { IfOk result (λ a. a ≡ spec.asked_of key.now place.now stamp.now call.now) }
{
    let digest = digest_of(alloc, call.body())?;
    let fields = fields_of(alloc, place.host.as_str(), &key.token, stamp, call, &digest)?;
    Ok(Asked {
        method: call.method(),
        path: path_of(alloc, place.bucket.as_str(), call)?,
        query: query_of(alloc, call)?,
        fields,
        digest: Text::of(digest),
    })
}

// The parameters of query strings.
ghost use Rattle.std.specs.Prelude.{◌≡◌, ◌≤◌, IfOk, IfSome, option_map};
ghost use Rattle.share_request.specs.Parameters.{first_value, pairs_in, token_in};
ghost use Rattle.share_request.specs.Parameters as spec;
ghost use Rattle.share_request.specs.Stops.{Gives};

use crate::asked::{Bound, ListPage};
use crate::fault::{Parameter, RequestFault, Stop};
use json_tree::{Text, Version, unless_empty};
use query_body::moment_of;
use std::alloc::{AllocError, Global};
use text_forms::number_in;

// The most names of a page of a list.
const MOST_NAMES: u64 = 500;

// A name and a value of a query string, decoded.
#[derive(Drop)]
pub(crate) struct QueryPair {
    name: Text,
    value: Text,
}

// The pairs of a query string, in order.
pub(crate) fn pairs_of(alloc: Global, query: &str) -> Result<Vec<QueryPair>, AllocError>
    ensures { IfOk result (λ v. v.items ≡ pairs_in query.now) }
{
    let mut pairs = Vec::new(alloc);
    for pair in form_urlencoded::parse(alloc, query.as_bytes()).into_owned() {
        let (name, value) = pair?;
        pairs.push(QueryPair {
            name: Text::of(name),
            value: Text::of(value),
        })?;
    }
    Ok(pairs)
}

// The value of the first pair of that name.
fn first_value<'a>(name: &str, pairs: &'a [QueryPair]) -> Option<&'a str>
    ensures { option_map (λ t. t.now) result ≡ first_value name.now pairs.now }
{
    for pair in pairs {
        if pair.name.as_str() == name {
            return Some(pair.value.as_str());
        }
    }
    None
}

fn number_at(
    parameter: Parameter,
    low: u64,
    high: u64,
    pairs: &[QueryPair],
) -> Result<Option<u64>, RequestFault>
    ensures value { result ≡ spec.number_at parameter low high pairs.now }
    ensures within { IfOk result (λ o. IfSome o (λ n. n ≤ high)) }
{
    let Some(text) = first_value(parameter.word(), pairs) else {
        return Ok(None);
    };
    match number_in(low, high, text.as_bytes()) {
        Some(number) => Ok(Some(number)),
        None => Err(RequestFault::BadParameter(parameter)),
    }
}

fn version_at(parameter: Parameter, pairs: &[QueryPair]) -> Result<Option<Version>, RequestFault>
    ensures { result ≡ spec.version_at parameter pairs.now }
{
    match number_at(parameter, 0, (1 << 63) - 1, pairs)? {
        Some(number) => Ok(Some(Version::of_small(number))),
        None => Ok(None),
    }
}

// The most files of a page.
pub(crate) fn max_files_in(pairs: &[QueryPair]) -> Result<Option<u64>, RequestFault>
    ensures { result ≡ spec.max_files_in pairs.now }
{
    number_at(Parameter::MaxFiles, 1, (1 << 31) - 1, pairs)
}

pub(crate) fn moment_at(
    parameter: Parameter,
    pairs: &[QueryPair],
) -> Result<Option<i128>, RequestFault>
    ensures { result ≡ spec.moment_at parameter pairs.now }
{
    let Some(text) = first_value(parameter.word(), pairs) else {
        return Ok(None);
    };
    match moment_of(text) {
        Some(moment) => Ok(Some(moment)),
        None => Err(RequestFault::BadParameter(parameter)),
    }
}

// The one of the two that is there. Where both are, the parameter is told.
fn one_bound(
    parameter: Parameter,
    moment: Option<i128>,
    version: Option<Version>,
) -> Result<Option<Bound>, RequestFault>
    ensures { result ≡ spec.one_bound parameter moment version }
{
    match moment {
        None => match version {
            None => Ok(None),
            Some(version) => Ok(Some(Bound::Version(version))),
        },
        Some(moment) => match version {
            None => Ok(Some(Bound::Moment(moment))),
            Some(_) => Err(RequestFault::BadParameter(parameter)),
        },
    }
}

// The version or moment whose metadata is asked for.
pub(crate) fn at_in(pairs: &[QueryPair]) -> Result<Option<Bound>, RequestFault>
    ensures { result ≡ spec.at_in pairs.now }
{
    let version = version_at(Parameter::Version, pairs)?;
    let moment = moment_at(Parameter::Timestamp, pairs)?;
    one_bound(Parameter::Timestamp, moment, version)
}

// Where changes start.
fn start_in(pairs: &[QueryPair]) -> Result<Option<Bound>, RequestFault>
    ensures { result ≡ spec.start_in pairs.now }
{
    let moment = moment_at(Parameter::StartingTimestamp, pairs)?;
    let version = version_at(Parameter::StartingVersion, pairs)?;
    one_bound(Parameter::StartingVersion, moment, version)
}

// Where changes start, which is there unless they go on by a token.
pub(crate) fn from_in(
    pairs: &[QueryPair],
    token: &Option<Text>,
) -> Result<Option<Bound>, RequestFault>
    ensures { result ≡ spec.from_in pairs.now token.now }
{
    match start_in(pairs)? {
        Some(start) => Ok(Some(start)),
        None => {
            if token.is_some() {
                Ok(None)
            } else {
                Err(RequestFault::BadParameter(Parameter::StartingVersion))
            }
        }
    }
}

// Where changes end.
pub(crate) fn to_in(pairs: &[QueryPair]) -> Result<Option<Bound>, RequestFault>
    ensures { result ≡ spec.to_in pairs.now }
{
    let moment = moment_at(Parameter::EndingTimestamp, pairs)?;
    let version = version_at(Parameter::EndingVersion, pairs)?;
    one_bound(Parameter::EndingVersion, moment, version)
}

// The page token, unless it is empty.
pub(crate) fn token_of(alloc: Global, pairs: &[QueryPair]) -> Result<Option<Text>, AllocError>
    ensures { IfOk result (λ o. o ≡ token_in pairs.now) }
{
    match first_value("pageToken", pairs) {
        Some(text) => Ok(unless_empty(Some(Text::of(String::from_str(alloc, text)?)))),
        None => Ok(None),
    }
}

fn most_in(pairs: &[QueryPair]) -> Result<u64, RequestFault>
    ensures { result ≡ spec.most_in pairs.now }
{
    let given = number_at(Parameter::MaxResults, 0, (1 << 31) - 1, pairs)?;
    Ok(given.unwrap_or(MOST_NAMES).min(MOST_NAMES))
}

// The page of a list.
pub(crate) fn page_of(alloc: Global, pairs: &[QueryPair]) -> Result<ListPage, Stop>
    ensures { Gives result (spec.page_in pairs.now) }
{
    let most = most_in(pairs)?;
    let token = token_of(alloc, pairs)?;
    Ok(ListPage { most, token })
}

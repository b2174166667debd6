// The body of a query.
ghost use Rattle.std.specs.Prelude.{◌≡◌, ◌≤◌, option_map, codes};
ghost use Rattle.serde_json.specs.Find.{as_str};
ghost use Rattle.serde_json.specs.View.{view};
ghost use Rattle.json_tree.specs.Fields.{field, whole};
ghost use Rattle.query_body.specs.Query as spec;
ghost use Rattle.query_body.specs.Query.{Gives};
ghost use Rattle.query_body.specs.declared.query.QueryFault.TheVariants as fault;

use jiff::Timestamp;
use json_tree::{FieldFault, Text, TreeFault, member_at, text_at, tree_of, unless_empty, whole_at};
use serde_json::Value;
use std::alloc::{AllocError, Global};

/// What a query asks for (Delta Sharing PROTOCOL.md, "Read Data from a Table").
#[derive(Drop)]
pub struct QueryBody {
    /// `version`, 0 to 2^63 - 1.
    pub version: Option<u64>,
    /// `timestamp`, in nanoseconds since the start of 1970 in UTC. It isn't there beside a version.
    pub moment: Option<i128>,
    /// `jsonPredicateHints`, as it was given.
    pub hint: Option<Text>,
    /// `maxFiles`, 1 to 2^31 - 1.
    pub max: Option<u64>,
    /// `pageToken`, not empty.
    pub token: Option<Text>,
}

/// A field of a query body that has a grammar of its own.
#[derive(Clone, Copy, Debug, PartialEq, Eq)]
pub enum QueryField {
    MaxFiles,
    Version,
    Timestamp,
    StartingVersion,
    EndingVersion,
    RefreshToken,
}

/// Why a query body is refused. The first that holds is told, want of memory apart.
#[derive(Clone, Copy, Debug, PartialEq, Eq)]
pub enum QueryFault {
    /// It is neither empty nor a JSON object (RFC 8259), or a field that is read is of another
    /// kind: `maxFiles` and `version` are whole numbers of 64 bits with sign, `timestamp`,
    /// `jsonPredicateHints` and `pageToken` are texts. Null is as good as absent.
    BadBody,
    /// The field is outside its grammar. Of several the first in the order of [`QueryField`] is
    /// told. `maxFiles` is 1 to 2^31 - 1, `version` 0 to 2^63 - 1; `timestamp` is an instant that
    /// `jiff` reads, and isn't there beside `version`; the last three aren't there at all.
    BadParameter(QueryField),
    /// Memory is wanting.
    NoMemory,
}

impl From<AllocError> for QueryFault {
    ghost from_gives = { λ _ e. e ≡ fault.NoMemory };

    fn from(_: AllocError) -> Self {
        QueryFault::NoMemory
    }
}

impl From<FieldFault> for QueryFault {
    ghost from_gives = { λ f e. e ≡ spec.field_fault f };

    fn from(found: FieldFault) -> Self {
        match found {
            FieldFault::WrongKind => QueryFault::BadBody,
            FieldFault::NoMemory => QueryFault::NoMemory,
        }
    }
}

impl From<TreeFault> for QueryFault {
    ghost from_gives = { λ f e. e ≡ spec.tree_fault f };

    fn from(found: TreeFault) -> Self {
        match found {
            TreeFault::NotUtf8 | TreeFault::NotJson => QueryFault::BadBody,
            TreeFault::NoMemory => QueryFault::NoMemory,
        }
    }
}

// The fields that are read, each of its kind.
#[derive(Drop)]
struct Fields {
    max: Option<i64>,
    version: Option<i64>,
    timestamp: Option<Text>,
    hint: Option<Text>,
    token: Option<Text>,
}

fn number_at(object: &Value, name: &str) -> Result<Option<i64>, QueryFault>
    ensures { Gives result (spec.or_bad_body (field whole name.now (view object.now))) }
{
    Ok(whole_at(object, name)?)
}

fn string_at(alloc: Global, object: &Value, name: &str) -> Result<Option<Text>, QueryFault>
    ensures { Gives result (spec.or_bad_body (field as_str name.now (view object.now))) }
{
    Ok(text_at(alloc, object, name)?)
}

#[tactic(auto, unfolding(crate::specs::Query::fields_in))]
fn fields_of(alloc: Global, object: &Value) -> Result<Fields, QueryFault>
    ensures { Gives result (spec.fields_in (view object.now)) }
{
    Ok(Fields {
        max: number_at(object, "maxFiles")?,
        version: number_at(object, "version")?,
        timestamp: string_at(alloc, object, "timestamp")?,
        hint: string_at(alloc, object, "jsonPredicateHints")?,
        token: string_at(alloc, object, "pageToken")?,
    })
}

// A number of these bounds, where there is one.
fn between(
    field: QueryField,
    low: u64,
    high: u64,
    number: Option<i64>,
) -> Result<Option<u64>, QueryFault>
    ensures { result ≡ spec.between field low high number }
{
    let Some(number) = number else {
        return Ok(None);
    };
    match u64::try_from(number) {
        Ok(number) if low <= number && number <= high => Ok(Some(number)),
        _ => Err(QueryFault::BadParameter(field)),
    }
}

/// The instant that a text writes by the grammar of `jiff`, in nanoseconds since the start of 1970
/// in UTC, or `None` where it writes none. Its time is linear in the text's length.
pub fn moment_of(text: &str) -> Option<i128>
    ensures { result ≡ spec.moment_of text.now }
{
    let instant: Timestamp = text.parse().ok()?;
    Some(instant.as_nanosecond())
}

fn moment_beside(version: Option<u64>, timestamp: &Option<Text>) -> Result<Option<i128>, QueryFault>
    ensures { result ≡ spec.moment_beside version timestamp.now }
{
    let Some(text) = timestamp else {
        return Ok(None);
    };
    if version.is_some() {
        return Err(QueryFault::BadParameter(QueryField::Timestamp));
    }
    match moment_of(text.as_str()) {
        Some(moment) => Ok(Some(moment)),
        None => Err(QueryFault::BadParameter(QueryField::Timestamp)),
    }
}

fn absent(field: QueryField, object: &Value, name: &str) -> Result<(), QueryFault>
    ensures { result ≡ spec.absent field name.now (view object.now) }
{
    match member_at(object, name) {
        None => Ok(()),
        Some(_) => Err(QueryFault::BadParameter(field)),
    }
}

#[tactic(auto, unfolding(crate::specs::Query::query_of_fields))]
fn query_of_fields(object: &Value, fields: Fields) -> Result<QueryBody, QueryFault>
    ensures { result ≡ spec.query_of_fields (view object.now) fields }
{
    let max = between(QueryField::MaxFiles, 1, (1 << 31) - 1, fields.max)?;
    let version = between(QueryField::Version, 0, (1 << 63) - 1, fields.version)?;
    let moment = moment_beside(version, &fields.timestamp)?;
    absent(QueryField::StartingVersion, object, "startingVersion")?;
    absent(QueryField::EndingVersion, object, "endingVersion")?;
    absent(QueryField::RefreshToken, object, "refreshToken")?;
    Ok(QueryBody {
        version,
        moment,
        hint: fields.hint,
        max,
        token: unless_empty(fields.token),
    })
}

fn query_of_value(alloc: Global, value: &Value) -> Result<QueryBody, QueryFault>
    ensures { Gives result (spec.query_of_value (view value.now)) }
{
    if !value.is_object() {
        return Err(QueryFault::BadBody);
    }
    let fields = fields_of(alloc, value)?;
    query_of_fields(value, fields)
}

/// The query of a body, which asks nothing where it is empty. Fields of other names are passed
/// over, of whatever kind. Its time is linear in the body's length.
pub fn query_of(alloc: Global, body: &[u8]) -> Result<QueryBody, QueryFault>
    ensures { Gives result (spec.query_in body.now) }
{
    if body.is_empty() {
        return Ok(QueryBody {
            version: None,
            moment: None,
            hint: None,
            max: None,
            token: None,
        });
    }
    let value = tree_of(alloc, body)?;
    query_of_value(alloc, &value)
}

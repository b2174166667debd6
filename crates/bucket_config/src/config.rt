// Where a bucket is, and the key that signs.
ghost use Rattle.std.specs.Prelude.{◌≡◌, option_map, codes};
ghost use Rattle.serde_json.specs.View.{view};
ghost use Rattle.bucket_config.specs.Buckets.{Gives, GivesBy, bucket_config_in, bucket_config_of_value, given_token as given_token_beside, required, text_in, text_or as text_or_given, token_in, token_or};
ghost use Rattle.bucket_config.specs.Buckets as spec;
ghost use Rattle.bucket_config.specs.declared.config_fault.BucketField.TheVariants as field;

use crate::address::address_of;
use crate::words::{copy_of, if_segment, if_some, if_word, prefix_of};
use crate::{BucketAddress, BucketConfigFault, BucketField, GivenKey};
use json_tree::{Text, member_at, tree_of};
use serde_json::Value;
use signed_call::{CallKey, CallPlace};
use std::alloc::Global;

// The longest time that `freshMillis` may say: a day.
const MOST_FRESH: u64 = 86_400_000;

/// Where a bucket is, and the key that signs. There is no `Debug`, so that no secret is printed.
#[derive(Drop)]
pub struct BucketConfig {
    /// `address`, where connections go.
    pub address: BucketAddress,
    /// `host`, `region` and `bucket`.
    pub place: CallPlace,
    /// `key`, `secret` and `token`.
    pub key: CallKey,
    /// `prefix`: nothing, or a name with a slash behind it.
    pub prefix: Text,
    /// `freshMillis`: for how many milliseconds what was found absent counts as absent, 86,400,000 at most.
    pub fresh: u64,
}

// The text of a member, none where it is absent, null or of another kind.
fn text_at<'a>(object: &'a Value, name: &str) -> Option<&'a str>
    ensures { option_map (λ s. s.now) result ≡ text_in name.now (view object.now) }
{
    member_at(object, name)?.as_str()
}

fn text_of(given: &Option<Text>) -> Option<&str>
    ensures { option_map (λ s. s.now) result ≡ given.now }
{
    match given {
        Some(text) => Some(text.as_str()),
        None => None,
    }
}

// The text of a member; where that is absent or null, the one that is given.
fn text_or<'a>(given: &'a Option<Text>, object: &'a Value, name: &str) -> Option<&'a str>
    ensures { option_map (λ s. s.now) result ≡ text_or_given given.now name.now (view object.now) }
{
    match member_at(object, name) {
        Some(value) => value.as_str(),
        None => text_of(given),
    }
}

// A copy of a member's text, or that the member isn't as it has to be.
fn copy_or_wrong(
    alloc: Global,
    field: BucketField,
    text: Option<&str>,
) -> Result<Text, BucketConfigFault>
    ensures { Gives result (spec.or_wrong field (option_map (λ s. s.now) text.entry)) }
{
    match text {
        Some(text) => Ok(copy_of(alloc, text)?),
        None => Err(BucketConfigFault::Field(field)),
    }
}

fn address_at(alloc: Global, object: &Value) -> Result<BucketAddress, BucketConfigFault>
    ensures { Gives result (required field.Address spec.address_in (view object.now)) }
{
    let wrong = BucketConfigFault::Field(BucketField::Address);
    let Some(text) = text_at(object, BucketField::Address.name()) else {
        return Err(wrong);
    };
    match address_of(alloc, text)? {
        Some(address) => Ok(address),
        None => Err(wrong),
    }
}

fn segment_in_object<'a>(object: &'a Value, name: &str) -> Option<&'a str>
    ensures { option_map (λ s. s.now) result ≡ spec.segment_in name.now (view object.now) }
{
    if_segment(text_at(object, name)?)
}

fn bucket_at(alloc: Global, object: &Value) -> Result<Text, BucketConfigFault>
    ensures { Gives result (required field.Bucket spec.segment_in (view object.now)) }
{
    let found = segment_in_object(object, BucketField::Bucket.name());
    copy_or_wrong(alloc, BucketField::Bucket, found)
}

fn word_in_object<'a>(object: &'a Value, name: &str) -> Option<&'a str>
    ensures { option_map (λ s. s.now) result ≡ spec.word_in name.now (view object.now) }
{
    if_word(text_at(object, name)?)
}

fn word_at(alloc: Global, object: &Value, field: BucketField) -> Result<Text, BucketConfigFault>
    ensures { Gives result (required field spec.word_in (view object.now)) }
{
    copy_or_wrong(alloc, field, word_in_object(object, field.name()))
}

fn prefix_in_object<'a>(object: &'a Value, name: &str) -> Option<&'a str>
    ensures { option_map (λ s. s.now) result ≡ spec.prefix_in name.now (view object.now) }
{
    match member_at(object, name) {
        Some(value) => prefix_of(value.as_str()?),
        None => Some(""),
    }
}

fn prefix_at(alloc: Global, object: &Value) -> Result<Text, BucketConfigFault>
    ensures { Gives result (required field.Prefix spec.prefix_in (view object.now)) }
{
    let found = prefix_in_object(object, BucketField::Prefix.name());
    copy_or_wrong(alloc, BucketField::Prefix, found)
}

fn fresh_of(millis: i64) -> Option<u64>
    ensures { result ≡ spec.fresh_of millis }
{
    match u64::try_from(millis) {
        Ok(millis) if millis <= MOST_FRESH => Some(millis),
        _ => None,
    }
}

fn fresh_in_object(object: &Value, name: &str) -> Option<u64>
    ensures { result ≡ spec.fresh_in name.now (view object.now) }
{
    match member_at(object, name) {
        Some(value) => fresh_of(value.as_i64()?),
        None => Some(0),
    }
}

fn fresh_at(object: &Value) -> Result<u64, BucketConfigFault>
    ensures { result ≡ required field.FreshMillis spec.fresh_in (view object.now) }
{
    match fresh_in_object(object, BucketField::FreshMillis.name()) {
        Some(fresh) => Ok(fresh),
        None => Err(BucketConfigFault::Field(BucketField::FreshMillis)),
    }
}

fn id_in_object<'a>(object: &'a Value, given: &'a GivenKey, name: &str) -> Option<&'a str>
    ensures { option_map (λ s. s.now) result ≡ spec.id_in given.now name.now (view object.now) }
{
    if_word(text_or(&given.id, object, name)?)
}

fn id_at(alloc: Global, object: &Value, given: &GivenKey) -> Result<Text, BucketConfigFault>
    ensures { Gives result (required field.Key (spec.id_in given.now) (view object.now)) }
{
    let found = id_in_object(object, given, BucketField::Key.name());
    copy_or_wrong(alloc, BucketField::Key, found)
}

fn secret_in_object<'a>(object: &'a Value, given: &'a GivenKey, name: &str) -> Option<&'a str>
    ensures { option_map (λ s. s.now) result ≡ spec.secret_in given.now name.now (view object.now) }
{
    if_some(text_or(&given.secret, object, name)?)
}

fn secret_at(alloc: Global, object: &Value, given: &GivenKey) -> Result<Text, BucketConfigFault>
    ensures { Gives result (required field.Secret (spec.secret_in given.now) (view object.now)) }
{
    let found = secret_in_object(object, given, BucketField::Secret.name());
    copy_or_wrong(alloc, BucketField::Secret, found)
}

// The token that is given with the key; none where the key's name isn't the given one.
fn given_token<'a>(object: &Value, given: &'a GivenKey) -> Option<&'a str>
    ensures { option_map (λ s. s.now) result ≡ given_token_beside given.now (view object.now) }
{
    match member_at(object, BucketField::Key.name()) {
        Some(_) => None,
        None => text_of(&given.token),
    }
}

// A copy of a token, none where there is none, or that it isn't as it has to be.
fn token_of(alloc: Global, token: Option<&str>) -> Result<Option<Text>, BucketConfigFault>
    ensures { Gives result (spec.or_wrong field.Token (spec.word_or_nothing (option_map (λ s. s.now) token.entry))) }
{
    match token {
        Some(text) => Ok(Some(copy_or_wrong(alloc, BucketField::Token, if_word(text))?)),
        None => Ok(None),
    }
}

fn token_at(
    alloc: Global,
    object: &Value,
    given: &GivenKey,
) -> Result<Option<Text>, BucketConfigFault>
    ensures { Gives result (required field.Token (token_in given.now) (view object.now)) }
{
    let Some(value) = member_at(object, BucketField::Token.name()) else {
        return token_of(alloc, given_token(object, given));
    };
    match value.as_str() {
        Some(text) => token_of(alloc, Some(text)),
        None => Err(BucketConfigFault::Field(BucketField::Token)),
    }
}

#[tactic(auto, unfolding(crate::specs::Buckets::bucket_config_of_value))]
fn bucket_config_of_object(
    alloc: Global,
    object: &Value,
    given: &GivenKey,
) -> Result<BucketConfig, BucketConfigFault>
    ensures { Gives result (bucket_config_of_value given.now (view object.now)) }
{
    let address = address_at(alloc, object)?;
    let bucket = bucket_at(alloc, object)?;
    let fresh = fresh_at(object)?;
    let host = word_at(alloc, object, BucketField::Host)?;
    let id = id_at(alloc, object, given)?;
    let prefix = prefix_at(alloc, object)?;
    let region = word_at(alloc, object, BucketField::Region)?;
    let secret = secret_at(alloc, object, given)?;
    let token = token_at(alloc, object, given)?;
    Ok(BucketConfig {
        address,
        place: CallPlace {
            host,
            region,
            bucket,
        },
        key: CallKey { id, secret, token },
        prefix,
        fresh,
    })
}

/// Where a bucket is and what signs, as a JSON object states it, and, for what the object leaves out of the key, the environment. Members of
/// other names are passed over, and of equal names the last holds. Its time is linear in the length.
pub fn bucket_config_of(
    alloc: Global,
    bytes: &[u8],
    given: &GivenKey,
) -> Result<BucketConfig, BucketConfigFault>
    ensures { Gives result (bucket_config_in given.now bytes.now) }
{
    let object = tree_of(alloc, bytes)?;
    bucket_config_of_object(alloc, &object, given)
}

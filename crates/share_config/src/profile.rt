// The profile of a recipient.
ghost use Rattle.std.specs.List.{list_all};
ghost use Rattle.std.specs.Prelude.{◌≡◌, option_map, unwrap_or, codes};
ghost use Rattle.serde_json.specs.View.{view};
ghost use Rattle.share_config.specs.Profiles.{Gives, GivesBy, address_of as address_of_text, if_visible as if_visible_text, is_visible_byte, one, profile_in, profile_of_value, required, text_or_nothing_in, token_in, version_in, without_slash as without_slash_at_end};
ghost use Rattle.share_config.specs.Texts.{text_in};
ghost use Rattle.share_config.specs.declared.profile_fault.ProfileField.TheVariants as field;

use crate::texts::{before, text_at};
use crate::{HttpUrl, ProfileFault, ProfileField};
use json_tree::{FieldFault, Text, member_at, tree_of};
use serde_json::Value;
use std::alloc::Global;

/// What a recipient was given to ask a server with (Delta Sharing PROTOCOL.md, "Profile File Format"). There is no
/// `Debug`, so that no token is printed.
#[derive(Drop)]
pub struct Profile {
    /// `endpoint`, the address of the server, without a slash at its end.
    pub endpoint: HttpUrl,
    /// `bearerToken`: one visible character of ASCII or more and no others, so that it can stand in the head of a request as it is (RFC 6750,
    /// section 2.1; RFC 9110, section 5.5).
    pub bearer: Text,
    /// `expirationTime`, as it was given: it isn't read as a time, nor compared with one.
    pub expires: Option<Text>,
}

// The number where it is 1.
fn one_of(number: i64) -> Option<u64>
    ensures { result ≡ one number }
{
    match u64::try_from(number) {
        Ok(number) if number == 1 => Some(number),
        _ => None,
    }
}

fn version_in_object(object: &Value, name: &str) -> Option<u64>
    ensures { result ≡ version_in name.now (view object.now) }
{
    one_of(member_at(object, name)?.as_i64()?)
}

fn version_at(object: &Value) -> Result<u64, ProfileFault>
    ensures { result ≡ required field.ShareCredentialsVersion version_in (view object.now) }
{
    match version_in_object(object, ProfileField::ShareCredentialsVersion.name()) {
        Some(version) => Ok(version),
        None => Err(ProfileFault::Field(ProfileField::ShareCredentialsVersion)),
    }
}

fn required_text(object: &Value, field: ProfileField) -> Result<&str, ProfileFault>
    ensures { GivesBy (λ s. s.now) result (required field text_in (view object.now)) }
{
    match text_at(object, field.name()) {
        Some(text) => Ok(text),
        None => Err(ProfileFault::Field(field)),
    }
}

fn is_visible(byte: u8) -> bool
    ensures { result ≡ is_visible_byte byte }
{
    matches!(byte, b'!'..=b'~')
}

fn are_visible(bytes: &[u8]) -> bool
    ensures { result ≡ list_all is_visible_byte bytes.now }
{
    bytes.iter().all(|byte| is_visible(*byte))
}

fn if_visible(text: &str) -> Option<&str>
    ensures { option_map (λ s. s.now) result ≡ if_visible_text text.now }
{
    if !text.is_empty() && are_visible(text.as_bytes()) {
        Some(text)
    } else {
        None
    }
}

fn token_in_object<'a>(object: &'a Value, name: &str) -> Option<&'a str>
    ensures { option_map (λ s. s.now) result ≡ token_in name.now (view object.now) }
{
    if_visible(text_at(object, name)?)
}

fn token_at(object: &Value) -> Result<&str, ProfileFault>
    ensures { GivesBy (λ s. s.now) result (required field.BearerToken token_in (view object.now)) }
{
    match token_in_object(object, ProfileField::BearerToken.name()) {
        Some(token) => Ok(token),
        None => Err(ProfileFault::Field(ProfileField::BearerToken)),
    }
}

fn text_or_nothing(
    alloc: Global,
    object: &Value,
    field: ProfileField,
) -> Result<Option<Text>, ProfileFault>
    ensures { Gives result (required field text_or_nothing_in (view object.now)) }
{
    match json_tree::text_at(alloc, object, field.name()) {
        Ok(text) => Ok(text),
        Err(FieldFault::WrongKind) => Err(ProfileFault::Field(field)),
        Err(FieldFault::NoMemory) => Err(ProfileFault::NoMemory),
    }
}

fn without_slash(text: &str) -> &str
    ensures { result.now ≡ without_slash_at_end text.now }
{
    match before("/", text) {
        Some(front) => front,
        None => text,
    }
}

fn address_of(alloc: Global, endpoint: &str) -> Result<HttpUrl, ProfileFault>
    ensures { Gives result (address_of_text endpoint.now) }
{
    match HttpUrl::of(alloc, without_slash(endpoint))? {
        Some(url) => Ok(url),
        None => Err(ProfileFault::Scheme),
    }
}

#[tactic(auto, unfolding(crate::specs::Profiles::profile_of_value))]
fn profile_of_object(alloc: Global, object: &Value) -> Result<Profile, ProfileFault>
    ensures { Gives result (profile_of_value (view object.now)) }
{
    let _version = version_at(object)?;
    let endpoint = required_text(object, ProfileField::Endpoint)?;
    let bearer = token_at(object)?;
    let expires = text_or_nothing(alloc, object, ProfileField::ExpirationTime)?;
    let endpoint = address_of(alloc, endpoint)?;
    Ok(Profile {
        endpoint,
        bearer: Text::of(String::from_str(alloc, bearer)?),
        expires,
    })
}

/// The profile that a JSON object states. Members of other names are passed over, and of equal names the last holds.
/// Its time is linear in the length.
pub fn profile_of(alloc: Global, bytes: &[u8]) -> Result<Profile, ProfileFault>
    ensures { Gives result (profile_in bytes.now) }
{
    let object = tree_of(alloc, bytes)?;
    profile_of_object(alloc, &object)
}

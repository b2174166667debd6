// The configuration of a server.
ghost use Rattle.std.specs.Prelude.{◌≡◌, option_and_then, option_map};
ghost use Rattle.serde_json.specs.View.{view, items_view};
ghost use Rattle.share_config.specs.Texts.{bytes_in};
ghost use Rattle.share_config.specs.Configuration.{Gives, GivesBy, config_in, config_of_value, digest_of as digest_of_value, digests_in, digests_of as digests_of_items, endpoint_in, or_wrong, required, ttl_in, ttl_of, values_in};
ghost use Rattle.share_config.specs.declared.config_fault.ConfigField.TheVariants as field;

use crate::texts::{bytes_at, bytes_of, text_at};
use crate::{ConfigFault, ConfigField, Endpoint, LinkTtl, Providers, is_endpoint_text};
use json_tree::{member_at, tree_of};
use serde_json::Value;
use std::alloc::Global;

/// What the server signs with, and how its links begin and end. Whoever signs prepares each key once
/// (`hmac_core::HmacKey`). There is no `Debug`, so that no key is printed.
#[derive(Drop)]
pub struct Keys {
    /// The key of page tokens.
    pub token: [u8; 32],
    /// The key of links.
    pub link: [u8; 32],
    /// How long a link holds from when it was made.
    pub ttl: LinkTtl,
    /// The address that links begin with.
    pub endpoint: Endpoint,
}

/// The configuration of a server.
#[derive(Drop)]
pub struct Config {
    pub keys: Keys,
    /// The SHA-256 digest of the bearer token of the administrator, who edits the catalogue.
    pub admin: [u8; 32],
    /// The digests of the providers' bearer tokens.
    pub providers: Providers,
}

// The 32 bytes of a field.
fn key_at(object: &Value, field: ConfigField) -> Result<[u8; 32], ConfigFault>
    ensures { result ≡ required field bytes_in (view object.now) }
{
    match bytes_at(object, field.name()) {
        Some(bytes) => Ok(bytes),
        None => Err(ConfigFault::Field(field)),
    }
}

fn digest_of(value: &Value) -> Option<[u8; 32]>
    ensures { result ≡ digest_of_value (view value.now) }
{
    bytes_of(value.as_str()?)
}

fn digests_of(alloc: Global, values: &[Value]) -> Result<Vec<[u8; 32]>, ConfigFault>
    ensures { GivesBy (λ v. v.items) result (or_wrong field.ProviderDigests (digests_of_items (items_view values.now))) }
{
    let mut digests = Vec::new(alloc);
    for value in values {
        match digest_of(value) {
            Some(digest) => digests.push(digest)?,
            None => return Err(ConfigFault::Field(ConfigField::ProviderDigests)),
        }
    }
    Ok(digests)
}

fn values_at<'a>(object: &'a Value, name: &str) -> Option<&'a Vec<Value>>
    ensures { option_map (λ v. items_view v.now.items) result ≡ values_in name.now (view object.now) }
{
    member_at(object, name)?.as_array()
}

fn providers_at(alloc: Global, object: &Value) -> Result<Providers, ConfigFault>
    ensures { Gives result (required field.ProviderDigests digests_in (view object.now)) }
{
    let wrong = ConfigFault::Field(ConfigField::ProviderDigests);
    let Some(values) = values_at(object, ConfigField::ProviderDigests.name()) else {
        return Err(wrong);
    };
    match Providers::of(digests_of(alloc, values)?) {
        Some(providers) => Ok(providers),
        None => Err(wrong),
    }
}

fn ttl_of_number(number: i64) -> Option<LinkTtl>
    ensures { result ≡ ttl_of number }
{
    match u64::try_from(number) {
        Ok(seconds) => LinkTtl::of(seconds),
        Err(_) => None,
    }
}

fn ttl_in_object(object: &Value, name: &str) -> Option<LinkTtl>
    ensures { result ≡ ttl_in name.now (view object.now) }
{
    ttl_of_number(member_at(object, name)?.as_i64()?)
}

fn ttl_at(object: &Value) -> Result<LinkTtl, ConfigFault>
    ensures { result ≡ required field.LinkTtlSeconds ttl_in (view object.now) }
{
    match ttl_in_object(object, ConfigField::LinkTtlSeconds.name()) {
        Some(ttl) => Ok(ttl),
        None => Err(ConfigFault::Field(ConfigField::LinkTtlSeconds)),
    }
}

fn endpoint_at(alloc: Global, object: &Value) -> Result<Endpoint, ConfigFault>
    ensures { Gives result (required field.Endpoint endpoint_in (view object.now)) }
{
    let wrong = ConfigFault::Field(ConfigField::Endpoint);
    let Some(text) = text_at(object, ConfigField::Endpoint.name()) else {
        return Err(wrong);
    };
    if !is_endpoint_text(text) {
        return Err(wrong);
    }
    match Endpoint::of(String::from_str(alloc, text)?) {
        Some(endpoint) => Ok(endpoint),
        None => Err(wrong),
    }
}

#[tactic(auto, unfolding(crate::specs::Configuration::config_of_value))]
fn config_of_object(alloc: Global, object: &Value) -> Result<Config, ConfigFault>
    ensures { Gives result (config_of_value (view object.now)) }
{
    let token = key_at(object, ConfigField::TokenKey)?;
    let link = key_at(object, ConfigField::LinkKey)?;
    let admin = key_at(object, ConfigField::AdminDigest)?;
    let providers = providers_at(alloc, object)?;
    let ttl = ttl_at(object)?;
    let endpoint = endpoint_at(alloc, object)?;
    Ok(Config {
        keys: Keys {
            token,
            link,
            ttl,
            endpoint,
        },
        admin,
        providers,
    })
}

/// The configuration that a JSON object states. Members of other names are passed over, and of equal names the last
/// holds. Its time is linear in the length.
pub fn config_of(alloc: Global, bytes: &[u8]) -> Result<Config, ConfigFault>
    ensures { Gives result (config_in bytes.now) }
{
    let object = tree_of(alloc, bytes)?;
    config_of_object(alloc, &object)
}

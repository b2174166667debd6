// "Create a string to sign", "Calculate the signature" and "Add the signature to the request".
ghost use Rattle.std.specs.Prelude.{◌≡◌, ℕ, List, ◌++◌, IfOk, OnOk, string_bytes};
ghost use Rattle.hex.specs.Hex.{encode_lower};
ghost use Rattle.sha2.specs.Sha256.{sha256};
ghost use Rattle.hmac_core.specs.Hmac.{hmac};
ghost use Rattle.signed_call.specs.Signing as spec;

use crate::canonical::{Asked, canonical_request, push_names};
use crate::key::CallKey;
use crate::moment::{push_day, push_moment};
use crate::stamp::Stamp;
use hmac_core::{HmacKey, hmac as tag_of};
use json_tree::Text;
use sha2::{Digest, Sha256};
use std::alloc::{AllocError, Global};

/// The digest of some bytes: SHA-256, in lower-case hexadecimal digits.
pub(crate) fn digest_of(alloc: Global, bytes: &[u8]) -> Result<String, AllocError>
    ensures { IfOk result (λ t. string_bytes t ≡ encode_lower (sha256 bytes.now)) }
{
    hex::encode(alloc, Sha256::digest(bytes))
}

// Writes what the signing key is for at the end.
#[tactic(auto, unfolding(crate::specs::Signing::scope))]
fn push_scope(out: &mut String, region: &str, stamp: &Stamp) -> Result<(), AllocError>
    ensures { OnOk result (string_bytes out.new ≡ string_bytes out.old ++ spec.scope region.now stamp.now) }
{
    push_day(out, stamp)?;
    out.push_str("/")?;
    out.push_str(region)?;
    out.push_str("/s3/aws4_request")
}

#[tactic(auto, unfolding(crate::specs::Signing::string_to_sign))]
fn string_to_sign(
    alloc: Global,
    region: &str,
    stamp: &Stamp,
    asked: &Asked,
) -> Result<String, AllocError>
    ensures { IfOk result (λ t. string_bytes t ≡ spec.string_to_sign region.now stamp.now asked.now) }
{
    let mut text = String::from_str(alloc, "AWS4-HMAC-SHA256\n")?;
    push_moment(&mut text, stamp)?;
    text.push_str("\n")?;
    push_scope(&mut text, region, stamp)?;
    text.push_str("\n")?;
    let request = canonical_request(alloc, asked)?;
    text.push_str(&digest_of(alloc, request.as_bytes())?)?;
    Ok(text)
}

#[tactic(auto, unfolding(crate::specs::Signing::signing_key))]
fn signing_key(
    alloc: Global,
    secret: &str,
    region: &str,
    stamp: &Stamp,
) -> Result<HmacKey, AllocError>
    ensures { IfOk result (λ k. (text : List ℕ) → hmac k text ≡ hmac (spec.signing_key secret.now region.now stamp.now) text) }
{
    let mut first = String::from_str(alloc, "AWS4")?;
    first.push_str(secret)?;
    let mut day = String::new(alloc);
    push_day(&mut day, stamp)?;
    let of_day = tag_of(first.as_bytes(), day.as_bytes());
    let of_region = tag_of(&of_day, region.as_bytes());
    let of_service = tag_of(&of_region, b"s3");
    Ok(HmacKey::of(&tag_of(&of_service, b"aws4_request")))
}

/// The value of Authorization for a request. The error is want of memory.
#[tactic(auto, unfolding(crate::specs::Signing::authorization, crate::specs::Signing::signature))]
pub fn authorization(
    alloc: Global,
    key: &CallKey,
    region: &str,
    stamp: &Stamp,
    asked: &Asked,
) -> Result<Text, AllocError>
    ensures { IfOk result (λ t. t ≡ spec.authorization key.now region.now stamp.now asked.now) }
{
    let signing = signing_key(alloc, key.secret.as_str(), region, stamp)?;
    let signed = string_to_sign(alloc, region, stamp, asked)?;
    let mut text = String::from_str(alloc, "AWS4-HMAC-SHA256 Credential=")?;
    text.push_str(key.id.as_str())?;
    text.push_str("/")?;
    push_scope(&mut text, region, stamp)?;
    text.push_str(",SignedHeaders=")?;
    push_names(&mut text, asked.fields.items())?;
    text.push_str(",Signature=")?;
    signing.push_digits(&mut text, signed.as_bytes())?;
    Ok(Text::of(text))
}

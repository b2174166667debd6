// The profile of a recipient, read from a store.
ghost use Rattle.std.specs.Prelude.{◌≡◌, ◌^◌, List, ℕ, Option, Ok, false, IfOk, IfSome, option_and_then};
ghost use Rattle.edge_core.specs.Faults.{Cause};
ghost use Rattle.log_store.specs.Loads.{IsFetched, Looked};
ghost use Rattle.log_store.specs.Refusals.{failed_load};
ghost use Rattle.share_config.specs.Profiles.{profile_in};
ghost use Rattle.client_calls.specs.ProfileObjects.{profile_at, profile_of as profile_of_bytes, if_profile};

use edge_core::{Name, Store};
use log_store::{Fetched, LoadRefusal, fetch};
use share_config::{Profile, ProfileFault, profile_of};
use std::alloc::{AllocError, Global};

const PIECE: usize = 65_536;

// The longest profile, 16 MiB.
const MOST_PROFILE: usize = 16 << 20;

// The profile that bytes state, if they state one.
fn stated(alloc: Global, bytes: &[u8]) -> Result<Option<Profile>, AllocError>
    ensures { IfOk result (λ found. found ≡ if_profile (profile_in bytes.now)) }
{
    match profile_of(alloc, bytes) {
        Ok(profile) => Ok(Some(profile)),
        Err(ProfileFault::NoMemory) => Err(AllocError),
        Err(_) => Ok(None),
    }
}

// The profile of an object that was fetched, if it has one.
fn fetched_profile(alloc: Global, fetched: Fetched) -> Result<Option<Profile>, LoadRefusal>
    ensures profile { (object : Option (List ℕ)) → IsFetched (2 ^ 24) object (Ok fetched) → IfOk result (λ found. found ≡ option_and_then profile_of_bytes object) }
    ensures no_store { failed_load result ≡ false }
{
    match fetched {
        Fetched::Bytes(bytes) => Ok(stated(alloc, &bytes)?),
        Fetched::Absent | Fetched::TooLong => Ok(None),
    }
}

/// The profile that the object of that name states: none where it is absent, has more than 16 MiB, or states none. The refusal is a
/// fault of the store, which comes only where its count of faults rose in this call, or want of memory. Nothing is stored.
pub fn profile_at<W: Store>(
    alloc: Global,
    store: &mut W,
    name: &Name,
) -> Result<Option<Profile>, LoadRefusal>
    ensures profile { IfSome (W.objects store.new) (λ objects. IfOk result (λ found. found ≡ profile_at name.now objects)) }
    ensures looked { Looked (W.objects store.old) (W.objects store.new) (W.alone store.old) (W.alone store.new) }
    ensures cause { Cause (W.faults store.old) (W.faults store.new) (failed_load result) }
    ensures stored { W.stored store.new ≡ W.stored store.old }
{
    let mut piece = vec![in alloc; 0; PIECE]?;
    match fetch(alloc, store, name, MOST_PROFILE, &mut piece) {
        Ok(fetched) => fetched_profile(alloc, fetched),
        Err(refusal) => Err(refusal),
    }
}

// The command `client`.
ghost use Rattle.std.specs.Prelude.{◌≡◌, ◌≤◌};
ghost use Rattle.log_store.specs.Loads.{Looked};
ghost use Rattle.share_commands.specs.Clients.{end_by, end_called, end_uncalled, GoesOver, RunsBy};
ghost use Rattle.share_commands.specs.ClientSteps.{CallOf, if_found, unread, IsBody, IsInputBody, IsProfile, LooksAndReads, NotesNothing, Prepares, ReadsOnly};
ghost use Rattle.query_command.specs.Writing.{LeavesRest};
ghost use Rattle.share_commands.specs.StdioSteps.{LooksOnly};
ghost use Rattle.share_commands.specs.declared.client.NoCall.TheVariants.{NoMemory as memory};

use crate::words::CallWords;
use client_calls::{Call, body_of, perform, profile_at};
use edge_core::{Clock, Gate, Link, Name, Sink, Source, Store};
use log_store::LoadRefusal;
use query_command::{Edge, End, InputFault, PeerRefusal, read_input};
use share_client::{Client, ClientFault, QueryBody};
use share_config::Profile;
use std::alloc::{AllocError, Global};

/// Why no call is made.
#[derive(Clone, Copy, Debug, PartialEq, Eq)]
pub(crate) enum NoCall {
    /// The profile is absent, longer than 16 MiB, or none.
    Profile,
    /// The input is longer than 16 MiB, or no body of a query.
    Input,
    /// A read of the input failed.
    ReadFault,
    /// A call of the store failed.
    StoreFault,
    /// Memory is wanting.
    NoMemory,
}

impl From<AllocError> for NoCall {
    ghost from_gives = { λ _ why. why ≡ memory };

    fn from(_: AllocError) -> Self {
        NoCall::NoMemory
    }
}

// How a run ends for want of a call.
fn end_uncalled(why: NoCall) -> End
    ensures { result ≡ end_uncalled why }
{
    match why {
        NoCall::Profile => End::Profile,
        NoCall::Input => End::Input,
        NoCall::ReadFault => End::ReadFault,
        NoCall::StoreFault => End::StoreFault,
        NoCall::NoMemory => End::NoMemory,
    }
}

fn end_by(why: ClientFault) -> End
    ensures { result ≡ end_by why }
{
    match why {
        ClientFault::Refused { status, refusal } => {
            End::Peer(PeerRefusal::Refused { status, refusal })
        }
        ClientFault::BadReply { at } => End::Peer(PeerRefusal::BadReply { at }),
        ClientFault::PageChanged { .. } => End::Peer(PeerRefusal::PageChanged),
        ClientFault::SizeChanged { .. } => End::Peer(PeerRefusal::SizeChanged),
        ClientFault::TooManyPages => End::Peer(PeerRefusal::TooManyPages),
        ClientFault::BadUrl => End::Url,
        ClientFault::PeerFault => End::PeerFault,
        ClientFault::ReadFault => End::ReadFault,
        ClientFault::WriteFault => End::WriteFault,
        ClientFault::NoMemory => End::NoMemory,
    }
}

// How a run ends after a call.
fn end_called(answer: Result<(), ClientFault>) -> End
    ensures { result ≡ end_called answer }
{
    match answer {
        Ok(()) => End::Done,
        Err(why) => end_by(why),
    }
}

fn body_of_bytes(alloc: Global, bytes: &[u8]) -> Result<QueryBody, NoCall>
    ensures { IsBody bytes.now result }
{
    match body_of(alloc, bytes)? {
        Some(body) => Ok(body),
        None => Err(NoCall::Input),
    }
}

// The body that the input is, which is then read to its end.
fn body_asked<S: Source>(alloc: Global, input: &mut S) -> Result<QueryBody, NoCall>
    ensures { IsInputBody (S.left input.old) (S.left input.new) (S.faults input.old) (S.faults input.new) result }
{
    match read_input(alloc, input) {
        Ok(bytes) => body_of_bytes(alloc, &bytes),
        Err(InputFault::TooLong) => Err(NoCall::Input),
        Err(InputFault::Failed) => Err(NoCall::ReadFault),
        Err(InputFault::NoMemory) => Err(NoCall::NoMemory),
    }
}

// The call that the words name, for `read` with the input as the body.
fn call_of<S: Source, K: Sink, M: Sink, W: Store, C: Clock, G: Gate, L>(
    alloc: Global,
    call_words: CallWords,
    edge: &mut Edge<S, K, M, W, C, G, L>,
) -> Result<Call, NoCall>
    ensures call { CallOf call_words edge.old.left edge.new.left edge.old.read_faults edge.new.read_faults result }
    ensures rest { ReadsOnly edge.old edge.new }
{
    match call_words {
        CallWords::Read(table) => match body_asked(alloc, &mut edge.input) {
            Ok(body) => Ok(Call::Read(table, body)),
            Err(why) => Err(why),
        },
        CallWords::Whole(call) => Ok(call),
    }
}

// The profile, where one was found.
fn if_found(found: Option<Profile>) -> Result<Profile, NoCall>
    ensures { result ≡ if_found found }
{
    match found {
        Some(profile) => Ok(profile),
        None => Err(NoCall::Profile),
    }
}

// Why there is none, where the store wasn't read.
fn unread(refusal: LoadRefusal) -> NoCall
    ensures { result ≡ unread refusal }
{
    match refusal {
        LoadRefusal::StoreFault => NoCall::StoreFault,
        LoadRefusal::NoMemory => NoCall::NoMemory,
    }
}

// The profile of that name that a store has.
fn stored_profile<W: Store>(alloc: Global, store: &mut W, name: &Name) -> Result<Profile, NoCall>
    ensures profile { IsProfile name.now (W.objects store.old) (W.objects store.new) (W.faults store.old) (W.faults store.new) result }
    ensures looked { Looked (W.objects store.old) (W.objects store.new) (W.alone store.old) (W.alone store.new) }
    ensures later { W.faults store.old ≤ W.faults store.new }
    ensures stored { W.stored store.new ≡ W.stored store.old }
{
    let found = match profile_at(alloc, store, name) {
        Ok(found) => found,
        Err(refusal) => return Err(unread(refusal)),
    };
    if_found(found)
}

// The profile of that name.
fn profile_of<S: Source, K: Sink, M: Sink, W: Store, C: Clock, G: Gate, L>(
    alloc: Global,
    name: &Name,
    edge: &mut Edge<S, K, M, W, C, G, L>,
) -> Result<Profile, NoCall>
    ensures profile { IsProfile name.now edge.old.objects edge.new.objects edge.old.store_faults edge.new.store_faults result }
    ensures looks { LooksOnly edge.old edge.new }
{
    stored_profile(alloc, &mut edge.store, name)
}

// The profile first, and then the call.
fn prepare<S: Source, K: Sink, M: Sink, W: Store, C: Clock, G: Gate, L>(
    alloc: Global,
    name: &Name,
    call_words: CallWords,
    edge: &mut Edge<S, K, M, W, C, G, L>,
) -> Result<(Profile, Call), NoCall>
    ensures prepares { Prepares name.now call_words edge.old edge.new result }
    ensures looks { LooksAndReads edge.old edge.new }
{
    let profile = match profile_of(alloc, name, edge) {
        Ok(profile) => profile,
        Err(why) => return Err(why),
    };
    match call_of(alloc, call_words, edge) {
        Ok(call) => Ok((profile, call)),
        Err(why) => Err(why),
    }
}

// Makes the call over the way.
fn go<S: Source, K: Sink, M: Sink, W: Store, C: Clock, G: Gate, L, V: Link>(
    alloc: Global,
    profile: Profile,
    call: &Call,
    edge: &mut Edge<S, K, M, W, C, G, L>,
    way: &mut V,
) -> Result<(), ClientFault>
    ensures goes { GoesOver V.coming V.closed V.faults V.read_faults V.write_faults profile call.now result edge.old.held edge.new.held edge.old.write_faults edge.new.write_faults way.old way.new }
    ensures rest { LeavesRest edge.old edge.new }
{
    perform(alloc, &Client::new(profile), way, call, &mut edge.output)
}

/// Reads the profile of that name from the store, and asks its server over the way for what the words name: what is printed of the
/// answer goes to the output.
pub(crate) fn client<S: Source, K: Sink, M: Sink, W: Store, C: Clock, G: Gate, L, V: Link>(
    alloc: Global,
    profile: &Name,
    call_words: CallWords,
    edge: &mut Edge<S, K, M, W, C, G, L>,
    way: &mut V,
) -> End
    ensures runs { RunsBy V.coming V.closed V.faults V.read_faults V.write_faults profile.now call_words edge.old edge.new result way.old way.new }
    ensures notes { NotesNothing edge.old edge.new }
{
    match prepare(alloc, profile, call_words, edge) {
        Ok((profile, call)) => end_called(go(alloc, profile, &call, edge, way)),
        Err(why) => end_uncalled(why),
    }
}

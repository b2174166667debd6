// What a server begins with, read from the store: its configuration, and the hub over the catalogue's records.
ghost use Rattle.std.specs.Prelude.{◌≡◌, ◌≤◌, ◌^◌, List, ℕ, Option, Ok, false, IfOk, IfSome, option_and_then};
ghost use Rattle.edge_core.specs.Faults.{Cause};
ghost use Rattle.log_store.specs.Loads.{IsFetched, Looked};
ghost use Rattle.log_store.specs.Refusals.{failed_load};
ghost use Rattle.share_config.specs.Configuration.{config_in};
ghost use Rattle.share_commands.specs.Configuration.{config_at, config_name as name_of_config, config_of as config_of_bytes, if_config};
ghost use Rattle.share_commands.specs.StdioSteps.{IsOpened, without_hub, without_load};
ghost use Rattle.share_commands.specs.declared.opening.NoServer.TheVariants as no_server;

use edge_core::{Name, Store};
use log_store::{Fetched, LoadRefusal, fetch};
use share_config::{Config, ConfigFault, config_of};
use share_hub::{Hub, HubPass, OpenRefusal};
use share_serve::Server;
use std::alloc::{AllocError, Global};

const PIECE: usize = 65_536;

// The longest configuration, 16 MiB.
const MOST_CONFIG: usize = 16 << 20;

/// Why there is no server.
#[derive(Clone, Copy, Debug, PartialEq, Eq)]
pub(crate) enum NoServer {
    /// The configuration is absent, longer than 16 MiB, or none.
    Configuration,
    /// The record of that number is none, or the catalogue refuses its edit after those before it.
    Record { number: u64 },
    /// A call of the store failed.
    StoreFault,
    /// Memory is wanting.
    NoMemory,
}

impl From<LoadRefusal> for NoServer {
    ghost from_gives = { λ refused why. why ≡ without_load refused };

    fn from(refused: LoadRefusal) -> Self {
        match refused {
            LoadRefusal::StoreFault => NoServer::StoreFault,
            LoadRefusal::NoMemory => NoServer::NoMemory,
        }
    }
}

impl From<OpenRefusal> for NoServer {
    ghost from_gives = { λ refused why. why ≡ without_hub refused };

    fn from(refused: OpenRefusal) -> Self {
        match refused {
            OpenRefusal::Record { number, .. } | OpenRefusal::Edit { number, .. } => {
                NoServer::Record { number }
            }
            OpenRefusal::StoreFault => NoServer::StoreFault,
            OpenRefusal::NoMemory => NoServer::NoMemory,
        }
    }
}

/// A server that is opened: what it answers by, its hub, and the places of its callers there.
#[derive(Drop)]
pub(crate) struct Opened {
    pub(crate) server: Server,
    pub(crate) hub: Hub,
    pub(crate) passes: Vec<HubPass>,
}

// The name of the configuration's object.
fn config_name(alloc: Global) -> Result<Name, AllocError>
    ensures { IfOk result (λ name. name ≡ name_of_config) }
{
    match Name::of(String::from_str(alloc, "_share_log/config.json")?) {
        Some(name) => Ok(name),
        None => unreachable!(),
    }
}

// The configuration that bytes state, if they state one.
fn stated(alloc: Global, bytes: &[u8]) -> Result<Option<Config>, AllocError>
    ensures { IfOk result (λ found. found ≡ if_config (config_in bytes.now)) }
{
    match config_of(alloc, bytes) {
        Ok(config) => Ok(Some(config)),
        Err(ConfigFault::NoMemory) => Err(AllocError),
        Err(_) => Ok(None),
    }
}

// The configuration of an object that was fetched, if it has one.
fn fetched_config(alloc: Global, fetched: Fetched) -> Result<Option<Config>, LoadRefusal>
    ensures config { (object : Option (List ℕ)) → IsFetched (2 ^ 24) object (Ok fetched) → IfOk result (λ found. found ≡ option_and_then config_of_bytes object) }
    ensures no_store { failed_load result ≡ false }
{
    match fetched {
        Fetched::Bytes(bytes) => Ok(stated(alloc, &bytes)?),
        Fetched::Absent | Fetched::TooLong => Ok(None),
    }
}

// The configuration in a store, if it has one.
fn stored_config<W: Store>(alloc: Global, store: &mut W) -> Result<Option<Config>, LoadRefusal>
    ensures config { IfSome (W.objects store.new) (λ objects. IfOk result (λ found. found ≡ config_at objects)) }
    ensures looked { Looked (W.objects store.old) (W.objects store.new) (W.alone store.old) (W.alone store.new) }
    ensures cause { Cause (W.faults store.old) (W.faults store.new) (failed_load result) }
    ensures stored { W.stored store.new ≡ W.stored store.old }
{
    let name = config_name(alloc)?;
    let mut piece = vec![in alloc; 0; PIECE]?;
    match fetch(alloc, store, &name, MOST_CONFIG, &mut piece) {
        Ok(fetched) => fetched_config(alloc, fetched),
        Err(refusal) => Err(refusal),
    }
}

/// Opens a server for so many callers over a store: the configuration is read first, then the records. Nothing is stored.
pub(crate) fn open_server<W: Store>(
    alloc: Global,
    store: &mut W,
    callers: u32,
) -> Result<Opened, NoServer>
    requires callers { (1 ≤ callers) × (callers ≤ 65) }
    ensures opened { IsOpened result callers (W.objects store.old) (W.objects store.new) (W.faults store.old) (W.faults store.new) }
    ensures looked { Looked (W.objects store.old) (W.objects store.new) (W.alone store.old) (W.alone store.new) }
    ensures later { W.faults store.old ≤ W.faults store.new }
    ensures stored { W.stored store.new ≡ W.stored store.old }
{
    let Some(config) = stored_config(alloc, store)? else {
        return Err(NoServer::Configuration);
    };
    let (hub, passes) = Hub::open(alloc, store, callers)?;
    Ok(Opened {
        server: Server::of(config),
        hub,
        passes,
    })
}

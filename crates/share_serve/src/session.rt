// What a session is served with.
use crate::server::Server;
use share_hub::Hub;
use std::alloc::Global;

// What a session shares with others, and the memory that it takes.
#[derive(Drop)]
pub(crate) struct Session<'a, R, G> {
    pub(crate) rt: &'a R,
    pub(crate) alloc: Global,
    pub(crate) hub: &'a Hub,
    pub(crate) server: &'a Server,
    pub(crate) gate: &'a G,
}

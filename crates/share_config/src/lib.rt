//! What a server and a client are told before they begin, read from JSON texts: the configuration of a server, and the
//! profile of a recipient (Delta Sharing PROTOCOL.md, "Profile File Format").
#![tactic(auto)]

mod config;
mod config_fault;
mod endpoint;
mod http_url;
mod profile;
mod profile_fault;
mod providers;
mod texts;
mod ttl;

pub use config::{Config, Keys, config_of};
pub use config_fault::{ConfigFault, ConfigField};
pub use endpoint::{Endpoint, is_endpoint_text};
pub use http_url::HttpUrl;
pub use profile::{Profile, profile_of};
pub use profile_fault::{ProfileFault, ProfileField};
pub use providers::Providers;
pub use ttl::LinkTtl;

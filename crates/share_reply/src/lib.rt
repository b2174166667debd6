//! What recipients are answered (Delta Sharing PROTOCOL.md, "REST APIs"): what of the shared state a request asks, and the reply
//! by what is seen for it.
#![tactic(auto)]

mod access;
mod asking;
mod cut;
mod feeds;
mod files;
mod given;
mod keys;
mod law;
mod lengths;
mod lines;
mod links;
mod listing_text;
mod lists;
mod numbers;
mod page;
mod plan;
mod refused;
mod refusing;
mod shown;
mod stop;
mod walk;

pub use asking::ask_of;
pub use keys::ReplyKeys;
pub use law::{
    chains_are_whole, equal_views_answer_alike, formats_agree, hidden_is_like_absent,
    parts_are_kept, revoked_grants_give_nothing, unbound_tables_give_nothing,
};
pub use lines::LinePlan;
pub use plan::{Plan, plan_of};
pub use refused::Refused;

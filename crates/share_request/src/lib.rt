//! The requests of a Delta Sharing server, read from their heads and bodies (Delta Sharing PROTOCOL.md, "REST APIs"): what is
//! asked, or the first reason why not.
#![tactic(auto)]

mod asked;
mod bearer;
mod body;
mod caller;
mod capability;
mod fault;
mod law;
mod parameter;
mod path;
mod request;
mod target;

pub use asked::{Bound, ByLink, ByToken, Caller, ListPage, Request, ResponseFormat, What};
pub use bearer::bearer_of;
pub use caller::caller_of;
pub use fault::{Parameter, RequestFault, TurnedAway};
pub use law::{
    heads_tell_callers, links_have_one_spelling, requests_are_in_form, unknown_is_passed_over,
};
pub use request::request_of;

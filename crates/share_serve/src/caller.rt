// Who answers a request.
ghost use Rattle.std.specs.Prelude.{◌≡◌, List, ℕ, bytes_eq};
ghost use Rattle.std.specs.List.{list_any};
ghost use Rattle.share_serve.specs.CallerViews.{by_of};
ghost use Rattle.share_serve.specs.Callers as spec;

use crate::server::Server;
use case_table::Route;
use commit_check::Offer;
use share_catalog::{Edit, Location};
use share_request::{ByToken, Request, RequestFault, What};

/// Whose token a route wants.
#[derive(Clone, Copy, Debug, PartialEq, Eq)]
pub(crate) enum Party {
    Recipient,
    Provider,
    Administrator,
}

/// What is done for a provider or for the administrator: a call of the hub, or nothing but a refusal.
#[derive(Clone, Copy)]
pub(crate) enum Call<'a> {
    Commit(&'a Offer),
    Refresh(&'a Location),
    Edit(&'a Edit),
    Unauthenticated,
    Fault(RequestFault),
}

/// Who answers a request: the view of whom it asks for, or a call.
#[derive(Clone, Copy)]
pub(crate) enum By<'a> {
    View,
    Call(Call<'a>),
}

fn party_of(route: Route) -> Party
    ensures { result ≡ spec.party_of route }
{
    match route {
        Route::ListShares
        | Route::GetShare
        | Route::ListSchemas
        | Route::ListTables
        | Route::ListAll
        | Route::Version
        | Route::Metadata
        | Route::Query
        | Route::Changes
        | Route::File => Party::Recipient,
        Route::Commit | Route::Refresh => Party::Provider,
        Route::Edit => Party::Administrator,
    }
}

fn by_what<'a>(what: &'a What) -> By<'a>
    ensures { by_of result ≡ spec.by_what what.now }
{
    match what {
        What::Commit { offer } => By::Call(Call::Commit(offer)),
        What::Refresh { location } => By::Call(Call::Refresh(location)),
        What::Edit { edit } => By::Call(Call::Edit(edit)),
        _ => By::View,
    }
}

fn where_known<'a>(known: bool, asked: &'a Result<What, RequestFault>) -> By<'a>
    ensures { by_of result ≡ spec.where_known known asked.now }
{
    if !known {
        return By::Call(Call::Unauthenticated);
    }
    match asked {
        Ok(what) => by_what(what),
        Err(fault) => By::Call(Call::Fault(*fault)),
    }
}

pub(crate) fn is_provider(server: &Server, digest: &[u8; 32]) -> bool
    ensures { result ≡ list_any (λ d. bytes_eq d digest.now) server.now.providers }
{
    server.providers.digests().iter().any(|d| d == digest)
}

pub(crate) fn is_administrator(server: &Server, digest: &[u8; 32]) -> bool
    ensures { result ≡ bytes_eq server.now.admin digest.now }
{
    server.admin == *digest
}

fn by_token<'a>(server: &Server, request: &'a ByToken) -> By<'a>
    ensures { by_of result ≡ spec.by_party (spec.party_of request.now.route) server.now request.now }
{
    match party_of(request.route) {
        Party::Recipient => By::View,
        Party::Provider => where_known(is_provider(server, &request.digest), &request.asked),
        Party::Administrator => {
            where_known(is_administrator(server, &request.digest), &request.asked)
        }
    }
}

/// Who answers a request: providers and the administrator are known by the digests of their tokens.
pub(crate) fn by_request<'a>(server: &Server, request: &'a Request) -> By<'a>
    ensures { by_of result ≡ spec.by_request server.now request.now }
{
    match request {
        Request::ByToken(request) => by_token(server, request),
        Request::TurnedAway(_) | Request::ByLink(_) => By::View,
    }
}

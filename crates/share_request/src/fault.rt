// Why a request is refused.
ghost use Rattle.std.specs.Prelude.{◌≡◌};
ghost use Rattle.share_request.specs.Faults as spec;
ghost use Rattle.share_request.specs.Stops as stops;
ghost use Rattle.share_request.specs.declared.fault.Stop.TheVariants as stop;

use case_table::{Method, Refusal};
use catalog_log::RecordFault;
use json_tree::TreeFault;
use log_actions::NoAction;
use query_body::{QueryFault, QueryField};
use std::alloc::{AllocError, AllocFailed};

/// A parameter of a query string, or a field of a query's body, that has a grammar of its own (Delta Sharing PROTOCOL.md, "REST
/// APIs").
#[derive(Clone, Copy, Debug, PartialEq, Eq)]
pub enum Parameter {
    /// The most names of a page of a list.
    MaxResults,
    /// The moment that changes, or the version asked for, start at.
    StartingTimestamp,
    /// The version that changes start at.
    StartingVersion,
    /// The moment that changes end at.
    EndingTimestamp,
    /// The version that changes end at.
    EndingVersion,
    /// The most files of a page.
    MaxFiles,
    /// The version that is asked for.
    Version,
    /// The moment whose version is asked for.
    Timestamp,
    /// A token of another server's, which isn't taken.
    RefreshToken,
}

impl Parameter {
    /// The name of the parameter in query strings and bodies.
    pub fn word(self) -> &'static str
        ensures { result.now ≡ spec.parameter_word self }
    {
        match self {
            Parameter::MaxResults => "maxResults",
            Parameter::StartingTimestamp => "startingTimestamp",
            Parameter::StartingVersion => "startingVersion",
            Parameter::EndingTimestamp => "endingTimestamp",
            Parameter::EndingVersion => "endingVersion",
            Parameter::MaxFiles => "maxFiles",
            Parameter::Version => "version",
            Parameter::Timestamp => "timestamp",
            Parameter::RefreshToken => "refreshToken",
        }
    }
}

/// Why a request by token is refused, once it is known who asks. The first that holds is told: of the query string, then of the
/// body, then of the names in the path.
#[derive(Clone, Copy, Debug, PartialEq, Eq)]
pub enum RequestFault {
    /// The parameter of the query string, or the field of a query's body, is outside its grammar.
    BadParameter(Parameter),
    /// The body isn't a JSON object (RFC 8259) whose fields have the stated kinds.
    BadBody,
    /// A share, schema or table in the path has no name, so that there is none.
    NotFound,
}

impl RequestFault {
    /// The refusal that answers the request.
    pub fn refusal(self) -> Refusal
        ensures { result ≡ spec.fault_refusal self }
    {
        match self {
            RequestFault::BadParameter(_) => Refusal::BadParameter,
            RequestFault::BadBody => Refusal::BadBody,
            RequestFault::NotFound => Refusal::NotFound,
        }
    }

    /// The detail of the refusal's message: the parameter's name, or the empty text.
    pub fn detail(self) -> &'static str
        ensures { result.now ≡ spec.fault_detail self }
    {
        match self {
            RequestFault::BadParameter(parameter) => parameter.word(),
            RequestFault::BadBody | RequestFault::NotFound => "",
        }
    }
}

/// Why a request is refused before it is known who asks. The first that holds is told.
#[derive(Clone, Copy, Debug, PartialEq, Eq)]
pub enum TurnedAway {
    /// No route has the path.
    NoRoute,
    /// The path is a route's that has this method, and the request has another one.
    WrongMethod(Method),
    /// There isn't exactly one Authorization field with a bearer token.
    NoBearer,
}

impl TurnedAway {
    /// The refusal that answers the request.
    pub fn refusal(self) -> Refusal
        ensures { result ≡ spec.early_refusal self }
    {
        match self {
            TurnedAway::NoRoute => Refusal::NotFound,
            TurnedAway::WrongMethod(_) => Refusal::MethodNotAllowed,
            TurnedAway::NoBearer => Refusal::Unauthenticated,
        }
    }
}

// Why a reader has no answer.
#[derive(Clone, Copy, Debug, PartialEq, Eq)]
pub(crate) enum Stop {
    Refused(RequestFault),
    NoMemory,
}

impl From<RequestFault> for Stop {
    ghost from_gives = { λ f e. e ≡ stop.Refused f };

    fn from(fault: RequestFault) -> Self {
        Stop::Refused(fault)
    }
}

impl From<AllocError> for Stop {
    ghost from_gives = { λ _ e. e ≡ stop.NoMemory };

    fn from(_: AllocError) -> Self {
        Stop::NoMemory
    }
}

impl<T: Drop> From<AllocFailed<T>> for Stop {
    ghost from_gives = { λ _ e. e ≡ stop.NoMemory };

    fn from(_: AllocFailed<T>) -> Self {
        Stop::NoMemory
    }
}

fn parameter_of(field: QueryField) -> Parameter
    ensures { result ≡ spec.parameter_of field }
{
    match field {
        QueryField::MaxFiles => Parameter::MaxFiles,
        QueryField::Version => Parameter::Version,
        QueryField::Timestamp => Parameter::Timestamp,
        QueryField::StartingVersion => Parameter::StartingVersion,
        QueryField::EndingVersion => Parameter::EndingVersion,
        QueryField::RefreshToken => Parameter::RefreshToken,
    }
}

impl From<QueryFault> for Stop {
    ghost from_gives = { λ f e. e ≡ stops.query_stop f };

    fn from(fault: QueryFault) -> Self {
        match fault {
            QueryFault::BadBody => Stop::Refused(RequestFault::BadBody),
            QueryFault::BadParameter(field) => {
                Stop::Refused(RequestFault::BadParameter(parameter_of(field)))
            }
            QueryFault::NoMemory => Stop::NoMemory,
        }
    }
}

impl From<TreeFault> for Stop {
    ghost from_gives = { λ f e. e ≡ stops.tree_stop f };

    fn from(fault: TreeFault) -> Self {
        match fault {
            TreeFault::NotUtf8 | TreeFault::NotJson => Stop::Refused(RequestFault::BadBody),
            TreeFault::NoMemory => Stop::NoMemory,
        }
    }
}

impl From<RecordFault> for Stop {
    ghost from_gives = { λ f e. e ≡ stops.record_stop f };

    fn from(fault: RecordFault) -> Self {
        match fault {
            RecordFault::NotUtf8 | RecordFault::NotJson | RecordFault::BadRecord => {
                Stop::Refused(RequestFault::BadBody)
            }
            RecordFault::NoMemory => Stop::NoMemory,
        }
    }
}

impl From<NoAction> for Stop {
    ghost from_gives = { λ f e. e ≡ stops.action_stop f };

    fn from(fault: NoAction) -> Self {
        match fault {
            NoAction::Fault(_) => Stop::Refused(RequestFault::BadBody),
            NoAction::NoMemory => Stop::NoMemory,
        }
    }
}

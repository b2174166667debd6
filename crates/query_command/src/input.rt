// The input of a query.
ghost use Rattle.std.specs.Prelude.{◌<◌, ◌≤◌, ◌≡◌, IfOk, length, vec_len};
ghost use Rattle.query_command.specs.Query.{IsInput};
ghost use Rattle.query_command.specs.QuerySteps.{IsAsked, IsBody};
ghost use Rattle.query_command.specs.declared.input.InputFault.TheVariants.{NoMemory};

use crate::ends::End;
use edge_core::{Source, Took};
use query_body::{QueryBody, QueryFault, query_of};
use std::alloc::{AllocError, Global};

const PIECE: usize = 65_536;

// The longest input, 16 MiB.
const MOST_INPUT: usize = 16 << 20;

/// Why the input isn't had.
#[derive(Drop)]
pub enum InputFault {
    /// It is longer than 16 MiB.
    TooLong,
    /// A read failed.
    Failed,
    /// Memory is wanting.
    NoMemory,
}

impl From<AllocError> for InputFault {
    ghost from_gives = { λ _ e. e ≡ NoMemory };

    fn from(_: AllocError) -> Self {
        InputFault::NoMemory
    }
}

// Room for a piece.
fn piece_room(alloc: Global) -> Result<Vec<u8>, AllocError>
    ensures { IfOk result (λ v. 0 < vec_len v) }
{
    let mut room = Vec::with_capacity(alloc, PIECE)?;
    room.push(0)?;
    for _i in 1..PIECE {
        room.push(0)?;
    }
    Ok(room)
}

/// The whole input.
pub fn read_input<S: Source>(alloc: Global, input: &mut S) -> Result<Vec<u8>, InputFault>
    ensures { IsInput (S.left input.old) (S.left input.new) (S.faults input.old) (S.faults input.new) result }
{
    let mut piece = piece_room(alloc)?;
    let mut bytes = Vec::new(alloc);
    while bytes.len() <= MOST_INPUT {
        match input.read(&mut piece) {
            Took::Bytes(n) => bytes.extend_from_slice(&piece[..n])?,
            Took::End => return Ok(bytes),
            Took::Failed => return Err(InputFault::Failed),
        }
    }
    Err(InputFault::TooLong)
}

// The query of a body, which asks for the whole answer.
fn query_of_bytes(alloc: Global, bytes: &[u8]) -> Result<QueryBody, End>
    ensures { IsBody bytes.now result }
{
    match query_of(alloc, bytes) {
        Ok(query) => {
            if query.max.is_none() && query.token.is_none() {
                Ok(query)
            } else {
                Err(End::Input)
            }
        }
        Err(QueryFault::NoMemory) => Err(End::NoMemory),
        Err(_) => Err(End::Input),
    }
}

/// The query that the input asks; the input is then read to its end. `End::Input` comes exactly
/// where it is longer than 16 MiB, is no query body, or asks for a page of the answer.
pub(crate) fn asked<S: Source>(alloc: Global, input: &mut S) -> Result<QueryBody, End>
    ensures asked { IsAsked (S.left input.old) (S.left input.new) (S.faults input.old) (S.faults input.new) result }
{
    match read_input(alloc, input) {
        Ok(bytes) => query_of_bytes(alloc, &bytes),
        Err(InputFault::TooLong) => Err(End::Input),
        Err(InputFault::Failed) => Err(End::ReadFault),
        Err(InputFault::NoMemory) => Err(End::NoMemory),
    }
}

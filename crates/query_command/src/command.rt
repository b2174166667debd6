// The command `query`.
ghost use Rattle.std.specs.Prelude.{◌≡◌, ◌≤◌, IfOk, length};
ghost use Rattle.query_command.specs.Answer.{QueryRuns, location_in};
ghost use Rattle.query_command.specs.AnswerSteps.{Finds};

use crate::edge::Edge;
use crate::ends::End;
use crate::input::asked;
use crate::printing::print;
use crate::table::{LinesFault, table_lines};
use edge_core::{Clock, Gate, Name, Sink, Source, Store};
use share_catalog::Location;
use std::alloc::{AllocError, Global};

/// The location that a word names, none where it names none. The error is want of memory.
pub fn location_of(alloc: Global, text: &str) -> Result<Option<Location>, AllocError>
    ensures { IfOk result (λ location. location ≡ location_in text.now) }
{
    match Name::of(String::from_str(alloc, text)?) {
        Some(name) => Ok(Location::of(name)),
        None => Ok(None),
    }
}

// The lines of the table there, or how the query ends without them.
fn find_lines<S: Source, K: Sink, M: Sink, W: Store, C: Clock, G: Gate, L>(
    alloc: Global,
    location: &Name,
    edge: &mut Edge<S, K, M, W, C, G, L>,
) -> Result<Vec<u8>, End>
    requires { length location.now ≤ 256 }
    ensures { Finds location.now edge.old edge.new result }
{
    let query = asked(alloc, &mut edge.input)?;
    match table_lines(alloc, &mut edge.store, location, &query, &mut edge.steps) {
        Ok(lines) => Ok(lines),
        Err(LinesFault::Refused(why)) => Err(End::Table(why)),
        Err(LinesFault::StoreFault) => Err(End::StoreFault),
        Err(LinesFault::NoMemory) => Err(End::NoMemory),
    }
}

/// Answers the query of the input: writes the lines of the table there to the output. Nothing is noted yet, and nothing is stored.
///
/// The input is looked at first, then the table, and the output is written last: on every end but `End::Done` and `End::WriteFault` it
/// is as it was. The end is one of `Done`, `Input`, `Table`, `ReadFault`, `StoreFault`, `WriteFault` and `NoMemory`.
pub fn query<S: Source, K: Sink, M: Sink, W: Store, C: Clock, G: Gate, L>(
    alloc: Global,
    location: &Name,
    edge: &mut Edge<S, K, M, W, C, G, L>,
) -> End
    requires { length location.now ≤ 256 }
    ensures { QueryRuns location.now edge.old edge.new result }
{
    match find_lines(alloc, location, edge) {
        Ok(lines) => print(edge, &lines),
        Err(end) => end,
    }
}

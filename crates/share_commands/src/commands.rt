// The commands.
ghost use Rattle.std.specs.Prelude.{◌≡◌, Some};
ghost use Rattle.share_commands.specs.Clients.{UsesWay};
ghost use Rattle.query_command.specs.Ends.{status};
ghost use Rattle.share_commands.specs.Expected.{IsExact, IsExactAlone};
ghost use Rattle.share_commands.specs.Run.{IsRun};
ghost use Rattle.share_commands.specs.Serve.{UsesDesks};
ghost use Rattle.share_commands.specs.Steps.{Runs};
ghost use Rattle.share_commands.specs.Words.{command_in};
ghost use Rattle.query_command.specs.declared.ends.End.{End};
ghost use Rattle.share_commands.specs.declared.words.Command.TheVariants.{Rehearse};

use crate::client::client;
use crate::serve::{callers_at, serve, used_desks};
use crate::stdio::{end_without, open_over, stdio};
use crate::words::{Command, HELP, VERSION, command_of};
use edge_core::{Clock, Gate, Link, Listener, Sink, Source, Store};
use query_command::{Edge, End, print, query, tell};
use share_loop::rehearse;
use share_pool::Desk;
use std::alloc::Global;
use std::sync::Wait;
use std::thread::Threads;

// Has a client and a server rehearse, and tells what came of it.
fn rehearsal<R: Wait, S: Source, K: Sink, M: Sink, W: Store, C: Clock, G: Gate, L>(
    rt: &R,
    alloc: Global,
    number: u32,
    edge: &mut Edge<S, K, M, W, C, G, L>,
) -> End
    ensures { Runs (Some (Rehearse number)) edge.old edge.new result }
{
    match rehearse(rt, alloc, number) {
        Ok(text) => print(edge, text.as_str().as_bytes()),
        Err(_) => End::NoMemory,
    }
}

/// Does what the words ask, and answers the program's status.
///
/// The answer comes by one of the ends of [`End`], each with its status, its line on the notes and its cause.
///
/// `query`, `--help` and `--version`: the words are tested first, then the input, then the table. On every status but 0 and a write
/// fault the output is as it was. Nothing is stored.
///
/// `stdio`: the configuration is read first, then the catalogue's records; where both are good, one session is served over the input
/// and the output, as `serve_conn` says, by one caller of a hub that is opened over the store. Before that nothing is read, written
/// or stored.
///
/// `serve`: the configuration and the records are read likewise; then the doors of as many desks as there are workers listen at the
/// port, and each worker serves the lines of its desk's door as `serve_desk` says, over its desk's store and clock, all over one hub,
/// until no further line comes or its door fails. There is one history of all workers then, legal and theirs alone. The other
/// desks are left as they are, and so are all by the other commands.
///
/// `rehearse`: a client reads a table of 50,000 files from a server in memory, and the lines of a summary are printed. Nothing of the
/// outside is used but the output, and nothing is stored.
///
/// `client`: the profile is read first, from the object of its name in the store, and for `client read` the input as the body of a
/// query; then the call that the words name is made over the way, and what it answers is printed. On every status but 0 and a write
/// fault the output is as it was, but for the pieces of a file that came before a fault, as far as a way that tells its lines goes.
/// The other commands leave the way as it is. Nothing is stored.
///
/// Where the outside tells what it holds, no count of faults rose and memory sufficed, the run did what one function of the words,
/// the input and the stored objects says; of a rehearsal it says that a summary is told, of a session and of workers the configuration,
/// and of a client the profile and the call. `rt` makes the workers' threads and
/// waits for them and for turns at the hub.
pub fn run<
    R: Threads + Wait + Sync,
    S: Source,
    K: Sink,
    M: Sink,
    W: Store + Send,
    C: Clock + Send,
    N: Listener + Send,
    G: Gate + Sync,
    L: Send,
    V: Link,
>(
    rt: &R,
    alloc: Global,
    words: &[String],
    edge: &mut Edge<S, K, M, W, C, G, L>,
    desks: &mut [Desk<N, W, C, L>],
    way: &mut V,
) -> u8
    ensures cause { (end : End) × (result ≡ status end)
        × IsRun (command_in words.now) edge.old edge.new end
        × UsesDesks N.coming N.closed N.faults N.listens C.coming W.objects W.alone W.faults W.stored (command_in words.now) edge.old edge.new end desks.old desks.new
        × UsesWay V.coming V.closed V.faults V.read_faults V.write_faults (command_in words.now) edge.old edge.new end way.old way.new }
    ensures exact { IsExact words.now edge.old edge.new result }
    ensures alone { IsExactAlone words.now edge.old edge.new result }
{
    let end = match command_of(alloc, words) {
        Ok(Some(Command::Help)) => print(edge, HELP.as_bytes()),
        Ok(Some(Command::Version)) => print(edge, VERSION.as_bytes()),
        Ok(Some(Command::Query(location))) => query(alloc, location.name(), edge),
        Ok(Some(Command::Stdio)) => stdio(rt, alloc, edge),
        Ok(Some(Command::Rehearse(number))) => rehearsal(rt, alloc, number, edge),
        Ok(Some(Command::Serve { port, workers })) => {
            let used = used_desks(workers, desks.len());
            match open_over(alloc, callers_at(used), edge) {
                Ok(opened) => serve(rt, alloc, opened, port, &mut desks[..used], &edge.gate),
                Err(why) => end_without(why),
            }
        }
        Ok(
            Some(
                Command::Client {
                    profile,
                    call_words,
                },
            ),
        ) => client(alloc, &profile, call_words, edge, way),
        Ok(None) => End::Words,
        Err(_) => End::NoMemory,
    };
    tell(edge, &end);
    end.status()
}

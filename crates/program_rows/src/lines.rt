// Lines in memory: what comes on each, and what is to be written to it.
use edge_core::{MemClosed, MemLine, MemLink, MemPeer, MemSink, MemSource};
use row_files::{
    RowFault, RowFile, Told, member_at, number_at, sink_of, source_of, text_at, text_or_nothing,
    word_at,
};
use serde_json::Value;

/// A sink whose first pieces have those sizes, unless it says others.
pub(crate) fn sink_in_pieces(
    file: &RowFile,
    of: &Value,
    usual: &[usize],
) -> Result<MemSink, RowFault> {
    if member_at(of, "out_sizes").is_some() {
        return sink_of(file, of);
    }
    let sizes = Vec::from_slice(file.alloc(), usual)?;
    Ok(sink_of(file, of)?.with_sizes(sizes))
}

// What comes on a line, in pieces of those sizes, unless it says others.
fn source_in_pieces(file: &RowFile, of: &Value) -> Result<MemSource, RowFault> {
    let text = text_at(file, of, "in")?;
    if member_at(of, "in_sizes").is_some() {
        return source_of(file, of, text);
    }
    let sizes = Vec::from_slice(file.alloc(), &[1, 20, 5])?;
    Ok(source_of(file, of, text)?.with_sizes(sizes))
}

// A line of those, which nobody has used.
fn line_between(source: MemSource, sink: MemSink) -> Result<MemLine, RowFault> {
    if source.faults() == 0 && sink.faults() == 0 && sink.bytes().is_empty() {
        Ok(MemLine::new(source, sink))
    } else {
        Err(RowFault::Unknown("a line that was used"))
    }
}

/// The line of an object.
pub(crate) fn line_of(file: &RowFile, of: &Value) -> Result<MemLine, RowFault> {
    let source = source_in_pieces(file, of)?;
    let sink = sink_in_pieces(file, of, &[1, 30])?;
    line_between(source, sink)
}

fn port_of(of: &Value) -> Result<u16, RowFault> {
    match u16::try_from(number_at(of, "port")?.unwrap_or(8080)) {
        Ok(port) => Ok(port),
        Err(_) => Err(RowFault::Member("port")),
    }
}

fn peer_of(file: &RowFile, of: &Value) -> Result<MemPeer, RowFault> {
    let port = port_of(of)?;
    let host = String::from_str(file.alloc(), word_at(of, "host").unwrap_or("peer"))?;
    let line = line_of(file, of)?;
    Ok(MemPeer { host, port, line })
}

fn push_peers(file: &RowFile, lines: &[Value], peers: &mut Vec<MemPeer>) -> Result<(), RowFault> {
    for line in lines {
        peers.push(peer_of(file, line)?)?;
    }
    Ok(())
}

/// A link of those lines.
pub(crate) fn link_of(file: &RowFile, lines: &[Value]) -> Result<MemLink, RowFault> {
    let mut peers = Vec::new(file.alloc());
    push_peers(file, lines, &mut peers)?;
    Ok(MemLink::new(file.alloc(), peers)?)
}

/// Compares a number with the one of that name, 0 where it is lacking.
pub(crate) fn compare_count(of: &Value, name: &'static str, came: u64, told: &mut Told) {
    match number_at(of, name) {
        Ok(wanted) => told.want_number(name, wanted.unwrap_or(0), came),
        Err(fault) => told.fail(fault),
    }
}

/// Compares what was written to the lines that were closed with what each is to be told, and how often each failed: one that is told
/// nothing isn't opened.
pub(crate) fn compare_lines(
    file: &RowFile,
    lines: &[Value],
    closed: &[MemClosed],
    told: &mut Told,
) {
    let mut opened = 0u64;
    for line in lines {
        if member_at(line, "told").is_some() {
            opened = opened.saturating_add(1);
        }
    }
    told.want_number("opened lines", opened, closed.len() as u64);
    for (line, closed) in lines.iter().zip(closed) {
        told.want(
            "told",
            text_or_nothing(file, line, "told"),
            closed.written(),
        );
        compare_count(line, "read_faults", closed.read_faults(), told);
        compare_count(line, "write_faults", closed.write_faults(), told);
    }
}

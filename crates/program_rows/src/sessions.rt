// Sessions: what comes on the connections of a server, and what is answered.
use crate::places::{Place, server_of};
use edge_core::{Gathering, Got, MemSink, MemStore, Name, Sink, Store, Stored};
use row_files::{
    RowFault, RowFile, Told, clock_of, flag_at, list_at, member_at, name_of, number_at, sink_of,
    source_of, stock, store_of, text_at,
};
use serde_json::Value;
use share_hub::OpenRefusal;
use share_serve::{Server, SessionEnd};
use std::alloc::{AllocError, Global};
use std::sync::Wait;

// A connection of a row, and the configured server.
#[derive(Clone, Copy)]
struct Connection<'a> {
    file: &'a RowFile,
    server: &'a Server,
    of: &'a Value,
}

// Appends one side of the turns: what is asked, or what is answered.
fn push_side(
    file: &RowFile,
    turns: &[Value],
    side: usize,
    out: &mut Vec<u8>,
) -> Result<(), RowFault> {
    for turn in turns {
        match turn.get(side) {
            Some(value) => out.extend_from_slice(&file.text(value)?)?,
            None => return Err(RowFault::Member("turns")),
        }
    }
    Ok(())
}

impl Connection<'_> {
    fn turns(&self, side: usize) -> Result<Vec<u8>, RowFault> {
        let mut bytes = Vec::new(self.file.alloc());
        push_side(self.file, list_at(self.of, "turns")?, side, &mut bytes)?;
        Ok(bytes)
    }

    // The text of that name; where it is lacking, that side of the turns.
    fn said(&self, name: &str, side: usize) -> Result<Vec<u8>, RowFault> {
        match member_at(self.of, name) {
            Some(value) => self.file.text(value),
            None => self.turns(side),
        }
    }

    // Compares the sizes of the first writes, as many as the row has.
    fn compare_pieces(&self, pieces: &[usize], told: &mut Told) -> Result<(), RowFault> {
        for (place, value) in list_at(self.of, "pieces")?.iter().enumerate() {
            let came = match pieces.get(place) {
                Some(size) => *size as u64,
                None => 0,
            };
            match value.as_u64() {
                Some(wanted) => told.want_number("the size of a write", wanted, came),
                None => return Err(RowFault::Member("pieces")),
            }
        }
        Ok(())
    }

    fn compare_out(&self, sink: &MemSink, told: &mut Told) {
        told.want("out", self.said("out", 1), sink.bytes());
        let compared = self.compare_pieces(sink.pieces(), told);
        told.end(compared);
    }

    // How the session over that sink ends.
    fn ended<R: Wait, K: Sink>(
        &self,
        rt: &R,
        place: &mut Place,
        store: &mut MemStore,
        sink: &mut K,
    ) -> Result<SessionEnd, RowFault> {
        let file = self.file;
        let mut clock = clock_of(file, self.of)?;
        let mut source = source_of(file, self.of, self.said("in", 0)?)?;
        Ok(place.serve(
            rt,
            file.alloc(),
            self.server,
            store,
            &mut clock,
            &mut source,
            sink,
        ))
    }

    fn serve_over<R: Wait, K: Sink>(
        &self,
        rt: &R,
        place: &mut Place,
        store: &mut MemStore,
        sink: &mut K,
        told: &mut Told,
    ) {
        match self.ended(rt, place, store, sink) {
            Ok(end) => told.want_shown("end", text_at(self.file, self.of, "end"), &end),
            Err(fault) => told.fail(fault),
        }
    }

    // The session over a sink that hands on at once.
    fn serve_at_once<R: Wait>(
        &self,
        rt: &R,
        place: &mut Place,
        store: &mut MemStore,
        told: &mut Told,
    ) {
        match sink_of(self.file, self.of) {
            Ok(mut sink) => {
                self.serve_over(rt, place, store, &mut sink, told);
                self.compare_out(&sink, told);
            }
            Err(fault) => told.fail(fault),
        }
    }

    // The session over a sink that keeps what is written up to a flush.
    fn serve_gathered<R: Wait>(
        &self,
        rt: &R,
        place: &mut Place,
        store: &mut MemStore,
        told: &mut Told,
    ) -> Result<(), RowFault> {
        let Ok(mut sink) = Gathering::new(self.file.alloc(), sink_of(self.file, self.of)?) else {
            return Err(RowFault::NoMemory);
        };
        self.serve_over(rt, place, store, &mut sink, told);
        told.want("kept", text_at(self.file, self.of, "kept"), sink.kept());
        self.compare_out(&sink.into_inner(), told);
        Ok(())
    }
}

// Opens the servers up to that number. Answers why one isn't, none where they are open.
fn open_up_to(
    alloc: Global,
    number: usize,
    places: &mut Vec<Place>,
    store: &mut MemStore,
) -> Result<Option<OpenRefusal>, AllocError> {
    for _ in places.len()..number.saturating_add(1) {
        match Place::open(alloc, store) {
            Ok(place) => places.push(place)?,
            Err(refusal) => return Ok(Some(refusal)),
        }
    }
    Ok(None)
}

// A connection: answers whether its server is open.
fn connect<R: Wait>(
    rt: &R,
    connection: &Connection,
    places: &mut Vec<Place>,
    store: &mut MemStore,
    told: &mut Told,
) -> Result<bool, RowFault> {
    let (file, of) = (connection.file, connection.of);
    let number = number_at(of, "server")?.unwrap_or(0) as usize;
    if let Some(refusal) = open_up_to(file.alloc(), number, places, store)? {
        told.want_shown("opening", text_at(file, of, "opening"), &refusal);
        return Ok(false);
    }
    if let Some(value) = member_at(of, "later") {
        stock(store, file.items(value)?)?;
    }
    let Some(place) = places.get_mut(number) else {
        return Err(RowFault::Member("server"));
    };
    if flag_at(of, "gathers")? {
        connection.serve_gathered(rt, place, store, told)?;
    } else {
        connection.serve_at_once(rt, place, store, told);
    }
    Ok(true)
}

fn connect_each<R: Wait>(
    rt: &R,
    row: &Connection,
    places: &mut Vec<Place>,
    store: &mut MemStore,
    told: &mut Told,
) -> Result<(), RowFault> {
    let Some(Value::Array(connections)) = member_at(row.of, "connections") else {
        connect(rt, row, places, store, told)?;
        return Ok(());
    };
    for of in connections {
        let connection = Connection {
            file: row.file,
            server: row.server,
            of,
        };
        if !connect(rt, &connection, places, store, told)? {
            break;
        }
    }
    Ok(())
}

fn connect_all<R: Wait>(rt: &R, row: &Connection, store: &mut MemStore, told: &mut Told) {
    let mut places = Vec::new(row.file.alloc());
    let ran = connect_each(rt, row, &mut places, store, told);
    told.end(ran);
}

// The bytes of an object, and one more at most than are wanted; none where it isn't there.
fn bytes_of(
    alloc: Global,
    store: &mut MemStore,
    name: &Name,
    wanted: usize,
) -> Result<Option<Vec<u8>>, AllocError> {
    let mut bytes = vec![in alloc; 0; wanted.saturating_add(1)]?;
    match store.get(name, 0, &mut bytes) {
        Got::Bytes(count) => {
            bytes.truncate(count);
            Ok(Some(bytes))
        }
        _ => Ok(None),
    }
}

fn compare_object(
    alloc: Global,
    store: &mut MemStore,
    object: &Stored,
    told: &mut Told,
) -> Result<(), AllocError> {
    match bytes_of(alloc, store, &object.name, object.bytes.len())? {
        Some(came) => told.compare("an object", &object.bytes, &came),
        None => told.compare("an object", b"stored", b"absent"),
    }
}

fn compare_objects(
    file: &RowFile,
    value: &Value,
    store: &mut MemStore,
    told: &mut Told,
) -> Result<(), RowFault> {
    for object in &file.items(value)? {
        let compared = compare_object(file.alloc(), store, object, told);
        told.stored(compared);
    }
    Ok(())
}

fn compare_absent(
    alloc: Global,
    store: &mut MemStore,
    value: &Value,
    told: &mut Told,
) -> Result<(), RowFault> {
    let Value::String(name) = value else {
        return Err(RowFault::Member("absent"));
    };
    let name = name_of(alloc, name)?;
    if bytes_of(alloc, store, &name, 0)?.is_some() {
        told.compare("an object", b"absent", b"stored")?;
    }
    Ok(())
}

// Compares what is stored at the end.
fn compare_store(
    file: &RowFile,
    row: &Value,
    store: &mut MemStore,
    told: &mut Told,
) -> Result<(), RowFault> {
    if let Some(value) = member_at(row, "behind") {
        compare_objects(file, value, store, told)?;
    }
    for value in list_at(row, "absent")? {
        compare_absent(file.alloc(), store, value, told)?;
    }
    Ok(())
}

fn run_over<R: Wait>(rt: &R, row: &Connection, told: &mut Told) -> Result<(), RowFault> {
    let (file, alloc) = (row.file, row.file.alloc());
    let mut store = store_of(file, row.of)?;
    connect_all(rt, row, &mut store, told);
    // No call of it fails any more.
    let mut store = store.with_fails(Vec::new(alloc), Vec::new(alloc));
    compare_store(file, row.of, &mut store, told)
}

/// A row of connections: what comes `in` and what is to go `out`, or the `turns` of both, and how the session is to `end`; then what is to
/// be stored `behind` it.
pub(crate) fn session_row<R: Wait>(
    rt: &R,
    file: &RowFile,
    row: &Value,
    told: &mut Told,
) -> Result<(), RowFault> {
    let server = server_of(file, row)?;
    let row = Connection {
        file,
        server: &server,
        of: row,
    };
    run_over(rt, &row, told)
}

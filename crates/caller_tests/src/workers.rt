// Two workers at one door of real connections, asked by two threads at once.
ghost use Rattle.std.specs.Prelude.{◌≡◌, ◌≤◌, [], false, Some, IfSome};
ghost use Rattle.std.specs.Vec.{vec_capacity, vec_len};

use crate::callers::Callers;
use crate::objects::stocked;
use edge_core::{
    HoldGate, Limited, Listener, Listening, LockedDoor, MemClock, MemStore, SharedDoor,
};
use edge_std::TcpDoor;
use share_config::config_of;
use share_hub::{Hub, HubPass};
use share_pool::{Desk, ServeEnd, serve_all};
use share_serve::Server;
use std::alloc::Global;
use std::io::Write;
use std::net::{Shutdown, TcpStream};
use std::sync::{Arc, Mutex, Wait};
use std::thread::Threads;
use std::{io, thread};
use step_count::Steps;

// Keys of 32 bytes each, the digests of the tokens `admin` and `provider`, and the endpoint.
const CONFIG: &[u8] =
    b"{\"tokenKey\":\"0101010101010101010101010101010101010101010101010101010101010101\",\
    \"linkKey\":\"0202020202020202020202020202020202020202020202020202020202020202\",\
    \"adminDigest\":\"8c6976e5b5410415bde908bd4dee15dfb167a9c873fc4bb8a81f6f2ab448a918\",\
    \"providerDigests\":[\"5c4c1964340aca5b65393bbe9d3249cdd71be26665b3320ad694f034f2743283\"],\
    \"linkTtlSeconds\":3600,\
    \"endpoint\":\"http://127.0.0.1:8080/delta-sharing\"}";

const STORED: &str = "share recipient table grant 0 file";

// What each of the two threads asks, over a connection each, and is told: by the formats, worked out outside. The link of the table's
// file another program signed.
static ASKED: [(&str, &str); 4] = [
    (
        "GET /delta-sharing/shares HTTP/1.1\r\n\
    Host: x\r\n\
    Authorization: Bearer abc\r\n\r\n",
        "HTTP/1.1 200 OK\r\n\
    Date: Thu, 01 Jan 1970 00:00:00 GMT\r\n\
    Content-Type: application/json; charset=utf-8\r\n\
    Content-Length: 25\r\n\r\n\
    {\"items\":[{\"name\":\"s1\"}]}",
    ),
    (
        "GET /delta-sharing/shares/s1/schemas/sc/tables/t1/version HTTP/1.1\r\n\
    Host: x\r\n\
    Authorization: Bearer abc\r\n\r\n",
        "HTTP/1.1 200 OK\r\n\
    Date: Thu, 01 Jan 1970 00:00:00 GMT\r\n\
    Delta-Table-Version: 0\r\n\
    Content-Length: 0\r\n\r\n",
    ),
    (
        "GET /delta-sharing/files/s1/sc/t1/a?b=1&e=3600000&g=1&r=r1&t=0ff11fb3bbaeefa6a0399bca8526e68e949d35e5b810cf4f364d36fceb9651aa HTTP/1.1\r\n\
    Host: x\r\n\r\n",
        "HTTP/1.1 200 OK\r\n\
    Date: Thu, 01 Jan 1970 00:00:00 GMT\r\n\
    Accept-Ranges: bytes\r\n\
    Content-Type: application/octet-stream\r\n\
    Content-Length: 10\r\n\r\n\
    0123456789",
    ),
    (
        "GET / HTTP/1.1\r\n\
    Host: x\r\n\r\n",
        "HTTP/1.1 404 Not Found\r\n\
    Date: Thu, 01 Jan 1970 00:00:00 GMT\r\n\
    Content-Type: application/json; charset=utf-8\r\n\
    Content-Length: 47\r\n\r\n\
    {\"errorCode\":\"NOT_FOUND\",\"message\":\"not found\"}",
    ),
];

const LINES: u64 = 8;

type Shared = Arc<Mutex<SharedDoor<Limited<TcpDoor>>>, Global>;

// A worker's desk. Its clock stands at 0.
type Place<R> = Desk<LockedDoor<R, Limited<TcpDoor>>, MemStore, MemClock, ()>;

// The port at which a door is opened.
fn opened_at(door: &mut TcpDoor) -> Option<u16> {
    match door.listen(0) {
        Listening::Open => door.port(),
        Listening::Failed => None,
    }
}

// A door at a free port, which gives that many connections, and the port.
fn opened(rt: &HostRuntime) -> Option<(Shared, u16)> {
    let mut door = TcpDoor::new(rt.clone().ok()?);
    let port = opened_at(&mut door)?;
    let shared = SharedDoor::new(Limited::new(door, LINES));
    match Arc::new(rt.alloc(), Mutex::new(shared)) {
        Ok(door) => Some((door, port)),
        Err(_) => None,
    }
}

fn server(alloc: Global) -> Option<Server> {
    match config_of(alloc, CONFIG) {
        Ok(config) => Some(Server::of(config)),
        Err(_) => None,
    }
}

// A desk at the door, with that place at the hub, over a store of its own.
fn desk<R: Copy>(alloc: Global, rt: R, pass: HubPass, door: &Shared) -> Option<Place<R>>
    ensures { IfSome result (λ d. d.pass ≡ Some pass) }
{
    let Ok(door) = Arc::try_clone(door) else {
        return None;
    };
    let store = stocked(alloc, STORED)?;
    Some(Desk {
        pass: Some(pass),
        door: LockedDoor::new(rt, door),
        store,
        clock: MemClock::new(Vec::new(alloc)),
        steps: Steps::new(),
        end: None,
    })
}

// How the workers at two places of a hub end. A worker goes on once another was at work beside it.
fn end_at<R: Threads + Wait + Send + Sync + Copy>(
    rt: R,
    server: &Server,
    hub: &Hub,
    places: (HubPass, HubPass),
    door: &Shared,
    gate: &HoldGate,
    desks: Vec<Place<R>>,
) -> Option<ServeEnd>
    requires empty { desks.items ≡ [] }
    requires len { vec_len desks ≡ 0 }
    requires room { 2 ≤ vec_capacity desks }
    requires first { (places.0.cell ≡ hub.now) × (places.0.holds ≡ false) }
    requires second { (places.1.cell ≡ hub.now) × (places.1.holds ≡ false) }
{
    let mut desks = desks;
    let alloc = *desks.allocator();
    let (pass, other) = places;
    desks.push_reserved(desk(alloc, rt, pass, door)?);
    desks.push_reserved(desk(alloc, rt, other, door)?);
    Some(serve_all(&rt, alloc, hub, server, desks.as_mut_slice(), gate))
}

fn end_of<R: Threads + Wait + Send + Sync + Copy>(
    rt: R,
    alloc: Global,
    server: &Server,
    callers: Callers,
    door: &Shared,
    gate: &HoldGate,
) -> Option<ServeEnd> {
    let Ok(desks) = Vec::with_capacity(alloc, 2) else {
        return None;
    };
    let Callers { hub, pass, other } = callers;
    end_at(rt, server, &hub, (pass, other), door, gate, desks)
}

fn served<R: Threads + Wait + Send + Sync + Copy>(
    rt: R,
    alloc: Global,
    door: &Shared,
    gate: &HoldGate,
) -> Option<ServeEnd> {
    let server = server(alloc)?;
    let callers = Callers::open(alloc, &mut stocked(alloc, STORED)?)?;
    end_of(rt, alloc, &server, callers, door, gate)
}

// What is answered over a connection, to its end.
fn answer(rt: &HostRuntime, port: u16, request: &str) -> io::Result<String> {
    let mut stream = TcpStream::connect(rt, ("127.0.0.1", port))?;
    stream.write_all(request.as_bytes())?;
    stream.shutdown(Shutdown::Write)?;
    io::read_to_string(rt.alloc(), stream)
}

// Whether all is answered. It asks on where one answer is another, since the workers wait for the connections.
fn is_told(rt: &HostRuntime, port: u16) -> bool {
    let mut told = true;
    for (request, response) in &ASKED {
        told &= matches!(answer(rt, port, request), Ok(text) if text.as_str() == *response);
    }
    told
}

// How the workers end, and whether both threads were told all.
fn ended<R: Threads + Wait + Send + Sync + Copy>(
    host: &HostRuntime,
    rt: R,
    gate: &HoldGate,
) -> Option<(ServeEnd, bool)> {
    let (door, port) = opened(host)?;
    let ask = || is_told(host, port);
    let (told, end) = thread::join(
        &rt,
        || thread::join(&rt, ask, ask) == (true, true),
        || served(rt, host.alloc(), &door, gate),
    );
    Some((end?, told))
}

#[test]
fn two_workers_are_at_work_at_the_same_time(rt: HostRuntime) {
    let gate = HoldGate::new();
    let end = ServeEnd::Closed { served: LINES };
    assert!(rt; ended(&rt, &rt, &gate) == Some((end, true)));
    assert!(rt; gate.met());
}

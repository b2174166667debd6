// A listener that several threads share.
use crate::{FaultCount, Listener, Listening, Taken};
use std::alloc::Global;
use std::sync::{Arc, Mutex, Wait};

/// A listener that is opened once, whoever of those that share it asks first. It passes on the lines of the one that it
/// holds, and has a count of its own.
#[derive(Drop)]
pub struct SharedDoor<N> {
    listener: N,
    port: Option<u16>,
    faults: FaultCount,
}

impl<N> SharedDoor<N> {
    ghost use Rattle.std.specs.Prelude.{◌≡◌, None};
    ghost use Rattle.edge_core.specs.Handles.{shared_listener, shared_port};

    /// A listener that isn't open, with a count of 0.
    pub fn new(listener: N) -> SharedDoor<N>
        ensures listener { shared_listener result ≡ listener }
        ensures port { shared_port result ≡ None }
    {
        SharedDoor {
            listener,
            port: None,
            faults: FaultCount::new(),
        }
    }
}

impl<N: Listener> Listener for SharedDoor<N> {
    ghost use Rattle.std.specs.Prelude.{◌≡◌};
    ghost use Rattle.edge_core.specs.Faults.{Cause};
    ghost use Rattle.edge_core.specs.Doors.{ListensOnce, failed_listen, listens_after};
    ghost use Rattle.edge_core.specs.Handles.{fault_count, shared_listener, shared_port, shared_faults};

    type In = N::In;

    type Out = N::Out;

    ghost coming = { λ d. N.coming (shared_listener d) };

    ghost closed = { λ d. N.closed (shared_listener d) };

    ghost out = { λ d. N.out (shared_listener d) };

    ghost listens = { λ d. shared_port d };

    ghost faults = { λ d. fault_count (shared_faults d) };

    // Where it is open, nothing is done: the answer is `Open` at its port, and `Failed` at another.
    fn listen(&mut self, port: u16) -> Listening
        ensures listens { shared_port self.new ≡ listens_after (shared_port self.old) port result }
        ensures coming { N.coming (shared_listener self.new) ≡ N.coming (shared_listener self.old) }
        ensures closed { N.closed (shared_listener self.new) ≡ N.closed (shared_listener self.old) }
        ensures out { N.out (shared_listener self.new) ≡ N.out (shared_listener self.old) }
        ensures cause { Cause (fault_count (shared_faults self.old)) (fault_count (shared_faults self.new)) (failed_listen result) }
        ensures once { ListensOnce N.listens (shared_listener self.old) (shared_listener self.new) (shared_port self.old) (shared_port self.new) port result }
    {
        let listening = match self.port {
            Some(open) if open == port => Listening::Open,
            Some(_) => Listening::Failed,
            None => self.listener.listen(port),
        };
        match listening {
            Listening::Open => self.port = Some(port),
            Listening::Failed => self.faults.note(true),
        }
        listening
    }

    fn accept(&mut self) -> Taken<N::In, N::Out> {
        match self.listener.accept() {
            Taken::Line(input, output) => Taken::Line(input, output),
            Taken::End => Taken::End,
            Taken::Failed => {
                self.faults.note(true);
                Taken::Failed
            }
        }
    }

    fn close(&mut self, input: N::In, output: N::Out) {
        self.listener.close(input, output);
    }
}

/// A handle of a listener that is shared under a lock. It keeps what it waits with, and a count of the faults of its own
/// calls. It tells nothing of the lines, and may wait; `accept` waits for a line with the lock held. Its `listen` opens the
/// shared listener where no handle has opened it, and its `close` drops the line, without the lock.
#[derive(Drop)]
pub struct LockedDoor<R, N> {
    rt: R,
    shared: Arc<Mutex<SharedDoor<N>>, Global>,
    port: Option<u16>,
    out: bool,
    faults: FaultCount,
}

impl<R, N> LockedDoor<R, N> {
    /// A handle of that listener, with a count of 0 and no line out.
    pub fn new(rt: R, shared: Arc<Mutex<SharedDoor<N>>, Global>) -> LockedDoor<R, N> {
        LockedDoor {
            rt,
            shared,
            port: None,
            out: false,
            faults: FaultCount::new(),
        }
    }
}

impl<R: Wait, N: Listener> Listener for LockedDoor<R, N>
where
    N::In: Drop,
    N::Out: Drop,
{
    ghost use Rattle.std.specs.Prelude.{None};
    ghost use Rattle.edge_core.specs.Handles.{fault_count};

    type In = N::In;

    type Out = N::Out;

    ghost coming = { λ d. None };

    ghost closed = { λ d. None };

    ghost out = { λ d. d.out };

    ghost listens = { λ d. d.port };

    ghost faults = { λ d. fault_count d.faults };

    fn listen(&mut self, port: u16) -> Listening {
        let listening = self.shared.lock(&self.rt).listen(port);
        match listening {
            Listening::Open => self.port = Some(port),
            Listening::Failed => self.faults.note(true),
        }
        listening
    }

    fn accept(&mut self) -> Taken<N::In, N::Out> {
        match self.shared.lock(&self.rt).accept() {
            Taken::Line(input, output) => {
                self.out = true;
                Taken::Line(input, output)
            }
            Taken::End => Taken::End,
            Taken::Failed => {
                self.faults.note(true);
                Taken::Failed
            }
        }
    }

    fn close(&mut self, _input: N::In, _output: N::Out) {}
}

// A listener with a limit.
ghost use Rattle.std.specs.Prelude.{◌≡◌};
ghost use Rattle.edge_core.specs.Handles.{limited_listener, limited_lines};

use crate::{Listener, Listening, Taken};

/// A listener that gives so many lines of the one that it holds, and then answers `End` without asking it. It passes the
/// other's faults on.
#[derive(Drop)]
pub struct Limited<N> {
    listener: N,
    lines: u64,
}

impl<N> Limited<N> {
    /// The first `lines` lines of that listener.
    pub fn new(listener: N, lines: u64) -> Limited<N>
        ensures listener { limited_listener result ≡ listener }
        ensures lines { limited_lines result ≡ lines }
    {
        Limited { listener, lines }
    }

    /// The listener that it holds.
    pub fn into_inner(self) -> N
        ensures { result ≡ limited_listener self }
    {
        let Limited { listener, lines: _ } = self;
        listener
    }
}

impl<N: Listener> Listener for Limited<N> {
    ghost use Rattle.std.specs.Prelude.{◌≡◌, ◌≤◌, take, true, option_map};
    ghost use Rattle.std.specs.Bool.{OnTrue};
    ghost use Rattle.edge_core.specs.Faults.{Cause};
    ghost use Rattle.edge_core.specs.Lines.{closed_line, with_line};
    ghost use Rattle.edge_core.specs.Doors.{Takes, Limits, failed_listen, failed_accept, is_line};
    ghost use Rattle.edge_core.specs.Handles.{limited_listener, limited_lines};

    type In = N::In;

    type Out = N::Out;

    ghost coming = { λ d. option_map (take (limited_lines d)) (N.coming (limited_listener d)) };

    ghost closed = { λ d. N.closed (limited_listener d) };

    ghost out = { λ d. N.out (limited_listener d) };

    ghost listens = { λ d. N.listens (limited_listener d) };

    ghost faults = { λ d. N.faults (limited_listener d) };

    fn listen(&mut self, port: u16) -> Listening {
        self.listener.listen(port)
    }

    fn accept(&mut self) -> Taken<N::In, N::Out>
        ensures line { Takes N.In.left N.In.faults N.Out.holds N.Out.faults (option_map (take (limited_lines self.old)) (N.coming (limited_listener self.old))) (option_map (take (limited_lines self.new)) (N.coming (limited_listener self.new))) result }
        ensures out { OnTrue (is_line result) (N.out (limited_listener self.new) ≡ true) }
        ensures closed { N.closed (limited_listener self.new) ≡ N.closed (limited_listener self.old) }
        ensures listens { N.listens (limited_listener self.new) ≡ N.listens (limited_listener self.old) }
        ensures cause { Cause (N.faults (limited_listener self.old)) (N.faults (limited_listener self.new)) (failed_accept result) }
        ensures limits { Limits (limited_lines self.old) (limited_lines self.new) result }
    {
        if self.lines == 0 {
            return Taken::End;
        }
        match self.listener.accept() {
            Taken::Line(input, output) => {
                self.lines -= 1;
                Taken::Line(input, output)
            }
            Taken::End => Taken::End,
            Taken::Failed => Taken::Failed,
        }
    }

    fn close(&mut self, input: N::In, output: N::Out) {
        self.listener.close(input, output);
    }
}

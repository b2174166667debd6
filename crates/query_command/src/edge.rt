// The outside of the program.
use edge_core::{Clock, Gate, Sink, Source, Store};
use std::marker::Model;
use step_count::Steps;

/// The outside of the program: its input, its output, the notes on what went wrong, the store of tables, the clock, the gate, which
/// may only delay, and the steps that were counted. Contracts see what these tell.
#[derive(Drop)]
pub struct Edge<S: Source, K: Sink, M: Sink, W: Store, C: Clock, G: Gate, L> {
    pub input: S,
    pub output: K,
    pub notes: M,
    pub store: W,
    pub clock: C,
    pub gate: G,
    pub steps: Steps<L>,
}

impl<S: Source, K: Sink, M: Sink, W: Store, C: Clock, G: Gate, L> Model
    for Edge<S, K, M, W, C, G, L> {
    ghost use Rattle.query_command.specs.Outside.{Outside, outside_code};

    ghost Value = { Outside };

    ghost coded = { outside_code };

    ghost view = { λ e. record {
      left = S.left e.input;
      read_faults = S.faults e.input;
      objects = W.objects e.store;
      alone = W.alone e.store;
      store_faults = W.faults e.store;
      stored = W.stored e.store;
      held = K.holds e.output;
      write_faults = K.faults e.output;
      noted = M.holds e.notes;
      note_faults = M.faults e.notes;
      coming = C.coming e.clock;
    } };
}

// Counters of steps, at work.
ghost use Rattle.std.specs.Prelude.{◌≡◌, ◌+◌};

use step_count::Steps;

struct Reading;

// What a caller knows of its steps.
fn step_twice<L>(steps: &mut Steps<L>)
    ensures { steps.new ≡ steps.old + 2 }
{
    steps.tick();
    steps.tick();
}

#[test]
fn counts_each_step(_rt: HostRuntime) {
    let mut steps: Steps<Reading> = Steps::new();
    step_twice(&mut steps);
    let mut others: Steps<u8> = Steps::new();
    step_twice(&mut others);
}

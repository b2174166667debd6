// What looks begin with, and what callers are shown and told of each other.
use crate::script::run_script;

// Of five versions the last changes no file.
const FIVE: &str = "share recipient table grant 0 1 2 3 4";

// Version 4 is looked at with nothing at hand; then version 5 is found. The state of each look is kept, and later ones begin with it.
const KEPT: &str = "left 4: begins with nothing 0 8
files 4: files 4 5
stock 5
refresh: kept 6 1
left 4: begins with 4 0
files 4: files 4 5
left latest: begins with 4 6
files latest: files 5 6
left latest: begins with 5 0
files latest: files 5 6
left 2: begins with nothing 0 6
files 2: files 2 4
left 3: begins with 2 1
files 3: files 3 5
left 5: begins with 5 0
files 5: files 5 6";

#[test]
fn a_look_begins_with_what_is_kept(rt: HostRuntime) {
    run_script(&rt, rt.alloc(), FIVE, KEPT);
}

// A caller pins version 4, and before it looks another finds version 5. What that one kept is found then, and version 5 is shown to a
// caller that was never told of it.
const RACED: &str = "left 4: begins with nothing 0 8
change
stock 5
refresh: kept 6 1
change
left 4: begins with 4 0
files 4: files 4 5
left latest: begins with 4 6
files latest: files 5 6";

#[test]
fn a_look_finds_what_another_caller_kept(rt: HostRuntime) {
    run_script(&rt, rt.alloc(), FIVE, RACED);
}

// Of 65 states 64 are kept: the first isn't any more, once the others are looked at, each begun with the one before.
const MANY: &str = "left 0: begins with nothing 0 3
files 0: files 0 1
chain: begun 64 0
left 1: begins with 1 0
files 1: files 1 1
left 0: begins with nothing 0 3
files 0: files 0 1";

#[test]
fn the_one_used_least_recently_goes(rt: HostRuntime) {
    let words = "share recipient table grant 0 many";
    run_script(&rt, rt.alloc(), words, MANY);
}

// A table that is granted once the hub is opened, and revoked again: each caller shows what it has found or was told.
const TOLD: &str = "names: names 0 0
stock grant
found: found 1 0
meet
names: names 1 1
stock revoke
names: names 1 1
found: found 1 0
names: names 0 0
found: found 0 0
meet
names: names 0 0
found: found 0 0";

#[test]
fn a_caller_shows_what_it_found_or_was_told(rt: HostRuntime) {
    let words = "share recipient table";
    run_script(&rt, rt.alloc(), words, TOLD);
}

// Version 1 has a file of another day than the offer, whose text is no predicate.
#[test]
fn who_rests_on_no_predicate_rests_on_every_file(rt: HostRuntime) {
    let words = "share recipient table grant days day";
    run_script(&rt, rt.alloc(), words, "offer: concurrent append 1 0");
}

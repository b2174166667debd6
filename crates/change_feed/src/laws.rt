// Laws of the feed. Each function does nothing when it is called.
ghost use Rattle.change_feed.specs.Laws.{CutsJoin, LaterCommitsLeave, RangesJoin, VersionsStandAlone};

/// A law: the range of one version has the changes that came with it.
pub fn versions_stand_alone()
    ensures { VersionsStandAlone }
{}

/// A law: the changes of a range are those of its first versions and then those of the rest, wherever
/// it is parted. So they are those of its versions, one after the other.
pub fn ranges_join()
    ensures { RangesJoin }
{}

/// A law: the feed of a range of versions is the same in a longer log.
pub fn later_commits_leave()
    ensures { LaterCommitsLeave }
{}

/// A law: what is cut from the changes at a place, and what is left behind it, is all that stands there.
/// So pages, each of which begins where the one before ended, list each change once.
pub fn cuts_join()
    ensures { CutsJoin }
{}

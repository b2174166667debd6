// Laws of histories. Each function does nothing when it is called.
ghost use Rattle.share_book.specs.Laws.{EditionsRise, ForeignEntriesLeaveViews, FrontsAreLegal, LogsGrow, LogsHaveStates, OthersLeaveCatalogue, OthersLeaveLogs, TokensShowViews, VersionsHaveStates, ViewsAreShown};
ghost use Rattle.share_book.specs.Looks.{GlancesBecomeLooks};
ghost use Rattle.share_book.specs.Shown.{LooksAreShown, NothingFoundBeforeFirst, ShownPartsAreFound};

/// A law: as a history goes on, its logs only grow, no edition falls, and each beginning of a legal one is legal. It does nothing
/// when it is called.
pub fn histories_go_on()
    ensures logs { LogsGrow }
    ensures editions { EditionsRise }
    ensures fronts { FrontsAreLegal }
{}

/// A law: each version that a legal history keeps of a log has a state, so that the files of a version that is found are never
/// refused; it is that of the commits up to it. It does nothing when it is called.
pub fn versions_have_states()
    ensures legal { VersionsHaveStates }
    ensures logs { LogsHaveStates }
{}

/// A law: who has a Begin open finds the log, or the catalogue, as it left it, whatever others add. It does nothing when it is
/// called.
pub fn others_leave_what_is_begun()
    ensures logs { OthersLeaveLogs }
    ensures catalogue { OthersLeaveCatalogue }
{}

/// A law: a view holds no more than what it shows, and an entry that says nothing of it leaves it, whether its recipient is found by
/// name or by token. It does nothing when it is called.
pub fn foreign_entries_leave_views()
    ensures shown { ViewsAreShown }
    ensures entries { ForeignEntriesLeaveViews }
    // A token finds who holds it now, and one that was rotated away finds nobody.
    ensures tokens { TokensShowViews }
{}

/// A law: what a turn gives, with the files that its commits make, is the look. It does nothing when it is called.
pub fn glances_become_looks()
    ensures { GlancesBecomeLooks }
{}

/// A law: what is found of whole logs, as it is shown, is what is found of the recipient's view, and no version before the first that
/// is shared. It does nothing when it is called.
pub fn what_is_shown_is_seen()
    ensures parts { ShownPartsAreFound }
    ensures looks { LooksAreShown }
    ensures first { NothingFoundBeforeFirst }
{}

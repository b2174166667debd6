// Laws of the catalogue. Each function does nothing when it is called.
ghost use Rattle.share_catalog.specs.Laws.{ComesBackEmpty, CountedIsNeverFull, EditionsRise, GrantsAgain, LeavesOthers, LeavesShares};
ghost use Rattle.share_catalog.specs.ViewLaws.{BindingsAreListed, BindingsAreShown, EditsLeaveViews, GrantsAreListed, GrantsAreShown, HoldersAreFound, TablesAreJoined, TablesAreShown, ViewsAreShown};

/// A law: a share that was dropped and made again has no bindings and no grants. It does nothing
/// when it is called.
pub fn share_comes_back_empty()
    ensures { ComesBackEmpty }
{}

/// A law: a grant that was taken back and given again has the next edition. It does nothing when it
/// is called.
pub fn grant_comes_back_later()
    ensures { GrantsAgain }
{}

/// A law: no edition falls by an edit. It does nothing when it is called.
pub fn editions_rise()
    ensures { EditionsRise }
{}

/// A law: an edit leaves what a recipient sees that it doesn't name, in shares that it doesn't name.
/// It does nothing when it is called.
pub fn others_see_the_same()
    ensures recipients { LeavesOthers }
    ensures shares { LeavesShares }
{}

/// A law: a name, a pair or a location that was counted before meets no limit. It does nothing when
/// it is called.
pub fn counted_is_never_full()
    ensures { CountedIsNeverFull }
{}

/// A law: the maps of grants, of bindings and of the tables that a recipient sees have at each key
/// what the edits say of it. It does nothing when it is called.
pub fn views_show_edits()
    ensures grants { GrantsAreShown }
    ensures bindings { BindingsAreShown }
    ensures tables { TablesAreShown }
{}

/// A law: what is listed is the map of it, and the bindings of each granted share, one share after
/// the other, are the tables that the recipient sees. It does nothing when it is called.
pub fn listings_are_views()
    ensures grants { GrantsAreListed }
    ensures bindings { BindingsAreListed }
    ensures tables { TablesAreJoined }
{}

/// A law: a view holds no more than what it shows, and an edit that names neither a recipient nor a
/// share that it is granted leaves the recipient's view. It does nothing when it is called.
pub fn foreign_edits_leave_views()
    ensures shown { ViewsAreShown }
    ensures edits { EditsLeaveViews }
{}

/// A law: a token finds the holder of its digest. It does nothing when it is called.
pub fn holders_are_found()
    ensures { HoldersAreFound }
{}

// Laws of calls on tables' logs, and of what they have in common with calls on the catalogue. Each function does nothing when it is
// called.
ghost use Rattle.share_hub.specs.CatalogLaws.{EditsPutOne};
ghost use Rattle.share_hub.specs.NodeCalls.{CallsAreSteps, CatalogRefreshesAreSteps, EditFaultsAreSteps, EditsAreSteps, FaultsAreSteps};
ghost use Rattle.share_hub.specs.TableLaws.{CommitsPutOne, CommitsStand, LoadsAreTheStores, OffersAreCommitted, RefreshesStand, VersionsAreGivenOnce};

/// A law: what a commit's call added stands in the store at its end, whatever it answered, and whoever else writes: each commit is what
/// the object of its version's name is read as. It does nothing when it is called.
pub fn commits_stand()
    ensures { CommitsStand }
{}

/// A law: so does what a refresh of a table's log added. It does nothing when it is called.
pub fn refreshes_stand()
    ensures { RefreshesStand }
{}

/// A law: each log that an edit or a refresh of the catalogue added is what its location has in the store at a moment of the call. It
/// does nothing when it is called.
pub fn loads_are_the_stores()
    ensures { LoadsAreTheStores }
{}

/// A law: a commit's call leaves a store that nobody else writes as it was, or with one object more, under the next version's name; and
/// an edit's call as it was, or with the edit's record more, under the next number. It does nothing when it is called.
pub fn calls_put_at_most_one()
    ensures commits { CommitsPutOne }
    ensures edits { EditsPutOne }
{}

/// A law: of two commits' calls, one after the other, at whatever servers over one store, none acknowledges the other's version. It does
/// nothing when it is called.
pub fn versions_are_given_once()
    ensures { VersionsAreGivenOnce }
{}

/// A law: where the log that a commit's Begin found isn't blocked, admits the offer and has room for it, the store has no further
/// version, nobody else writes it and it doesn't fail, the answer is the next version; or memory was wanting, and nothing was stored.
/// It does nothing when it is called.
pub fn offers_are_committed()
    ensures { OffersAreCommitted }
{}

/// A law: a commit's call is what a node does of several servers over one store. It takes over what others have placed; with `Ok` it then
/// places one commit, publishes and acknowledges it, and with another answer it does no more; after a fault a store that nobody else
/// writes has perhaps what a node placed that takes no further step. So is an edit's call, over the catalogue, and a refresh of the
/// catalogue takes over what others have placed. It does nothing when it is called.
pub fn calls_are_steps()
    ensures calls { CallsAreSteps }
    ensures faults { FaultsAreSteps }
    ensures edits { EditsAreSteps }
    ensures edit_faults { EditFaultsAreSteps }
    ensures refreshes { CatalogRefreshesAreSteps }
{}

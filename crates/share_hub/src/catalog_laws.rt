// Laws of calls on the catalogue. Each function does nothing when it is called.
ghost use Rattle.share_hub.specs.CatalogLaws.{CatalogRefreshesStand, EditsAreRecorded, EditsStand, NamesArePutOnce, NumbersAreGivenOnce, OpensFindAll, StoppedServersLoseNothing};

/// A law: what an edit's call added stands in the store at its end, whatever it answered, and whoever else writes: each edit is that of
/// the record of its number. It does nothing when it is called.
pub fn edits_stand()
    ensures { EditsStand }
{}

/// A law: so does what a refresh of the catalogue added. It does nothing when it is called.
pub fn catalog_refreshes_stand()
    ensures { CatalogRefreshesStand }
{}

/// A law: the catalogue of a hub that was opened begins with all edits that the store has the records of. It does nothing when it is
/// called.
pub fn opens_find_all()
    ensures { OpensFindAll }
{}

/// A law: where a store had the records of edits, or objects that stand for a log, a hub that is opened over it later finds each edit at
/// its number, and each log that it loads there begins with that log, whatever the store got since. It does nothing when it is called.
pub fn stopped_servers_lose_nothing()
    ensures { StoppedServersLoseNothing }
{}

/// A law: where the catalogue doesn't refuse an edit after those that the call's Begin found, the store has no further record, nobody else
/// writes it and it doesn't fail, the answer is the next number; or memory was wanting, and nothing was stored. It does nothing when
/// it is called.
pub fn edits_are_recorded()
    ensures { EditsAreRecorded }
{}

/// A law: no name is put twice in one store, one after the other, whatever the bytes, and by whatever servers; so no number of a record
/// is acknowledged twice. It does nothing when it is called.
pub fn names_are_put_once()
    ensures names { NamesArePutOnce }
    ensures numbers { NumbersAreGivenOnce }
{}

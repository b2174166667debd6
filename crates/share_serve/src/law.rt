// Laws of sessions. None of these functions does anything when it is called.
ghost use Rattle.share_serve.specs.Entitled.{ChangesAreGiven, FilesAreGiven, LinksAreGiven, MetadataIsGiven, NamesAreGiven, ObjectsAreGiven, PartsAreGiven, TurnsAreGiven, TurnsGiveTheDefined, VersionsAreGiven};
ghost use Rattle.share_serve.specs.Laws.{AcknowledgementsArePuts, EndsTheSame, EqualViewsWriteTheSame, ReadsItsRequests, WritesItsResponses};
ghost use Rattle.share_serve.specs.RefusalCauses.{ChangesHaveCauses, FaultsAreTold, FilesHaveCauses, LinksHaveCauses, NamesHaveCauses, StrangersAreRefused, VersionsHaveCauses};
ghost use Rattle.share_serve.specs.Standing.{WhatIsAddedStands};
ghost use Rattle.share_serve.specs.Taken.{EditsAreTaken, OffersAreTaken};
ghost use Rattle.share_serve.specs.WholeSessions.{WholeRequestsAreAnswered};

use file_ranges::law::part_has_asked;
use http_message::law::one_reading;
use share_hub::{
    commits_stand, edits_are_recorded, edits_stand, offers_are_committed, refreshes_stand,
};

/// A law: what requests leave written is their responses in order, and the points at which they are answered are beginnings of one
/// history, each of the next, none before what the pass had seen.
pub fn writes_its_responses()
    ensures { WritesItsResponses }
{}

/// A law: the requests that are answered are the first messages of the bytes, none left out and none twice.
pub fn reads_its_requests()
    ensures { ReadsItsRequests }
{}

/// A law: over the requests that are answered the store stores a put for each commit and each edit that is answered with 200, and none
/// besides. So no two acknowledgements rest on one put, and none on a put of another, whether or not the store tells its objects.
pub fn acknowledgements_are_puts()
    ensures { AcknowledgementsArePuts }
{}

/// A law: what a session adds to the history, its own commits and edits and those that it found, stands in the history and in the store
/// at its end, whatever was answered, however it ends, and whoever else adds to either.
pub fn what_is_added_stands()
    ensures { WhatIsAddedStands }
{
    commits_stand();
    refreshes_stand();
    edits_stand();
}

/// A law: a provider's offer that is admitted after the log which its call finds, where nothing else is in its way, nobody else writes
/// the store and it doesn't fail, is answered with 200 and the next version. Where memory is wanting for the response, the store has
/// what it had, or a commit as that version.
pub fn offers_are_taken()
    ensures { OffersAreTaken }
{
    offers_are_committed();
}

/// A law: so is the administrator's edit that the catalogue takes after those which its call finds: it is answered with 200 and the
/// number of the next record, or memory is wanting for the response.
pub fn edits_are_taken()
    ensures { EditsAreTaken }
{
    edits_are_recorded();
}

/// A law: whole sessions of the same bytes, moments and responses write the same, to their ends.
pub fn ends_the_same()
    ensures { EndsTheSame }
{
    one_reading();
}

/// A law of two worlds: whole sessions of the same bytes and moments, of recipients to which the same was visible, write the same,
/// links and tokens included.
pub fn equal_views_write_the_same()
    ensures { EqualViewsWriteTheSame }
{
    one_reading();
}

/// A law: where the bytes are whole requests and nothing failed, all of them are answered, each once and in order, up to the first
/// behind which the connection is closed; or the session ends for want of memory, and those before were answered.
pub fn whole_requests_are_answered()
    ensures { WholeRequestsAreAnswered }
{
    one_reading();
}

/// Laws of what a recipient is entitled to: where it has the token and its time isn't over, what is granted to it and is there is
/// answered with 200.
pub fn what_is_granted_is_given()
    // Shares, schemas and tables.
    ensures names { NamesAreGiven }
    // The version and the metadata of a table.
    ensures versions { VersionsAreGiven }
    ensures metadata { MetadataIsGiven }
    // The files of a version that are shown, and the changes of a range of a table that is shared whole, on first and on later pages.
    ensures files { FilesAreGiven }
    ensures changes { ChangesAreGiven }
    // The object that a link is answered with, or the part of it that is asked for.
    ensures links { LinksAreGiven }
{}

/// Laws: the responses of a session's turns are the defined ones, so that what is granted is given with 200, and a link's object
/// comes where the store has it: whole, or just the bytes that are asked for.
pub fn turns_give_the_defined()
    ensures turns { TurnsGiveTheDefined }
    ensures granted { TurnsAreGiven }
    ensures objects { ObjectsAreGiven }
    ensures parts { PartsAreGiven }
{
    part_has_asked();
}

/// Laws of refusals: each has its cause in what the history says.
pub fn refusals_have_causes()
    // Who isn't a recipient, or whose time is over, is refused, whatever is asked.
    ensures strangers { StrangersAreRefused }
    // Of a recipient's request that is at fault the fault is told.
    ensures faults { FaultsAreTold }
    // Listings, versions and metadata, files and changes on first and on later pages, and links. Changes of a table that is shared in
    // part are refused before all else.
    ensures names { NamesHaveCauses }
    ensures versions { VersionsHaveCauses }
    ensures files { FilesHaveCauses }
    ensures changes { ChangesHaveCauses }
    ensures links { LinksHaveCauses }
{}

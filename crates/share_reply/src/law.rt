// Laws of replies. None of these functions does anything when it is called.
ghost use Rattle.share_reply.specs.Chains.{ChainsAreWhole, ChainsGiveActions, FeedChainsAreWhole};
ghost use Rattle.share_reply.specs.Laws.{EqualViewsAnswerAlike, FormatsAgree, HiddenFilesAreNotGiven, NothingBeforeFirst, RevokedGrantsGiveNothing, StaleTokensGiveNothing, UnboundTablesGiveNothing, UngrantedSharesAreAlike, UnseenTablesAreAlike};

/// A law: the pages of a chain, joined, are the files of the version that the first one was of that the predicate doesn't make false,
/// each once and in order, each with the link and the expiry of its own page's moment, whatever is committed, granted or bound
/// between its pages, and whichever workers answer them: their points are of one history, in any order.
pub fn chains_are_whole()
    ensures files { ChainsAreWhole }
    // So are those of a chain of changes: all changes of the range that the first one was of.
    ensures changes { FeedChainsAreWhole }
    // In whichever format: the actions of a chain of files are exactly the adds of the version that the first page was of, and each page
    // has the protocol and the metaData of that version.
    ensures actions { ChainsGiveActions }
{}

/// A law: where two histories show a recipient the same, the same request at the same moment has the same answer in both, with the
/// same links and tokens.
pub fn equal_views_answer_alike()
    ensures { EqualViewsAnswerAlike }
{}

/// A law: both formats agree. A request has one answer in whichever format it asks; its replies in the two are the same refusal, or lines
/// of one version, of which those in the parquet format are what stands there for those in the delta format. So all that is said of
/// answers holds of both.
pub fn formats_agree()
    ensures { FormatsAgree }
{}

/// Laws of what isn't shared.
pub fn hidden_is_like_absent()
    // A table that isn't seen has one answer, whatever is asked of it and for whatever reason it isn't.
    ensures tables { UnseenTablesAreAlike }
    // So has a share that isn't granted.
    ensures shares { UngrantedSharesAreAlike }
    // A token of another edition of the grant or of the binding never gives a line.
    ensures stale { StaleTokensGiveNothing }
{}

/// Laws of tables that are shared in part.
pub fn parts_are_kept()
    // Where the binding of a table restricts it, no file is given that the restriction doesn't show.
    ensures files { HiddenFilesAreNotGiven }
    // Of versions before the first one that the binding shares nothing is told, but by a token whose range runs backwards, which no
    // page gives.
    ensures versions { NothingBeforeFirst }
{}

/// A law: a token or a link that was given under a grant which was revoked gives no line and no byte at any later point, whether the
/// share is granted again or not.
pub fn revoked_grants_give_nothing()
    ensures { RevokedGrantsGiveNothing }
{}

/// A law: a token or a link that was given under a binding which is over, since its table was unbound or its share dropped, gives no
/// line and no byte at any later point, whether the table is bound again or not.
pub fn unbound_tables_give_nothing()
    ensures { UnboundTablesGiveNothing }
{}

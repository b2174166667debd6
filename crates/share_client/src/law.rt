// Laws of files that are fetched in pieces. The function does nothing when it is called.
ghost use Rattle.share_client.specs.Laws.{PiecesAreWhole, PiecesCover};

/// Laws: the pieces in which a file is asked for have each of its bytes once, in order, and what comes of all of them is as long as
/// the file was said to be.
pub fn pieces_are_whole()
    ensures cover { PiecesCover }
    ensures whole { PiecesAreWhole }
{}

// Laws of worlds. None of these functions does anything when it is called.
ghost use Rattle.share_core.specs.Answers.{WorldsAnswerAlike};
ghost use Rattle.share_core.specs.Laws.{PagesJoin};

/// A law: two worlds in which a recipient asks the same, at the same moments and of the same views, answer it alike, links and tokens
/// included.
pub fn worlds_answer_alike()
    ensures { WorldsAnswerAlike }
{}

/// A law: the replies to the pages of a chain in the parquet format, joined, are the lines of the files or the changes of its pages, one
/// after another.
pub fn pages_join()
    ensures { PagesJoin }
{}

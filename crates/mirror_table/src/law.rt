// Laws of the commits of mirrors. None of these functions does anything when it is called.
ghost use Rattle.mirror_table.specs.Laws.{TargetReaches, TargetSettles};

/// A law: a log, followed by the commit to a goal where there is one to make, has a state with the goal's protocol,
/// metaData and files, no others, and its txn, if the log with it is supported.
pub fn target_reaches()
    ensures { TargetReaches }
{}

/// A law: of a state with the goal's protocol, metaData, files and txn there is no commit to make.
pub fn target_settles()
    ensures { TargetSettles }
{}

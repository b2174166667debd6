// Laws of predicates. Each function does nothing when it is called.
ghost use Rattle.pred_tree.specs.Laws.{FollowsTable, JoinedListNoMore, LevelsAreDepth};
ghost use Rattle.pred_tree.specs.Laws.{NoneListsAll, NotTwiceIsSame, PruningIsSound, RestsOnNamed};
ghost use Rattle.pred_tree.specs.Laws.{ShownAreListed, ShownRestsOnNamed, ShownRowsSatisfy};

/// A law: files that hold the same at each column that a predicate names have one truth. It does
/// nothing when it is called.
pub fn rests_on_named_columns()
    ensures { RestsOnNamed }
{}

/// A law: `not` of `not` says the same. It does nothing when it is called.
pub fn not_twice_is_the_same()
    ensures { NotTwiceIsSame }
{}

/// A law: without a predicate every file is listed. It does nothing when it is called.
pub fn none_lists_all()
    ensures { NoneListsAll }
{}

/// A law: what two predicates joined by `and` list, each of the two lists. It does nothing when it
/// is called.
pub fn joined_list_no_more()
    ensures { JoinedListNoMore }
{}

/// A law: a value's type has the class that the table of value types gives its word, and none where
/// the table lacks the word. It does nothing when it is called.
pub fn classes_follow_the_table()
    ensures { FollowsTable }
{}

/// A law: a predicate is read in so many levels exactly where its tree has no more, each node and
/// leaf from the outer one counted. It does nothing when it is called.
pub fn levels_are_depth()
    ensures { LevelsAreDepth }
{}

/// A law: what a file's partition values say of a predicate is so of each of its rows. So a file that is left out has no row that
/// satisfies the predicate, where each row has in each partition column whose text is read the value that the text stands for, and the
/// predicate doesn't ask whether one is null whose text isn't read. It does nothing when it is called.
pub fn pruning_is_sound()
    ensures { PruningIsSound }
{}

/// A law: what a text shows of a table that is shared in part is listed by the same text. It does nothing when it is called.
pub fn shown_files_are_listed()
    ensures { ShownAreListed }
{}

/// A law: files that hold the same at each column that the predicate names are shown alike. It does nothing when it is called.
pub fn shown_files_rest_on_named_columns()
    ensures { ShownRestsOnNamed }
{}

/// A law: each row of a file that is shown satisfies the predicate, by what `pruning_is_sound` says of rows. It does nothing when it is
/// called.
pub fn shown_rows_satisfy()
    ensures { ShownRowsSatisfy }
{}

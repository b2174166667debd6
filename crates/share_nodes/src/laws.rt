// Laws of several servers over one store. None of these functions does anything when it is called.
ghost use Rattle.std.specs.Prelude.{List};
ghost use Rattle.log_actions.specs.declared.actions.Action.{Action};
ghost use Rattle.share_catalog.specs.declared.edit.Edit.{Edit};
ghost use Rattle.share_nodes.specs.Laws.{AcknowledgedStand};
ghost use Rattle.share_nodes.specs.StoreLaws.{HaveOneLog};

/// A law of nodes over one store's log of a table, for every list of their steps. The log is what was placed, in that order, and it only
/// grows. No node has published more than is stored. A version that was acknowledged is its node's own, stands as it was placed, and was
/// acknowledged once. A node that starts again finds all of them.
pub fn acknowledged_commits_stand()
    ensures { AcknowledgedStand (List Action) }
{}

/// The same law of nodes over one store's records of the catalogue.
pub fn acknowledged_edits_stand()
    ensures { AcknowledgedStand Edit }
{}

/// A law of nodes that get and put the objects of a table's log, for every list of their steps: gets and puts fail, puts fail and stand,
/// nodes crash, and others write what they like under each version that is absent. What a node has published is what the store has. Of
/// two nodes one has published a beginning of what the other has. What was stored stays. A version that was acknowledged is its node's
/// own, with no gap below it, and was acknowledged once. Where nobody else writes, there is no gap at all. A node that starts again and
/// reads on finds all that was acknowledged.
pub fn all_nodes_have_one_log()
    ensures { HaveOneLog (List Action) }
{}

/// The same law of nodes that get and put the records of the catalogue.
pub fn all_nodes_have_one_catalogue()
    ensures { HaveOneLog Edit }
{}

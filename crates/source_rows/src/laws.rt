//! Laws of the order of sources, and of their trees, as functions that do nothing.
ghost use Rattle.source_rows.specs.Edits.{EditLaws};
ghost use Rattle.source_rows.specs.Heights.{HeightLaws};
ghost use Rattle.source_rows.specs.Laws.{OrderLaws, PathLaws, TreeLaws};
ghost use Rattle.source_rows.specs.OwnMarks.{MarkLaws};
ghost use Rattle.source_rows.specs.TwoLevels.{LevelLaws};
ghost use Rattle.source_rows.specs.Worked.{WorkedOrders};

/// How the order changes with the rows: a new row is put into its place, and where rows go, those that are left stand as they stood.
pub fn order_changes_little()
    ensures { OrderLaws }
{}

/// What each edit keeps: rows stand in trees within their levels, with distinct ids and places, before it and after it.
pub fn edits_keep_trees()
    ensures { EditLaws }
{}

/// What the order means for trees: at two levels it is by priority, the root's number, children before their parent and
/// the own number, and at any number of levels it is the post-order of the trees. One tree has one priority.
pub fn order_is_post_order()
    ensures { TreeLaws }
{}

/// What the levels mean: under a row is what has its id and what has a parent under it, at any number of them. Where rows
/// stand at two at most, that is the row with its children, and each edit, each refusal and the order are those of rows
/// that are a root or the child of one.
pub fn levels_go_by_parents()
    ensures { LevelLaws }
{}

/// What the paths of one tree have to do with their order.
pub fn paths_stand_together()
    ensures { PathLaws }
{}

/// The orders of small trees, worked out.
pub fn worked_orders()
    ensures { WorkedOrders }
{}

/// How many seats stand above each other at most where they stand in a balanced tree.
pub fn seats_stand_low()
    ensures { HeightLaws }
{}

/// What opens a source has a mark of its own: no two cancellables that a script can name share one, and none has that of descriptors or
/// of what is always open.
pub fn marks_are_apart()
    ensures { MarkLaws }
{}

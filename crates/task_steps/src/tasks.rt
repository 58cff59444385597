//! Tasks in start order, in a tree whose nodes have a mark of the tasks on each side, so that a poll goes to those alone that wake or are cancelled.
ghost use Rattle.std.specs.Prelude.{◌≡◌, ◌<◌, ◌^◌, ◌++◌, ◌∷◌, [], IsOk, IfOk, OnOk, IfSome, IfNone, true, map};
ghost use Rattle.std.specs.List.{list_any};
ghost use Rattle.loop_script.specs.Bounds.{tick_end};
ghost use Rattle.task_steps.specs.BookInside.{entries_of, entries_below, mark_of, wake_of_all, AreMarked, IsMarked};
ghost use Rattle.task_steps.specs.Polls.{CanPollAll, HasPolledAll, NoneComes, owes_reply};
ghost use Rattle.task_steps.specs.Shown.{entry_shown};

use crate::entry::{Entry, Reply};
use crate::leaf::Leaf;
use crate::look::TaskShown;
use crate::mark::{Mark, NEVER, Round, sooner_wake};
use cancel_view::View;
use std::alloc::{AllocError, Global};
use std::mem;

/// So many tasks fill a leaf.
const LEAF: usize = 128;

/// Tasks in start order, those apart that were started last.
#[derive(Drop)]
pub(crate) struct Tasks {
    tree: Tree,
    /// The last ones. Once they fill a leaf, the tree takes them, so that all its leaves were full.
    last: Leaf,
    /// How many leaves the tree took.
    leaves: u64,
}

/// Tasks in start order. A node is as high as the logarithm of the number of the leaves that were added below it.
#[cycle(tree)]
#[derive(Drop)]
pub(crate) enum Tree {
    /// No task, or none any more.
    Gone,
    Leaf(Leaf),
    Two(Box<Sides>),
}

/// The tasks on the two sides of a node, each with its mark, so that nobody goes to a side for it.
#[cycle(tree)]
#[derive(Drop)]
pub(crate) struct Sides {
    left_mark: Mark,
    pub left: Tree,
    right_mark: Mark,
    pub right: Tree,
}

/// Where a tree of tasks stands.
#[derive(Clone, Copy)]
pub(crate) enum Place {
    /// It is all tasks, or those that stand before the last trees.
    Before,
    /// It stands within one of the trees, or is one.
    Within,
}

/// Two lists of tasks as one.
fn two(alloc: Global, left: Tree, right: Tree) -> Result<Tree, AllocError>
    requires left { IsMarked left }
    requires right { IsMarked right }
    ensures entries { IfOk result (λ t. entries_below t ≡ entries_below left ++ entries_below right) }
    ensures marked { IfOk result (λ t. IsMarked t) }
{
    let sides = Sides {
        left_mark: left.mark(),
        left,
        right_mark: right.mark(),
        right,
    };
    Ok(Tree::Two(Box::new(alloc, sides)?))
}

/// The tasks on the right side of a node, with others behind them, in that node; those others alone, where it has none there. It takes
/// no memory.
fn moved_up(mut sides: Box<Sides>, tasks: Tree) -> Tree
    requires right { IsMarked sides.value.right }
    requires mark { sides.value.right_mark ≡ mark_of (entries_below sides.value.right) }
    requires tasks { IsMarked tasks }
    ensures entries { entries_below result ≡ entries_below sides.value.right ++ entries_below tasks }
    ensures marked { IsMarked result }
{
    if sides.right.is_gone() {
        return tasks;
    }
    sides.left_mark = sides.right_mark;
    sides.right_mark = tasks.mark();
    sides.left = mem::replace(&mut sides.right, tasks);
    Tree::Two(sides)
}

impl Sides {
    /// What stands for a node of which a side has no task; none, and the node stays, where it has to stand. The last trees hang one
    /// below the other on nodes that `append` counts: such a node goes only with both of its sides.
    fn left_over(&mut self, place: Place) -> Option<Tree>
        requires left { IsMarked self.old.left }
        requires right { IsMarked self.old.right }
        ensures entries { IfSome result (λ t. entries_below t ≡ entries_below self.old.left ++ entries_below self.old.right) }
        ensures marked { IfSome result (λ t. IsMarked t) }
        ensures same { IfNone result (self.new ≡ self.old) }
    {
        match (place, self.left.is_gone(), self.right.is_gone()) {
            (_, true, true) => Some(Tree::Gone),
            (Place::Within, true, false) => Some(mem::replace(&mut self.right, Tree::Gone)),
            (Place::Within, false, true) => Some(mem::replace(&mut self.left, Tree::Gone)),
            _ => None,
        }
    }
}

impl Tree {
    /// Whether there is no task, as far as that is known without a look below.
    fn is_gone(&self) -> bool
        ensures { result ≡ true → entries_below self.now ≡ [] }
    {
        matches!(self, Tree::Gone)
    }

    /// The mark of all tasks.
    #[tactic(auto, using(crate::proofs::Marks::mark_joined))]
    pub(crate) fn mark(&self) -> Mark
        requires { IsMarked self.now }
        ensures { result ≡ mark_of (entries_below self.now) }
    {
        match self {
            Tree::Gone => Mark::of_none(),
            Tree::Leaf(leaf) => leaf.mark(),
            Tree::Two(sides) => sides.left_mark.join(sides.right_mark),
        }
    }

    /// Adds tasks at the end, with so many of the last trees under one node. Where each call adds one leaf, and takes as many
    /// trees as the number of those before it has ones at its end in binary, no tree is higher than that number's
    /// logarithm. After an error nothing is known of the tasks.
    pub(crate) fn append(
        &mut self,
        alloc: Global,
        trees: u32,
        tasks: Tree,
    ) -> Result<(), AllocError>
        requires marked { IsMarked self.old }
        requires tasks { IsMarked tasks }
        ensures entries { OnOk result (entries_below self.new ≡ entries_below self.old ++ entries_below tasks) }
        ensures marked { OnOk result (IsMarked self.new) }
    {
        match mem::replace(self, Tree::Gone) {
            Tree::Two(mut sides) if trees > 0 => {
                let mut before = mem::replace(&mut sides.left, Tree::Gone);
                before.append(alloc, trees - 1, moved_up(sides, tasks))?;
                *self = before;
            }
            before => *self = two(alloc, before, tasks)?,
        }
        Ok(())
    }

    /// Polls the tasks that wake or may be seen as cancelled, and adds their replies and late numbers. Those that end go. With the
    /// mark that is known of them no look is taken at tasks that are quiet. The answer is their new mark.
    pub(crate) fn poll(
        &mut self,
        mark: Mark,
        place: Place,
        round: Round,
        view: &View,
        replies: &mut Vec<Reply>,
        late: &mut Vec<u64>,
    ) -> Result<Mark, AllocError>
        requires known { mark ≡ mark_of (entries_below self.old) }
        requires marked { IsMarked self.old }
        requires tick { round.tick < tick_end }
        requires can { CanPollAll round.tick round.polled view.now (entries_below self.old) }
        requires came { NoneComes round.came view.now (entries_below self.old) }
        ensures polled { OnOk result (HasPolledAll round.tick round.polled view.now (entries_below self.old) (entries_below self.new) replies.old.items replies.new.items late.old.items late.new.items) }
        ensures mark { IfOk result (λ m. m ≡ mark_of (entries_below self.new)) }
        ensures marked { OnOk result (IsMarked self.new) }
        ensures none { entries_below self.old ≡ [] → IsOk result }
    {
        if mark.is_quiet(round) {
            return Ok(mark);
        }
        match self {
            Tree::Gone => Ok(mark),
            Tree::Leaf(leaf) => {
                let mark = leaf.poll_tasks(round, view, replies, late)?;
                if leaf.is_empty() {
                    *self = Tree::Gone;
                }
                Ok(mark)
            }
            Tree::Two(sides) => {
                let node = &mut **sides;
                let Sides {
                    left_mark,
                    left,
                    right_mark,
                    right,
                } = node;
                *left_mark = left.poll(*left_mark, place, round, view, replies, late)?;
                *right_mark = right.poll(*right_mark, Place::Within, round, view, replies, late)?;
                let mark = left_mark.join(*right_mark);
                if let Some(tasks) = node.left_over(place) {
                    *self = tasks;
                }
                Ok(mark)
            }
        }
    }

    /// The least wake of the tasks, by a look at each.
    #[tactic(auto, using(crate::proofs::Marks::wake_joined))]
    pub(crate) fn wake(&self) -> Option<u64>
        ensures { result ≡ wake_of_all (entries_below self.now) }
    {
        match self {
            Tree::Gone => None,
            Tree::Leaf(leaf) => leaf.wake(),
            Tree::Two(sides) => sooner_wake(sides.left.wake(), sides.right.wake()),
        }
    }

    /// Whether the next poll replies that a task is cancelled, with the mark that is known of the tasks.
    pub(crate) fn reply_next(&self, mark: Mark, view: &View) -> bool
        requires known { mark ≡ mark_of (entries_below self.now) }
        requires marked { IsMarked self.now }
        ensures { result ≡ list_any (owes_reply view.now) (entries_below self.now) }
    {
        if !mark.heeds {
            return false;
        }
        match self {
            Tree::Gone => false,
            Tree::Leaf(leaf) => leaf.reply_next(view),
            Tree::Two(sides) => {
                sides.left.reply_next(sides.left_mark, view)
                    || sides.right.reply_next(sides.right_mark, view)
            }
        }
    }
}

impl Tasks {
    /// No task.
    pub(crate) fn new(alloc: Global) -> Tasks
        ensures entries { entries_of result ≡ [] }
        ensures marked { AreMarked result }
    {
        Tasks {
            tree: Tree::Gone,
            last: Leaf::new(alloc),
            leaves: 0,
        }
    }

    /// The mark of all tasks.
    #[tactic(auto, using(crate::proofs::Marks::mark_joined))]
    pub(crate) fn mark(&self) -> Mark
        requires { AreMarked self.now }
        ensures { result ≡ mark_of (entries_of self.now) }
    {
        self.tree.mark().join(self.last.mark())
    }

    /// Lets the tree take the last tasks as a leaf, where they fill one. Those that follow have room for as many from the first on, so that
    /// none of them moves while they are added. After an error nothing is known of the tasks.
    fn make_room(&mut self, alloc: Global) -> Result<(), AllocError>
        requires { AreMarked self.old }
        ensures entries { OnOk result (entries_of self.new ≡ entries_of self.old) }
        ensures marked { OnOk result (AreMarked self.new) }
    {
        if self.last.len() < LEAF {
            return Ok(());
        }
        let next = Leaf::with_room(alloc, LEAF)?;
        let leaf = mem::replace(&mut self.last, next);
        self.tree
            .append(alloc, self.leaves.trailing_ones(), Tree::Leaf(leaf))?;
        self.leaves = self.leaves.wrapping_add(1);
        Ok(())
    }

    /// Adds a task at the end. After an error nothing is known of the tasks.
    pub(crate) fn push(&mut self, alloc: Global, entry: Entry) -> Result<(), AllocError>
        requires { AreMarked self.old }
        ensures entries { OnOk result (entries_of self.new ≡ entries_of self.old ++ entry ∷ []) }
        ensures marked { OnOk result (AreMarked self.new) }
    {
        self.make_room(alloc)?;
        self.last.push(entry)
    }

    /// Polls the tasks that wake or may be seen as cancelled, and adds their replies and late numbers. Those that end go.
    pub(crate) fn poll(
        &mut self,
        round: Round,
        view: &View,
        replies: &mut Vec<Reply>,
        late: &mut Vec<u64>,
    ) -> Result<(), AllocError>
        requires marked { AreMarked self.old }
        requires tick { round.tick < tick_end }
        requires can { CanPollAll round.tick round.polled view.now (entries_of self.old) }
        requires came { NoneComes round.came view.now (entries_of self.old) }
        ensures polled { OnOk result (HasPolledAll round.tick round.polled view.now (entries_of self.old) (entries_of self.new) replies.old.items replies.new.items late.old.items late.new.items) }
        ensures marked { OnOk result (AreMarked self.new) }
        ensures none { entries_of self.old ≡ [] → IsOk result }
    {
        let mark = self.tree.mark();
        let _ = self
            .tree
            .poll(mark, Place::Before, round, view, replies, late)?;
        let _ = self.last.poll_tasks(round, view, replies, late)?;
        Ok(())
    }

    /// The least wake of all tasks: by their marks, or by a look at each where those can't tell it from none.
    #[tactic(auto, using(crate::proofs::Marks::wake_joined))]
    pub(crate) fn wake(&self) -> Option<u64>
        requires { AreMarked self.now }
        ensures { result ≡ wake_of_all (entries_of self.now) }
    {
        let wake = self.mark().wake;
        if wake < NEVER {
            Some(u64::from(wake))
        } else {
            sooner_wake(self.tree.wake(), self.last.wake())
        }
    }

    /// Whether the next poll replies that a task is cancelled.
    pub(crate) fn reply_next(&self, view: &View) -> bool
        requires { AreMarked self.now }
        ensures { result ≡ list_any (owes_reply view.now) (entries_of self.now) }
    {
        self.tree.reply_next(self.tree.mark(), view) || self.last.reply_next(view)
    }

    /// Adds what is shown of each task, in start order.
    pub(crate) fn show(&self, list: &mut Vec<TaskShown>) -> Result<(), AllocError>
        ensures { OnOk result (list.new.items ≡ list.old.items ++ map entry_shown (entries_of self.now)) }
    {
        self.tree.show(list)?;
        self.last.show(list)
    }
}

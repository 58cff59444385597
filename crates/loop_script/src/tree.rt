//! The tree of a task: its type, which all that run it share, the calls that make each kind of part, and whether it fits into so many levels.
ghost use Rattle.std.specs.Prelude.{◌≡◌, ◌<◌, ◌≤◌, IfOk, IfSome, OnOk};
ghost use Rattle.loop_script.specs.Bounds.{longest_tick};
ghost use Rattle.loop_script.specs.Course.{IsCourse};
ghost use Rattle.loop_script.specs.TreeView.{tree_of, HasShortTimes};

use crate::course::Course;
use std::alloc::{AllocError, Global};
use std::marker::Model;
use std::sync::Arc;

/// What a task does. All that run it share it.
#[derive(Drop)]
pub struct TaskTree {
    top: Arc<Top, Global>,
}

/// A tree, and what it comes to.
#[derive(Drop)]
struct Top {
    root: Branch,
    /// What the tree comes to, where that was looked for: of a task of a script that was read.
    course: Option<Course>,
}

/// A part of a task's tree, with all that stands below it; its root is the whole.
#[cycle(tree)]
#[derive(Drop)]
pub struct Branch {
    pub node: Node,
}

/// What a part is at its top; times are in microseconds.
#[cycle(tree)]
#[derive(Drop)]
pub enum Node {
    Value(i64),
    Fail,
    Sleep(u64),
    Check,
    Seq {
        first: Arc<Branch, Global>,
        next: Arc<Branch, Global>,
    },
    Both {
        one: Arc<Branch, Global>,
        other: Arc<Branch, Global>,
    },
    First {
        one: Arc<Branch, Global>,
        other: Arc<Branch, Global>,
    },
    Within(u64, Arc<Branch, Global>),
}

impl Model for Branch {
    ghost use Rattle.loop_script.specs.Tree.{Tree, tree_code, tree_size};

    ghost Value = { Tree };

    ghost coded = { tree_code };

    ghost use Rattle.loop_script.specs.TreeView.{tree_of, HasShortTimes};

    ghost view = { λ a. tree_of a.node };

    ghost invariant = { λ a. HasShortTimes a.node };

    ghost size = { tree_size };

    ghost use Rattle.loop_script.specs.TreeFalls.{node_falls};

    ghost size_decreases = { λ a h. node_falls a.node };
}

impl Model for TaskTree {
    ghost use Rattle.loop_script.specs.Tree.{Tree, tree_code};

    ghost Value = { Tree };

    ghost coded = { tree_code };

    ghost view = { λ a. a.top.value.root };

    ghost use Rattle.loop_script.specs.Course.{IsItsCourse};

    ghost invariant = { λ a. IsItsCourse a.top.value.root a.top.value.course };
}

impl TaskTree {
    /// The tree of a root.
    pub(crate) fn new(alloc: Global, root: Branch) -> Result<TaskTree, AllocError>
        ensures { IfOk result (λ t. t ≡ root) }
    {
        let top = Top { root, course: None };
        Ok(TaskTree {
            top: Arc::new(alloc, top)?,
        })
    }

    /// The same tree: both share it, and no memory is taken. It is refused only where it has more sharers than can be counted.
    pub fn share(&self) -> Result<TaskTree, AllocError>
        ensures { IfOk result (λ t. t ≡ self.now) }
    {
        Ok(TaskTree {
            top: Arc::try_clone(&self.top)?,
        })
    }

    /// Its root.
    pub fn root(&self) -> &Branch
        ensures { result.now ≡ self.now }
    {
        let top: &Top = &self.top;
        &top.root
    }

    /// What it comes to, where `foresee` has looked.
    pub fn course(&self) -> Option<&Course>
        ensures { IfSome result (λ c. IsCourse self.now c.now) }
    {
        let top: &Top = &self.top;
        match &top.course {
            None => None,
            Some(course) => Some(course),
        }
    }

    /// Looks what it comes to, where a tick is so many microseconds long, and keeps that. It is the same tree.
    pub(crate) fn foresee(&mut self, alloc: Global, tick_us: u64) -> Result<(), AllocError>
        requires some { 0 < tick_us }
        requires short { tick_us ≤ longest_tick }
        ensures { OnOk result (self.new ≡ self.old) }
    {
        if let Some(course) = Course::of(alloc, self.root(), tick_us)? {
            let top = Top {
                root: self.root().share()?,
                course: Some(course),
            };
            self.top = Arc::new(alloc, top)?;
        }
        Ok(())
    }
}

impl Branch {
    /// The same part: both share what stands below its top, and no memory is taken. It is refused only where a part has
    /// more sharers than can be counted.
    fn share(&self) -> Result<Branch, AllocError>
        ensures { IfOk result (λ b. b ≡ self.now) }
    {
        let node = match &self.node {
            Node::Value(value) => Node::Value(*value),
            Node::Fail => Node::Fail,
            Node::Sleep(us) => Node::Sleep(*us),
            Node::Check => Node::Check,
            Node::Seq { first, next } => Node::Seq {
                first: Arc::try_clone(first)?,
                next: Arc::try_clone(next)?,
            },
            Node::Both { one, other } => Node::Both {
                one: Arc::try_clone(one)?,
                other: Arc::try_clone(other)?,
            },
            Node::First { one, other } => Node::First {
                one: Arc::try_clone(one)?,
                other: Arc::try_clone(other)?,
            },
            Node::Within(us, body) => Node::Within(*us, Arc::try_clone(body)?),
        };
        Ok(Branch { node })
    }
}

impl Branch {
    ghost use Rattle.std.specs.Prelude.{◌≤◌};
    ghost use Rattle.loop_script.specs.Bounds.{longest_time};
    ghost use Rattle.loop_script.specs.Tree.{value, fail, sleep, check, seq, both, first, within};
    ghost use Rattle.loop_script.specs.TreeDepth.{fits_in};

    /// Makes a part that ends at once with a value.
    pub(crate) fn value(n: i64) -> Branch
        ensures { result ≡ value n }
    {
        Branch {
            node: Node::Value(n),
        }
    }

    /// Makes a part that ends at once without a value.
    pub(crate) fn fail() -> Branch
        ensures { result ≡ fail }
    {
        Branch { node: Node::Fail }
    }

    /// Makes a part that ends after so many microseconds, with 0.
    pub(crate) fn sleep(us: u64) -> Branch
        requires { us ≤ longest_time }
        ensures { result ≡ sleep us }
    {
        Branch {
            node: Node::Sleep(us),
        }
    }

    /// Makes a part that ends at once: as cancelled where the task's cancellable is seen so, else with 0.
    pub(crate) fn check() -> Branch
        ensures { result ≡ check }
    {
        Branch { node: Node::Check }
    }

    /// Makes a part that does the second of two when the first has ended with a value.
    pub(crate) fn seq(alloc: Global, first: Branch, next: Branch) -> Result<Branch, AllocError>
        ensures { IfOk result (λ t. t ≡ seq first next) }
    {
        let first = Arc::new(alloc, first)?;
        let next = Arc::new(alloc, next)?;
        Ok(Branch {
            node: Node::Seq { first, next },
        })
    }

    /// Makes a part that does two at once, and ends when both have.
    pub(crate) fn both(alloc: Global, one: Branch, other: Branch) -> Result<Branch, AllocError>
        ensures { IfOk result (λ t. t ≡ both one other) }
    {
        let one = Arc::new(alloc, one)?;
        let other = Arc::new(alloc, other)?;
        Ok(Branch {
            node: Node::Both { one, other },
        })
    }

    /// Makes a part that does two at once, and ends as the one that ends sooner.
    pub(crate) fn first(alloc: Global, one: Branch, other: Branch) -> Result<Branch, AllocError>
        ensures { IfOk result (λ t. t ≡ first one other) }
    {
        let one = Arc::new(alloc, one)?;
        let other = Arc::new(alloc, other)?;
        Ok(Branch {
            node: Node::First { one, other },
        })
    }

    /// Makes a part that does another, and is timed out where that takes longer than so many microseconds.
    pub(crate) fn within(alloc: Global, us: u64, body: Branch) -> Result<Branch, AllocError>
        requires { us ≤ longest_time }
        ensures { IfOk result (λ t. t ≡ within us body) }
    {
        let body = Arc::new(alloc, body)?;
        Ok(Branch {
            node: Node::Within(us, body),
        })
    }

    /// Whether it goes so deep at most.
    #[tactic(auto, using(crate::proofs::Depth::fits_none))]
    pub(crate) fn fits(&self, levels: u8) -> bool
        ensures { result ≡ fits_in levels self.now }
    {
        if levels == 0 {
            return false;
        }
        match &self.node {
            Node::Seq { first, next } => first.fits(levels - 1) && next.fits(levels - 1),
            Node::Both { one, other } => one.fits(levels - 1) && other.fits(levels - 1),
            Node::First { one, other } => one.fits(levels - 1) && other.fits(levels - 1),
            Node::Within(_, body) => body.fits(levels - 1),
            _ => true,
        }
    }
}

//! The place of a value in a document, as steps down from its root.
use crate::tables::Name;
use std::alloc::{AllocError, Global};
use std::marker::Model;

/// A step into a value.
#[derive(Clone, Copy, Debug, PartialEq, Eq)]
pub enum Step {
    /// To what an object has under a key.
    Key(Name),
    /// To an item of a list, from 0.
    Item(usize),
}

/// A place in a document: the steps to it from the whole. Contracts see the list of the steps.
#[derive(Drop)]
pub struct Place {
    steps: Vec<Step>,
}

impl Model for Place {
    ghost use Rattle.std.specs.Prelude.{List, map};
    ghost use Rattle.script_check.specs.Found.{Step as SpecStep};
    ghost use Rattle.script_check.specs.Views.{step_of};

    ghost Value = { List SpecStep };

    ghost view = { λ a. map step_of a.steps.items };
}

impl Place {
    ghost use Rattle.std.specs.Prelude.{◌≡◌, ◌++◌, ◌∷◌, ◌-◌, [], map, take, length, IfOk, OnOk};
    ghost use Rattle.script_check.specs.Views.{step_of};

    /// The whole document.
    pub fn root(alloc: Global) -> Place
        ensures { result ≡ [] }
    {
        Place {
            steps: Vec::new(alloc),
        }
    }

    /// The place at the end of steps.
    pub(crate) fn of(alloc: Global, steps: &[Step]) -> Result<Place, AllocError>
        ensures { IfOk result (λ place. place ≡ map step_of steps.now) }
    {
        Ok(Place {
            steps: Vec::from_slice(alloc, steps)?,
        })
    }

    /// The steps, from the whole on.
    pub fn steps(&self) -> &[Step]
        ensures { map step_of result.now ≡ self.now }
    {
        self.steps.as_slice()
    }

    /// The same place in memory of its own.
    pub fn copy(&self, alloc: Global) -> Result<Place, AllocError>
        ensures { IfOk result (λ place. place ≡ self.now) }
    {
        Ok(Place {
            steps: Vec::from_slice(alloc, self.steps.as_slice())?,
        })
    }

    /// Goes a step further; where memory is refused it stays.
    pub(crate) fn enter(&mut self, step: Step) -> Result<(), AllocError>
        ensures { OnOk result (self.new ≡ self.old ++ step_of step ∷ []) }
    {
        self.steps.push(step)?;
        Ok(())
    }

    /// Goes back a step.
    pub(crate) fn leave(&mut self)
        ensures { self.new ≡ take (length self.old - 1) self.old }
    {
        let _ = self.steps.pop();
    }
}

//! A run together with what its things are called: what most calls here take.
use account::Account;
use loop_script::Script;
use run_names::RunNames;

/// A run as far as it has come, and what its things are called.
#[derive(Clone, Copy)]
pub struct Run<'a> {
    pub account: &'a Account,
    pub names: &'a RunNames,
}

/// The script of a run, and what the run's things are called.
#[derive(Clone, Copy)]
pub struct Words<'a> {
    pub script: &'a Script,
    pub names: &'a RunNames,
}

impl<'a> Run<'a> {
    /// The script and the names of the run: what is needed to put something in words.
    pub fn words(self) -> Words<'a> {
        Words {
            script: self.account.script(),
            names: self.names,
        }
    }
}

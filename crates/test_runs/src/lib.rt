//! Tests of whole runs, from the bytes of a script to what a writer takes, which `mainctx` would be proved a second time with.
#![tactic(auto)]

#[cfg(test)]
mod account_tests;
#[cfg(test)]
mod edge_tests;
#[cfg(test)]
mod expected;
#[cfg(test)]
mod gate_tests;
#[cfg(test)]
mod give_tests;
#[cfg(test)]
mod refused_tests;
#[cfg(test)]
mod script_tests;
#[cfg(test)]
mod sparse_tests;
#[cfg(test)]
mod table_tests;
#[cfg(test)]
mod worked;

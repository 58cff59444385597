//! Tests of public calls of the crates of scripts, tasks, letters and rows, which would be proved a second time with them.
#![tactic(auto)]

#[cfg(test)]
mod book_tests;
#[cfg(test)]
mod expected;
#[cfg(test)]
mod letter_tests;
#[cfg(test)]
mod oracle;
#[cfg(test)]
mod plain;
#[cfg(test)]
mod queue_tests;
#[cfg(test)]
mod read_tests;
#[cfg(test)]
mod rows_tests;
#[cfg(test)]
mod run_tests;
#[cfg(test)]
mod trees;
#[cfg(test)]
mod tried;
#[cfg(test)]
mod work_tests;

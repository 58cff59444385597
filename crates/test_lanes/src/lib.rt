//! Tests of public calls of the libraries, in a crate of their own: a crate with tests is proved a second time with them.
#![tactic(auto)]

#[cfg(test)]
mod context_tests;
#[cfg(test)]
mod expected;
#[cfg(test)]
mod hand_tests;
#[cfg(test)]
mod lane_tests;
#[cfg(test)]
mod made;
#[cfg(test)]
mod standing_tests;
#[cfg(test)]
mod step_tests;
#[cfg(test)]
mod stepper_tests;
#[cfg(test)]
mod view_tests;
#[cfg(test)]
mod watch_tests;

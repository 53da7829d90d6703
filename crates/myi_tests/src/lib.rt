//! Tests of whole runs that need code: loops over failing calls, the calls of a gate, and scripts whose sessions go side
//! by side, which may print one of several texts. Rows and vectors are lines of the programs of stored cases.
#![tactic(auto)]

#[cfg(test)]
mod failing_calls;
#[cfg(test)]
mod failing_scripts;
#[cfg(test)]
mod gates;
#[cfg(test)]
mod holding;
#[cfg(test)]
mod runs;
#[cfg(test)]
mod scripts;
#[cfg(test)]
mod sessions;

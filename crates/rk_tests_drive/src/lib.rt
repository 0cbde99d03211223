//! The tests of what runs on threads: whole drives, the queue of parcels, and the workload.
//!
//! What tests show, and no contract says, is that threads come to an end, that workers run beside each other, and that calls succeed
//! while there is memory. What is wanted was worked out apart from the code.
#![tactic(auto)]

#[cfg(test)]
mod drives;
#[cfg(test)]
mod overlap;
#[cfg(test)]
mod parcels;
#[cfg(test)]
mod workload;

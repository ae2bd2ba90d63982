//! The verifier's calls: each rule kept and broken, the line of a fault, and the order of faults; what is learned of a function; and
//! the control flow that goes with a module.
mod flows;
mod learning;
mod rules;

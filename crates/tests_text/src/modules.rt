//! Whole modules: what a text is printed as, or where it is refused and why.
mod circles;
mod constants;
mod faults;
mod names;
mod ranges;
mod shown;
mod sizes;
mod whole;

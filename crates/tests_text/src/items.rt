//! First faults of the items of a module, over small texts.
mod faults;

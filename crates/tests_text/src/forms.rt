//! The readers of forms.
mod decimals;

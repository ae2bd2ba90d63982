//! Operations on numbers and sets, over vectors worked out outside.
mod sets;
mod words;

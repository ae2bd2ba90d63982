mod blocks;
mod facts;
mod inlining;
mod needed;
mod slots;
mod walks;

//! The interpreter: frames, a machine that runs a program one step at a time, and runs with input and output (LLVM
//! Language Reference, "Introduction": what a program does is what an abstract machine does; "Instruction Reference").
//!
//! An operand is a [`Source`]: a register by its number, or a value that is known before the run. [`Task`] is an
//! instruction over sources, which needs no look-up by name, a [`CodeLine`] a task and the register that takes its result,
//! [`Exit`] a terminator, with blocks by their positions. [`Code`] is a program as the machine runs it: for each symbol
//! of a table what it is and, where it is defined, its blocks by position. A [`Machine`] holds the frames of the calls
//! that are open and the memory. Below stand `ir_tree`, `lto_bits`, `ir_meaning`, `ir_machine` and the streams of
//! `lto_outside`.
//!
//! **Promise.** What an instruction does to registers and memory that stand for a frame's locals and memory is the
//! definition's effect ([`lines_act`], [`leave`], [`resolve`]). [`Machine::step`] is one step of the definition for
//! every program that the code is of (`IsAt`, `IsStepped`). [`run`] takes each step with 0 as the answer to a free
//! choice, gives it the next byte of the input where it asks for one, and sends each byte that it writes. Where the
//! input tells what it has left, the run is that of the definition over these bytes: its ending, the bytes that were
//! sent and those that are left are the trace's. An input that tells nothing may end and then go on: then the run is
//! over all bytes that agree with what was read.
//!
//! **Cost.** A step takes the time of its instruction's own operands and bytes, a jump that of the phis of the block
//! that it leads to, a call and a return that of arguments and stack blocks: none grows with blocks, frames, variables
//! or past steps.
//!
//! **Not shown.** That memory is found: where it is refused, the machine is in the state in which it was.
#![tactic(auto)]

mod act;
mod address;
mod bits;
mod call;
mod callee;
mod code;
mod end;
mod entry;
mod exit;
mod extent;
mod frame;
mod host;
mod jump;
mod laws;
mod line;
mod machine;
mod open;
mod perform;
mod phis;
mod ran;
mod registers;
mod running;
mod slots;
mod sound;
mod source;
mod step_end;
mod task;

pub use callee::{Entity, Resolved, arguments, resolve};
pub use code::{Block, Code, Function};
pub use end::{RunEnd, RunFault};
pub use entry::enter;
pub use exit::{Case, Exit, Left, leave};
pub use frame::Frame;
pub use host::{Host, put_char};
pub use laws::lines_act;
pub use line::{CodeLine, Reached, run_line};
pub use machine::Machine;
pub use phis::{Edge, Phi};
pub use ran::Ran;
pub use registers::Registers;
pub use running::run;
pub use slots::end_slots;
pub use source::{Source, Typed};
pub use step_end::{StepEnd, StepPlace};
pub use task::{Compute, Task};

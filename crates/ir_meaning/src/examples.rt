//! Programs and operations of the profile, computed by the definitions.
ghost use Rattle.ir_meaning.specs.ExampleRuns.{ExampleRuns};
ghost use Rattle.ir_meaning.specs.Examples.{ExampleOperations};
ghost use Rattle.ir_meaning.specs.NativeRuns.{NativeRuns};

/// The operations give what the Language Reference says of its own examples, and what this profile says at the edges.
pub fn example_operations()
    ensures { ExampleOperations }
{}

/// Small programs run as they should: each cause of undefined behaviour at its place, calls, memory, phis, input and output.
pub fn example_runs()
    ensures { ExampleRuns }
{}

/// Programs over integers, branches, memory and calls write and return what native builds of their texts do.
pub fn native_runs()
    ensures { NativeRuns }
{}

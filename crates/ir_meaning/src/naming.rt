//! Laws of programs under other names for their symbols, and without some of them.
ghost use Rattle.ir_meaning.specs.Rename.{ChainUnder, EmittedRefines, KeptRefines, LinkedRefines, RenamedRefines};

/// What a program is under other names for its symbols refines it.
pub fn renamed_refines()
    ensures { RenamedRefines }
{}

/// What a program has of another under other names, where it names nothing else, refines it.
pub fn kept_refines()
    ensures { KeptRefines }
{}

/// The live part of a program under its final names refines it.
pub fn emitted_refines()
    ensures { EmittedRefines }
{}

/// Refining under some names and then under others is refining under both.
pub fn chain_under()
    ensures { ChainUnder }
{}

/// The live part of a program of better functions, under its final names, refines the program.
pub fn linked_refines()
    ensures { LinkedRefines }
{}

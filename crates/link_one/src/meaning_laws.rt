//! The laws, as functions whose contracts state them.
ghost use Rattle.link_one.specs.MeaningLaws.{CompiledRefines, ExportedIsDefined, IndexFindsDefinitions, IndexNamesReferences, LiveIsClosed, LiveIsEmitted, LiveIsKnown, LiveRefines};

/// The index of a link has a definition that prevails where the merged program defines the symbol, and says of it all that the
/// program's definition refers to.
pub fn index_names_references()
    ensures finds { IndexFindsDefinitions }
    ensures names { IndexNamesReferences }
{}

/// What is live in a link that lacks nothing is closed in the merged program, and the live definitions, each under its final
/// name, may be emitted.
pub fn live_is_emitted()
    ensures closed { LiveIsClosed }
    ensures emitted { LiveIsEmitted }
{}

/// The live definitions, each under its final name, refine the merged program from the exported names, and so does what is
/// left of better ones.
pub fn live_refines()
    ensures live { LiveRefines }
    ensures compiled { CompiledRefines }
{}

/// The live definitions can stand in one module, and each exported name is defined there.
pub fn live_is_known()
    ensures known { LiveIsKnown }
    ensures exported { ExportedIsDefined }
{}

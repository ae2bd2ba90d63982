//! The laws, as functions whose contracts state them.
ghost use Rattle.merge_meaning.specs.Laws.{DefinedPrevails, EmissionIsEmitted, EmittedInAnyOrder, EmittedRefines, FinalNamesLeadBack, ImprovedIsBetter, ImprovedIsOnce, LinkedRefinesMerged, LiveByModule, MergedIsOnce, MergedIsRunnable, NamesKeepForms, NamesKeepSoundness, OneModule, OneModuleOfAll, OutsideIsDeclared, PartsAreSound, PartsDefine, PrevailingIsDefined, TableNamesPrevailing};

/// In the merged program each symbol has the definition that prevails, and none has another (LangRef, "Linkage Types").
pub fn merged_prevails()
    ensures defined { PrevailingIsDefined }
    ensures only { DefinedPrevails }
{}

/// No symbol stands twice among what is merged, nor where functions were improved, and what is merged of modules that were
/// verified can be run (LangRef, "Linkage Types", "Well-Formedness").
pub fn merged_is_runnable()
    ensures once { MergedIsOnce }
    ensures improved { ImprovedIsOnce }
    ensures runnable { MergedIsRunnable }
{}

/// The merged program of one module is the program of its global values.
pub fn one_module()
    ensures homes { OneModule }
    ensures without_locals { OneModuleOfAll }
{}

/// The table of a resolution names for each name the module whose definition prevails (LangRef, "Linkage Types").
pub fn table_names_prevailing()
    ensures { TableNamesPrevailing }
{}

/// Under other names for symbols a sound global value is sound, and a formed one formed.
pub fn names_keep_soundness()
    ensures sound { NamesKeepSoundness }
    ensures formed { NamesKeepForms }
{}

/// The live definitions are the parts of the modules, and behind them live functions of the outside, which are declared; a part
/// has definitions alone, and those of verified modules are sound and formed.
pub fn live_by_module()
    ensures modules { LiveByModule }
    ensures definitions { PartsDefine }
    ensures sound { PartsAreSound }
    ensures outside { OutsideIsDeclared }
{}

/// A program with better functions in the places of its functions is better.
pub fn improved_is_better()
    ensures { ImprovedIsBetter }
{}

/// The live definitions in their order, each under its final name, may be emitted, and so they may in any other order.
pub fn emission_is_emitted()
    ensures in_order { EmissionIsEmitted }
    ensures any_order { EmittedInAnyOrder }
{}

/// Each live symbol is found again from its final name.
pub fn final_names_lead_back()
    ensures { FinalNamesLeadBack }
{}

/// The live definitions of an improved program under their final names refine the program.
pub fn emitted_refines()
    ensures { EmittedRefines }
{}

/// The linked program of modules refines their merged program.
pub fn linked_refines_merged()
    ensures { LinkedRefinesMerged }
{}

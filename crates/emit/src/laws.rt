//! The laws, as functions whose contracts state them.
ghost use Rattle.emit.specs.Laws.{EmissionComesFrom, EmissionIsClosed, EmissionIsOne, EmissionIsReordering, EmissionIsSound, EmissionIsWhole, ExportsAreKept, JoinIsEmission};
ghost use Rattle.emit.specs.Strips.{StrippedIsJoin};

/// Values have one linked module, and each of its values is one of them, settled, or declares a function of the outside.
pub fn emission_is_one()
    ensures one { EmissionIsOne }
    ensures from { EmissionComesFrom }
{}

/// The linked module has the kept values in another order, among them the exported ones, and these refer to one another alone.
pub fn emission_is_reordering()
    ensures roots { ExportsAreKept }
    ensures closed { EmissionIsClosed }
    ensures order { EmissionIsReordering }
{}

/// The linked module is whole, and sound where the values are (LangRef, "Well-Formedness").
pub fn emission_is_whole()
    ensures whole { EmissionIsWhole }
    ensures sound { EmissionIsSound }
{}

/// A text that is joined of the pieces of definitions is the text of their linked module.
pub fn joined_is_emission()
    ensures { JoinIsEmission }
{}

/// What is joined of the pieces that units keep is joined of all their pieces, where units offer what is exported or referred to.
pub fn stripped_is_join()
    ensures { StrippedIsJoin }
{}

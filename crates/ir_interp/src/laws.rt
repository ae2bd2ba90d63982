//! What a line does is what the definition's frame does next.
ghost use Rattle.ir_interp.specs.Lines.{LinesAct};

/// A frame whose next instruction a line stands for does next what the line did: it goes on with the
/// same values and memory, one slot more for a stack block, or breaks for the same cause.
pub fn lines_act()
    ensures { LinesAct }
{}

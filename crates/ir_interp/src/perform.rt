//! What an instruction gives over registers and memory (LangRef, "Instruction Reference").
ghost use Rattle.std.specs.Prelude.{◌≡◌, ◌≤◌, List};
ghost use Rattle.ir_tree.specs.declared.operand.Symbol.{Symbol};
ghost use Rattle.ir_machine.specs.declared.memory.Memory.{Memory};
ghost use Rattle.ir_meaning.specs.Access as access;
ghost use Rattle.ir_meaning.specs.Execute.{compares};
ghost use Rattle.ir_meaning.specs.Frame.{Locals};
ghost use Rattle.ir_meaning.specs.Memory.{Memory as MeantMemory};
ghost use Rattle.ir_meaning.specs.Operate as operate;
ghost use Rattle.ir_machine.specs.Marks.{HasWidth};
ghost use Rattle.ir_machine.specs.Meant.{answered, meant};
ghost use Rattle.ir_machine.specs.Names.{AreDistinct};
ghost use Rattle.ir_interp.specs.Locals.{AreLocals, IsKnown, IsMemory, IsValid, IsValidOutcome, source_meant};
ghost use Rattle.ir_interp.specs.Tasks.{CanCompute, IsComputeKnown, IsPerformed, IsSoundCast, compute_meant};

use crate::registers::Registers;
use crate::source::Source;
use crate::task::Compute;
use ir_machine::{Memory, Outcome, Scalar, binary, cast, compare_integers, freeze, select};
use ir_tree::{BinaryOp, CastOp, Flags, Predicate, Reg};

impl Registers {
    /// A binary operation.
    fn binary(&self, op: BinaryOp, flags: Flags, width: u8, left: Source, right: Source) -> Outcome
        requires some { 1 ≤ width }
        requires within { width ≤ 64 }
        ensures value { (names : List Symbol) (m : Memory) (memory : MeantMemory) (locals : Locals) → AreLocals names m memory self.now locals → IsKnown names m memory left → IsKnown names m memory right → answered names result ≡ operate.binary op flags width (source_meant names locals left) (source_meant names locals right) }
        ensures valid { (names : List Symbol) (m : Memory) (memory : MeantMemory) → IsValidOutcome names m memory result }
    {
        let left = self.value(left);
        let right = self.value(right);
        binary(op, flags, width, left, right)
    }

    /// A comparison; of pointers what the meaning leaves open is the free choice, modulo 2.
    fn compare(
        &self,
        memory: &Memory,
        predicate: Predicate,
        reg: Reg,
        left: Source,
        right: Source,
        choice: u64,
    ) -> Scalar
        requires { HasWidth reg }
        ensures { (names : List Symbol) (meaning : MeantMemory) (locals : Locals) → AreDistinct names → IsMemory names memory.now meaning → AreLocals names memory.now meaning self.now locals → IsKnown names memory.now meaning left → IsKnown names memory.now meaning right → (meant names result ≡ compares meaning choice predicate reg (source_meant names locals left) (source_meant names locals right)) × IsValid names memory.now meaning result }
    {
        let left = self.value(left);
        let right = self.value(right);
        match reg {
            Reg::Int(width) => compare_integers(predicate, width, left, right),
            Reg::Ptr => memory.compare_pointers(predicate, left, right, choice),
        }
    }

    /// A conversion, which of other types than integers is poison.
    fn cast(&self, op: CastOp, from: Reg, to: Reg, value: Source) -> Scalar
        requires { IsSoundCast op from to }
        ensures value { (names : List Symbol) (m : Memory) (memory : MeantMemory) (locals : Locals) → AreLocals names m memory self.now locals → IsKnown names m memory value → meant names result ≡ operate.cast op from to (source_meant names locals value) }
        ensures valid { (names : List Symbol) (m : Memory) (memory : MeantMemory) → IsValid names m memory result }
    {
        let value = self.value(value);
        match (from, to) {
            (Reg::Int(from), Reg::Int(to)) => cast(op, from, to, value),
            _ => Scalar::Poison,
        }
    }

    /// A choice between two values.
    fn select(&self, condition: Source, if_true: Source, if_false: Source) -> Scalar
        ensures { (names : List Symbol) (m : Memory) (memory : MeantMemory) (locals : Locals) → AreLocals names m memory self.now locals → IsKnown names m memory condition → IsKnown names m memory if_true → IsKnown names m memory if_false → (meant names result ≡ operate.selected (source_meant names locals condition) (source_meant names locals if_true) (source_meant names locals if_false)) × IsValid names m memory result }
    {
        let condition = self.value(condition);
        let if_true = self.value(if_true);
        let if_false = self.value(if_false);
        select(condition, if_true, if_false)
    }

    /// A value that is no poison: the free choice, modulo `2^N`, where it is none. A pointer gives poison.
    fn freeze(&self, reg: Reg, value: Source, choice: u64) -> Scalar
        requires { HasWidth reg }
        ensures value { (names : List Symbol) (m : Memory) (memory : MeantMemory) (locals : Locals) → AreLocals names m memory self.now locals → IsKnown names m memory value → meant names result ≡ operate.frozen reg choice (source_meant names locals value) }
        ensures valid { (names : List Symbol) (m : Memory) (memory : MeantMemory) → IsValid names m memory result }
    {
        let value = self.value(value);
        match reg {
            Reg::Int(width) => freeze(width, choice, value),
            Reg::Ptr => Scalar::Poison,
        }
    }

    /// A load.
    fn load(&self, memory: &Memory, reg: Reg, address: Source, align: u64) -> Outcome
        requires width { HasWidth reg }
        requires aligned { 1 ≤ align }
        ensures { (names : List Symbol) (meaning : MeantMemory) (locals : Locals) → IsMemory names memory.now meaning → AreLocals names memory.now meaning self.now locals → IsKnown names memory.now meaning address → (answered names result ≡ access.load meaning reg (source_meant names locals address) align) × IsValidOutcome names memory.now meaning result }
    {
        let address = self.value(address);
        memory.load(reg, address, align)
    }

    /// What an instruction gives: a value, undefined behaviour or a read of a byte that was never written.
    pub fn perform(&self, memory: &Memory, task: &Compute, choice: u64) -> Outcome
        requires { CanCompute task.now }
        ensures { (names : List Symbol) (meaning : MeantMemory) (locals : Locals) → AreDistinct names → IsMemory names memory.now meaning → AreLocals names memory.now meaning self.now locals → IsComputeKnown names memory.now meaning task.now → IsPerformed names memory.now meaning choice (compute_meant names locals task.now) result }
    {
        match task {
            Compute::Binary {
                op,
                flags,
                width,
                left,
                right,
            } => self.binary(*op, *flags, *width, *left, *right),
            Compute::Compare {
                predicate,
                reg,
                left,
                right,
            } => Outcome::Value(self.compare(memory, *predicate, *reg, *left, *right, choice)),
            Compute::Cast {
                op,
                from,
                to,
                value,
            } => Outcome::Value(self.cast(*op, *from, *to, *value)),
            Compute::Select {
                condition,
                if_true,
                if_false,
            } => Outcome::Value(self.select(*condition, *if_true, *if_false)),
            Compute::Freeze { reg, value } => Outcome::Value(self.freeze(*reg, *value, choice)),
            Compute::Load {
                reg,
                address,
                align,
            } => self.load(memory, *reg, *address, *align),
            Compute::Address {
                inbounds,
                shape,
                base,
                indices,
            } => Outcome::Value(self.address(*inbounds, shape, *base, indices)),
            Compute::Poison => Outcome::Value(Scalar::Poison),
        }
    }
}

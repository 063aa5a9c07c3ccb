// The faults of a grammar's rules.
use crate::ReferenceFault;
use g4_recursion::RecursionFault;
use g4_source::TakesIn;

/// Why a grammar cannot be run. The variants are in the order in which they are looked for.
#[derive(Drop)]
pub enum CheckFault {
    /// Something that its rules name is not there, or labels clash.
    Reference(ReferenceFault),
    /// How its rules call each other.
    Recursion(RecursionFault),
}

impl TakesIn<ReferenceFault> for CheckFault {
    ghost use Rattle.g4_checks.specs.declared.fault.CheckFault.TheVariants.{Reference};

    ghost fault_of = { Reference };

    fn fault_of(fault: ReferenceFault) -> Self {
        CheckFault::Reference(fault)
    }
}

impl TakesIn<RecursionFault> for CheckFault {
    ghost use Rattle.g4_checks.specs.declared.fault.CheckFault.TheVariants.{Recursion};

    ghost fault_of = { Recursion };

    fn fault_of(fault: RecursionFault) -> Self {
        CheckFault::Recursion(fault)
    }
}

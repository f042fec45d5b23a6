//! What takes the declarations of a program, one after another.

ghost use Rattle.std.specs.Prelude.{[], ◌∷◌, ◌++◌, List};
ghost use Rattle.circuit_walk.specs.Declarations.{Declared, Detector, Inclusion, IsNextDeclared};
ghost use Rattle.circuit_walk.specs.NamedRecords.{records_in};
ghost use Rattle.circuit_walk.specs.Programs.{KeptProgram};

use crate::named_records::NamedRecords;
use crate::program::Program;
use std::alloc::Allocator;

/// What takes the declarations of a program, in the order in which they are reached.
pub trait DeclarationTaker<A: Allocator + Copy> {
    // What holds of it behind these declarations of a program, where it began as it was before.
    ghost stands: { KeptProgram → Self → List Declared → Self → Type 0 };

    /// Takes the next detector, which lists these records.
    fn detector(&mut self, program: &Program<'_, A>, records: NamedRecords<'_>)
        requires next { (begun : Self) × (done : List Declared) × stands program.now begun done self.old
            × IsNextDeclared program.now.listing done (Detector (records_in records)) }
        ensures { (begun : Self) (done : List Declared) → stands program.now begun done self.old
            → IsNextDeclared program.now.listing done (Detector (records_in records.entry))
            → stands program.now begun
            (done ++ Detector (records_in records.entry) ∷ []) self.new };

    /// Takes these records, which are added to an observable next.
    fn inclusion(&mut self, program: &Program<'_, A>, observable: usize, records: NamedRecords<'_>)
        requires next { (begun : Self) × (done : List Declared) × stands program.now begun done self.old
            × IsNextDeclared program.now.listing done
            (Inclusion observable (records_in records)) }
        ensures { (begun : Self) (done : List Declared) → stands program.now begun done self.old
            → IsNextDeclared program.now.listing done
            (Inclusion observable (records_in records.entry))
            → stands program.now begun
            (done ++ Inclusion observable (records_in records.entry) ∷ []) self.new };
}

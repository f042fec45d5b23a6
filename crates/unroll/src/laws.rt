//! Laws of the programs of texts. Each is the contract of a function that does nothing.

ghost use Rattle.std.specs.Prelude.{◌≡◌, ℕ, List, Err};
ghost use Rattle.step_model.specs.declared.fault.Fault.{Fault};
ghost use Rattle.stim_parser.specs.Trees.{Tree};
ghost use Rattle.stim_parser.specs.Judged.{Writes, IsRefusedBy};
ghost use Rattle.unroll.specs.Programs.{program_in, program_of};

/// A text stands for the program of the tree that it writes; one that writes none is refused as its lines are.
pub fn texts_stand_for_trees()
    ensures program { (text : List ℕ) (tree : Tree)
        → Writes text tree
        → program_in text ≡ program_of tree }
    ensures refusal { (text : List ℕ) (fault : Fault)
        → IsRefusedBy text fault
        → program_in text ≡ Err fault }
{}

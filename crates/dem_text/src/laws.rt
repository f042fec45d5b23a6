//! Laws of error models' texts. Each is the contract of a function that does nothing.
ghost use Rattle.std.specs.Prelude.{◌≡◌, ℕ, List, Err, Ok};
ghost use Rattle.step_model.specs.declared.fault.Fault.{Fault};
ghost use Rattle.stim_lexer.specs.JudgedOnce.{AreJudgedOnce};
ghost use Rattle.dem_text.specs.Texts.{models};
ghost use Rattle.dem_text.specs.Fitting.{IsAccepted};
ghost use Rattle.dem_text.specs.Trees.{Tree};
ghost use Rattle.dem_text.specs.Judged.{Writes, IsRefusedBy};
ghost use Rattle.dem_text.specs.Models.{model_in, model_of_tree};
ghost use Rattle.step_model.specs.ErrorModels.{ErrorModel, Fits};
ghost use Rattle.step_model.specs.HitModels.{model_of};
ghost use Rattle.step_model.specs.Listing.{Listing};
ghost use Rattle.step_model.specs.WellFormed.{IsWellFormed};
ghost use Rattle.error_models.specs.ModelText.{model_text};
ghost use Rattle.dem_text.specs.Writable.{IsWritable};

/// The lines of each text make exactly one tree, or are refused by exactly one fault, and never both.
pub fn texts_are_judged_once()
    ensures { AreJudgedOnce models }
{}

/// In a tree that a text writes, each instruction has the arguments and targets that its name takes, each block has a
/// turn, and blocks are not nested too deep.
pub fn texts_write_accepted_trees()
    ensures { (text : List ℕ) (tree : Tree) → Writes text tree → IsAccepted tree }
{}

/// A text stands for the model of the tree that it writes; one that writes none is refused as its lines are.
pub fn texts_stand_for_trees()
    ensures model { (text : List ℕ) (tree : Tree)
        → Writes text tree
        → model_in text ≡ model_of_tree tree }
    ensures refusal { (text : List ℕ) (fault : Fault)
        → IsRefusedBy text fault
        → model_in text ≡ Err fault }
{}

/// The text of an error model that can be written reads as that model, and so no two such models have one text.
pub fn texts_read_back()
    ensures same { (model : ErrorModel)
        → IsWritable model
        → model_in (model_text model) ≡ Ok model }
    ensures one_model { (first second : ErrorModel)
        → IsWritable first
        → IsWritable second
        → model_text first ≡ model_text second
        → first ≡ second }
{}

/// Each error model that fits a well-formed program can be written, and so its text reads as that model; among these is
/// the model with one line for each fault that flips a target.
pub fn models_of_programs_read_back()
    ensures writable { (program : Listing) (faults : List ℕ) (model : ErrorModel)
        → IsWellFormed program
        → Fits program faults model
        → IsWritable model }
    ensures same { (program : Listing) (faults : List ℕ) (model : ErrorModel)
        → IsWellFormed program
        → Fits program faults model
        → model_in (model_text model) ≡ Ok model }
    ensures of_hits { (program : Listing)
        → IsWellFormed program
        → model_in (model_text (model_of program)) ≡ Ok (model_of program) }
{}

/// The error model that a text writes can be written, and so its own text reads as that model again.
pub fn models_of_texts_read_back()
    ensures writable { (text : List ℕ) (model : ErrorModel)
        → model_in text ≡ Ok model
        → IsWritable model }
    ensures again { (text : List ℕ) (model : ErrorModel)
        → model_in text ≡ Ok model
        → model_in (model_text model) ≡ Ok model }
{}

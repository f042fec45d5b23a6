//! Laws of circuits' texts. Each is the contract of a function that does nothing.

ghost use Rattle.std.specs.Prelude.{◌≡◌, ℕ, List};
ghost use Rattle.stim_lexer.specs.JudgedOnce.{AreJudgedOnce};
ghost use Rattle.stim_parser.specs.Texts.{circuits};
ghost use Rattle.stim_parser.specs.Circuits.{IsCircuit};
ghost use Rattle.stim_parser.specs.Trees.{Tree};
ghost use Rattle.stim_parser.specs.Judged.{items_of, Writes};
ghost use Rattle.stim_parser.specs.Written.{AreAlike, circuit_text, with_lines};

/// Each text writes exactly one tree, or is refused by exactly one fault, and never both.
pub fn texts_are_judged_once()
    ensures { AreJudgedOnce circuits }
{}

/// In a tree that a text writes, each instruction has the arguments and targets that its operation takes, each block
/// has a turn and not too many, and blocks are not nested too deep.
pub fn texts_write_circuits()
    ensures { (text : List ℕ) (tree : Tree) → Writes text tree → IsCircuit tree }
{}

/// Two trees with the same items are the same.
pub fn trees_are_told_apart()
    ensures { (t u : Tree) → items_of t ≡ items_of u → t ≡ u }
{}

/// Each tree that fits has a text that writes it, but for the numbers of its lines: these are as they stand in the text. The
/// text says all else of the tree: two trees have one text just where they are the same but for the numbers of their lines.
pub fn circuits_are_written()
    ensures written { (tree : Tree)
        → IsCircuit tree
        → Writes (circuit_text tree) (with_lines tree) }
    ensures alike { (tree : Tree) → AreAlike tree (with_lines tree) }
    ensures one_text { (t u : Tree) → AreAlike t u → circuit_text t ≡ circuit_text u }
    ensures told_apart { (t u : Tree)
        → IsCircuit t
        → IsCircuit u
        → circuit_text t ≡ circuit_text u
        → AreAlike t u }
{}

//! What holds of the images under every gate. Each function does nothing: its contract is the law, proved.
ghost use Rattle.std.specs.Prelude.{◌≡◌, ◌≢◌, ◌<◌, ◌⊎◌, ℕ, false, length};
ghost use Rattle.pauli_word.specs.States.{State};
ghost use Rattle.pauli_word.specs.Groups.{IsGroup};
ghost use Rattle.pauli_word.specs.Words.{Signed, anticommute, product};
ghost use Rattle.gate_table.specs.WordImages.{image_at, image_at_two, preimage_at, preimage_at_two};
ghost use Rattle.pauli_word.specs.declared.letter.Letter.{Letter};
ghost use Rattle.pauli_word.specs.declared.letter.Letter.TheVariants.{I};
ghost use Rattle.gate_table.specs.declared.gate.Gate.{Gate};
ghost use Rattle.gate_table.specs.Images.{arity_of, image1, image2};
ghost use Rattle.gate_table.specs.Laws.{KeepsProduct, KeepsPairProduct, KeepsClash, KeepsPairClash, IsUndoneByInverse};

/// A gate acts on one qubit or on two.
pub fn arity_is_one_or_two()
    ensures { (g : Gate) → (arity_of g ≡ 1) ⊎ (arity_of g ≡ 2) }
{}

/// The image of a product of letters is the product of their images, signs included, and so it is for pairs of letters.
pub fn images_keep_products()
    ensures letters { (g : Gate) (a b : Letter) → KeepsProduct g a b }
    ensures pairs { (g : Gate) (a b c d : Letter) → KeepsPairProduct g a b c d }
{}

/// The images of two letters, or of two pairs, anticommute exactly where the two do.
pub fn images_keep_clashes()
    ensures letters { (g : Gate) (a b : Letter) → KeepsClash g a b }
    ensures pairs { (g : Gate) (a b c d : Letter) → KeepsPairClash g a b c d }
{}

/// A gate after its inverse, or before it, leaves every letter and every pair as it is, sign included. The
/// inverse acts on as many qubits as the gate, and its inverse is the gate.
pub fn inverses_undo()
    ensures { (g : Gate) → IsUndoneByInverse g }
{}

/// The image of I is I, and that of the pair I I is I I, of sign plus.
pub fn images_keep_identity()
    ensures letter { (g : Gate) → image1 g I ≡ (I, false) }
    ensures pair { (g : Gate) → image2 g I I ≡ (I, I, false) }
{}

/// The image of a product of two words is the product of their images, signs included.
pub fn word_images_keep_products()
    ensures one { (g : Gate) (q : ℕ) (p r : Signed)
        → length p.letters ≡ length r.letters
        → q < length p.letters
        → image_at g q (product p r) ≡ product (image_at g q p) (image_at g q r) }
    ensures two { (g : Gate) (a b : ℕ) (p r : Signed)
        → length p.letters ≡ length r.letters
        → a ≢ b
        → a < length p.letters
        → b < length p.letters
        → image_at_two g a b (product p r) ≡ product (image_at_two g a b p) (image_at_two g a b r) }
{}

/// The images of two words commute exactly when the words do.
pub fn word_images_keep_commuting()
    ensures one { (g : Gate) (q : ℕ) (p r : Signed)
        → q < length p.letters
        → q < length r.letters
        → anticommute (image_at g q p).letters (image_at g q r).letters
        ≡ anticommute p.letters r.letters }
    ensures two { (g : Gate) (a b : ℕ) (p r : Signed)
        → length p.letters ≡ length r.letters
        → a ≢ b
        → a < length p.letters
        → b < length p.letters
        → anticommute (image_at_two g a b p).letters (image_at_two g a b r).letters
        ≡ anticommute p.letters r.letters }
{}

/// The image of the preimage of a word is the word, and so is the preimage of the image.
pub fn word_preimages_undo()
    ensures one { (g : Gate) (q : ℕ) (p : Signed)
        → q < length p.letters
        → image_at g q (preimage_at g q p) ≡ p }
    ensures one_back { (g : Gate) (q : ℕ) (p : Signed)
        → q < length p.letters
        → preimage_at g q (image_at g q p) ≡ p }
    ensures two { (g : Gate) (a b : ℕ) (p : Signed)
        → a ≢ b
        → a < length p.letters
        → b < length p.letters
        → image_at_two g a b (preimage_at_two g a b p) ≡ p }
    ensures two_back { (g : Gate) (a b : ℕ) (p : Signed)
        → a ≢ b
        → a < length p.letters
        → b < length p.letters
        → preimage_at_two g a b (image_at_two g a b p) ≡ p }
{}

/// A gate at any qubits of a state keeps the state's words a commutative group without minus the identity.
pub fn gates_keep_group()
    ensures one { (n : ℕ) (g : Gate) (q : ℕ) (s : State)
        → q < n
        → IsGroup n s
        → IsGroup n (λ p. s (preimage_at g q p)) }
    ensures two { (n : ℕ) (g : Gate) (a b : ℕ) (s : State)
        → a < n
        → b < n
        → a ≢ b
        → IsGroup n s
        → IsGroup n (λ p. s (preimage_at_two g a b p)) }
{}

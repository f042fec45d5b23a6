//! What holds of all Pauli words. Each function does nothing: its contract is the law, proved. The letters of a product
//! leave out its power of i, so laws of letters come with laws of powers. A collapse is the projective measurement of a
//! word inside a measurement or a reset; its coin is the outcome where that is random.
ghost use Rattle.std.specs.Prelude.{◌≡◌, Bool, false, ℕ, List, length};
ghost use Rattle.pauli_word.specs.declared.letter.Letter.{Letter};
ghost use Rattle.pauli_word.specs.Letters.{Power, one, power_product, is_minus, sign_power};
ghost use Rattle.pauli_word.specs.Parity.{exclusive_or};
ghost use Rattle.pauli_word.specs.States.{State, start_state, applied, collapsed};
ghost use Rattle.pauli_word.specs.Groups.{IsGroup, identity_word};
ghost use Rattle.pauli_word.specs.Words.{Signed, letters_product, letters_power, anticommute, product, no_letters};

/// The powers of i form a commutative group, in which the fourth power of each is 1.
pub fn powers_form_a_group()
    ensures associative { (p q r : Power)
        → power_product (power_product p q) r ≡ power_product p (power_product q r) }
    ensures commutative { (p q : Power) → power_product p q ≡ power_product q p }
    ensures identity { (p : Power) → power_product one p ≡ p }
    ensures fourth_power { (p : Power)
        → power_product p (power_product p (power_product p p)) ≡ one }
{}

/// The product of two words of one length has that length.
pub fn products_keep_length()
    ensures { (p q : List Letter) → length p ≡ length q → length (letters_product p q) ≡ length p }
{}

/// Three words of one length multiply to the same letters in either grouping, and to the same power of i.
pub fn products_associate()
    ensures letters { (p q r : List Letter)
        → letters_product (letters_product p q) r ≡ letters_product p (letters_product q r) }
    ensures powers { (p q r : List Letter)
        → length p ≡ length q
        → length q ≡ length r
        → power_product (letters_power p q) (letters_power (letters_product p q) r)
        ≡ power_product (letters_power q r) (letters_power p (letters_product q r)) }
{}

/// Multiplying by the word of letters I changes no word of its length, and brings no factor.
pub fn identity_is_neutral()
    ensures letters { (p : List Letter) → letters_product (no_letters (length p)) p ≡ p }
    ensures power { (p : List Letter) → letters_power (no_letters (length p)) p ≡ one }
{}

/// A word times itself is the identity, with the factor 1: each word is its own inverse.
pub fn words_are_their_own_inverses()
    ensures letters { (p : List Letter) → letters_product p p ≡ no_letters (length p) }
    ensures power { (p : List Letter) → letters_power p p ≡ one }
{}

/// In the other order two words multiply to the same letters, and to the other sign where they anticommute.
pub fn order_changes_the_sign()
    ensures letters { (p q : List Letter) → letters_product p q ≡ letters_product q p }
    ensures power { (p q : List Letter)
        → letters_power p q ≡ power_product (sign_power (anticommute p q)) (letters_power q p) }
{}

/// Two words commute exactly where the power of i of their product is 1 or -1, a sign.
pub fn commuting_products_are_signed()
    ensures signed { (p q : List Letter)
        → anticommute p q ≡ false
        → letters_power p q ≡ sign_power (is_minus (letters_power p q)) }
    ensures commuting { (p q : List Letter) (negative : Bool)
        → letters_power p q ≡ sign_power negative
        → anticommute p q ≡ false }
{}

/// Whether two words anticommute doesn't depend on their order. A word commutes with itself and with the
/// identity. A product anticommutes with a word exactly where one of its two factors does and the other doesn't.
pub fn anticommuting_adds_up()
    ensures symmetric { (p q : List Letter) → anticommute p q ≡ anticommute q p }
    ensures itself { (p : List Letter) → anticommute p p ≡ false }
    ensures identity { (n : ℕ) (p : List Letter) → anticommute (no_letters n) p ≡ false }
    ensures additive { (p q r : List Letter)
        → length p ≡ length q
        → anticommute (letters_product p q) r ≡ exclusive_or (anticommute p r) (anticommute q r) }
{}

/// Products of commuting words are associative and commute. The identity changes no word, and a word times itself
/// is the identity, of sign plus.
pub fn commuting_words_form_a_group()
    ensures associative { (p q r : Signed)
        → length p.letters ≡ length q.letters
        → length q.letters ≡ length r.letters
        → anticommute p.letters q.letters ≡ false
        → anticommute q.letters r.letters ≡ false
        → product (product p q) r ≡ product p (product q r) }
    ensures commutative { (p q : Signed)
        → anticommute p.letters q.letters ≡ false
        → product p q ≡ product q p }
    ensures identity { (p : Signed) → product (identity_word (length p.letters)) p ≡ p }
    ensures inverse { (p : Signed) → product p p ≡ identity_word (length p.letters) }
{}

/// The words of the state at the start form a commutative group without minus the identity: a stabilizer group.
pub fn start_is_group()
    ensures { (n : ℕ) → IsGroup n start_state }
{}

/// Applying a Pauli word, as a fault that happens or the correction of a reset does, keeps a state's words such a group.
pub fn applied_words_keep_group()
    ensures { (n : ℕ) (b : Bool) (w : List Letter) (s : State)
        → IsGroup n s
        → IsGroup n (applied b w s) }
{}

/// A collapse of any word keeps a state's words such a group, whether its outcome is decided or random.
pub fn collapses_keep_group()
    ensures { (n : ℕ) (w : List Letter) (coin : Bool) (s : State)
        → length w ≡ n
        → IsGroup n s
        → IsGroup n (collapsed w coin s) }
{}

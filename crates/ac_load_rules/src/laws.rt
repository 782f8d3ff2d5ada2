//! What holds of every text that is accepted or refused.

ghost use Rattle.std.specs.Prelude.{◌≡◌, ◌≤◌, ℕ, List, length};
ghost use Rattle.sha2.specs.Sha256.{sha256};
ghost use Rattle.ac_types.specs.Limits.{most_shelf_entries};
ghost use Rattle.ac_types.specs.Types.{Bytes, Typ};
ghost use Rattle.ac_terms.specs.Terms.{Expr};
ghost use Rattle.ac_terms.specs.Defs.{Environment};
ghost use Rattle.ac_load_rules.specs.Causes.{Cause};
ghost use Rattle.ac_load_rules.specs.Accepting.{Shelved, IsShelf, Accepted, Refuses, SameRefusal};
ghost use Rattle.ac_load_rules.specs.Ready.{IsWellLoaded};

/// A text that is accepted beside a shelf is ready to run: its entries are coherent, and its term is
/// typed over them, within the bounds of its spelling, and mentions known types alone.
pub fn accepted_ready()
    ensures { (text : Bytes) (shelf : List Shelved) (F : Environment) (e : Expr) (T : Typ) →
        IsShelf shelf → length shelf ≤ most_shelf_entries →
        Accepted sha256 text shelf F e T → IsWellLoaded F e T }
{}

/// It has one list of entries, one term and one type.
pub fn one_result()
    ensures { (digest : Bytes → Bytes) (text : Bytes) (shelf : List Shelved) →
        (F G : Environment) (e f : Expr) (T U : Typ) → Accepted digest text shelf F e T →
        Accepted digest text shelf G f U → (F ≡ G) × (e ≡ f) × (T ≡ U) }
{}

/// What is accepted isn't refused.
pub fn not_refused()
    ensures { (digest : Bytes → Bytes) (text : Bytes) (shelf : List Shelved) (part : ℕ) →
        (cause : Cause) (F : Environment) (e : Expr) (T : Typ) →
        Refuses digest text shelf part cause → Accepted digest text shelf F e T → ⊥ }
{}

/// What is refused is refused in one part and for one cause, at one place where it isn't one of syntax.
pub fn one_refusal()
    ensures { (digest : Bytes → Bytes) (text : Bytes) (shelf : List Shelved) (k n : ℕ) →
        (c d : Cause) → Refuses digest text shelf k c → Refuses digest text shelf n d →
        (k ≡ n) × SameRefusal c d }
{}

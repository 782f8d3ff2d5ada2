// Tokens are at most one version and at most one constraint.

ghost use Rattle.std.specs.Prelude.{◌≡◌, Bool, List};
ghost use Rattle.ac_types.specs.Sigs.{Atom, Range};
ghost use Rattle.ac_version.specs.declared.read.VToken.{VToken};
ghost use Rattle.ac_version.specs.VersionReading.{IsVersion, IsConstraint};
ghost use Rattle.ac_version.specs.Printing.{version_tokens, constraint_tokens};

/// Tokens are at most one version.
pub fn one_version()
    ensures { (ts : List VToken) (xs ys : List Atom) → IsVersion ts xs → IsVersion ts ys → xs ≡ ys }
{}

/// Tokens are at most one constraint.
pub fn one_constraint()
    ensures { (ts : List VToken) (rs qs : List Range) (star other : Bool) →
        IsConstraint ts rs star → IsConstraint ts qs other → (rs ≡ qs) × (star ≡ other) }
{}

/// The tokens that a version is printed by are that version.
pub fn version_read_again()
    ensures { (ts : List VToken) (xs : List Atom) → IsVersion ts xs →
        IsVersion (version_tokens xs) xs }
{}

/// The tokens that a constraint by ranges is printed by are that constraint.
pub fn constraint_read_again()
    ensures { (ts : List VToken) (rs : List Range) (star : Bool) → IsConstraint ts rs star →
        IsConstraint (constraint_tokens rs star) rs star }
{}

// A test of parts.

ghost use Rattle.std.specs.Prelude.{◌≡◌, Bool};
ghost use Rattle.ac_types.specs.ReadTypes.{typ_of};
ghost use Rattle.ac_terms.specs.Read.{home_of};
ghost use Rattle.ac_terms.specs.Parts.{Portion, OfType, OfRef, OfHome, Captured};

use ac_terms::Home;
use ac_types::{Ty, Word};

/// A test of each part of terms and packed values: of types, references and homes, and whether a
/// captured value may stand there.
pub trait Test {
    /// Whether a part passes.
    ghost passes: { Self → Portion → Bool };

    /// Whether a type passes.
    fn passes_type(&self, ty: &Ty) -> bool
        ensures { result ≡ passes self.now (OfType (typ_of ty.now)) };

    /// Whether a reference passes to a value of the definition of that number.
    fn passes_reference(&self, entry: u32, field: &Word) -> bool
        ensures { result ≡ passes self.now (OfRef entry field.now) };

    /// Whether a home passes.
    fn passes_home(&self, home: Home) -> bool
        ensures { result ≡ passes self.now (OfHome (home_of home)) };

    /// Whether a captured value may stand there.
    fn passes_captured(&self) -> bool
        ensures { result ≡ passes self.now Captured };
}

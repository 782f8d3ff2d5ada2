//! What holds of what the values of the machine stand for.

ghost use Rattle.std.specs.Prelude.{◌≡◌, ◌++◌, List, option_map, reverse};
ghost use Rattle.ac_types.specs.Types.{Typ};
ghost use Rattle.ac_terms.specs.Parts.{pattern_types};
ghost use Rattle.ac_terms.specs.Terms.{Pattern};
ghost use Rattle.ac_code.specs.Code.{Block, Code};
ghost use Rattle.ac_values.specs.Values.{MValue};
ghost use Rattle.ac_values.specs.Fits.{bound};
ghost use Rattle.ac_meaning.specs.BareReduction.{fit};
ghost use Rattle.ac_machine_meaning.specs.Stands.{stands, environment_values};
ghost use Rattle.ac_machine_meaning.specs.Valid.{Valid, ValidEnv};

/// A pattern fits a value of the machine exactly where it fits what the value stands for, and what it
/// binds in the machine stands for what it binds there.
pub fn fits_alike()
    ensures { (K : Code) (p : Pattern) (m : MValue) (G : List Typ) (es : MValue) → Valid K m →
        ValidEnv K es → fit p (stands K m) (environment_values K es G) ≡
        option_map (λ fs. environment_values K fs (reverse (pattern_types p) ++ G)) (bound p m es) }
{}

/// With more blocks behind those of the table, a value stands for what it stood for.
pub fn stands_on()
    ensures { (K L : Code) (more : List Block) (m : MValue) → L.blocks ≡ K.blocks ++ more →
        Valid K m → stands L m ≡ stands K m }
{}

//! What is read is what was marshalled; and no spelling begins another.

ghost use Rattle.std.specs.Prelude.{◌≡◌, ◌&&◌, ◌<◌, ◌^◌, ◌++◌, ℕ, Bool, false, List, length, Some, IsTrue, is_some, nat_le};
ghost use Rattle.std.specs.List.{list_all};
ghost use Rattle.ac_types.specs.Limits.{deepest_nesting};
ghost use Rattle.ac_types.specs.Types.{Bytes, Typ, has_function};
ghost use Rattle.ac_terms.specs.Terms.{Home, Main, Expr, Str, Value, VStr};
ghost use Rattle.ac_terms.specs.Defs.{Environment};
ghost use Rattle.ac_terms.specs.Names.{text_of_entry};
ghost use Rattle.ac_terms.specs.Nesting.{pattern_nesting, nesting, value_nesting};
ghost use Rattle.ac_terms.specs.Parts.{pattern_types, part_types, term_parts, value_parts, def_parts};
ghost use Rattle.ac_terms.specs.Spelling.{two_written, type_bytes, pattern_bytes, term_bytes, value_bytes, def_bytes};
ghost use Rattle.ac_terms.specs.SpelledBy as by;
ghost use Rattle.ac_terms.specs.Bounds.{fits_type, fits_pattern, fits_term, fits_value, fits_def, is_module_or_import, nests_little};
ghost use Rattle.ac_terms.specs.Tables.{is_among, numbered};
ghost use Rattle.ac_rules.specs.Views.{Mode, bare};
ghost use Rattle.ac_rules.specs.Typing.{is_home};
ghost use Rattle.ac_rules.specs.Needed.{mark_at};
ghost use Rattle.ac_rules.specs.Coherent.{IsCoherent};
ghost use Rattle.ac_rules.specs.Growth.{Grows};
ghost use Rattle.ac_meaning.specs.Worlds.{World, Made, fresh, with_crossing};
ghost use Rattle.ac_meaning.specs.Acts.{Is, Turns, Returned, At, Over, Leads};
ghost use Rattle.ac_meaning.specs.Reduction.{look, step};
ghost use Rattle.ac_meaning.specs.BareTerms.{BareValue, BStr, WStr, bare_term, bare_value};
ghost use Rattle.ac_meaning.specs.BareReduction as lean;
ghost use Rattle.ac_meaning.specs.Packing.{Brings, arrival, marshal_step, bare_marshal_step};
ghost use Rattle.ac_meaning.specs.ReadBack.{Marshals};
ghost use Rattle.ac_meaning.specs.Laws.{IsTypedProgram};
ghost use Rattle.ac_round_trip.specs.Copies.{HasNamesake, Copied};
ghost use Rattle.ac_round_trip.specs.Strings.{IsString, BringsCopy, IsData, BringsAgain, there_and_back, given_and_read, ComesBackIn, BareComesBackIn, ComesBackThere};
ghost use Rattle.ac_round_trip.specs.Beginnings.{NoneBegins};

/// Let a typed program be within the bounds of its spelling. What it marshals, in any state of its
/// run in either mode, is a value of its type within the bounds. Without brackets marshal gives the
/// same string.
pub fn marshals_a_value()
    ensures runs { (E : Environment) (e : Expr) (T : Typ) → IsTypedProgram E e T →
        IsTrue (fits_term false e) → (mode : Mode) (input : Bytes) (sends : Bool) (N : ℕ) (t : Expr)
        (z : World) → Leads (step mode N) (At e (fresh E input sends)) (At t z) →
        (U : Typ) (s : Bytes) (m : Marshals mode z t U s) → (mark : Bytes) × (v : Value) ×
        (look mode z m.home m.mark ≡ Is (VStr mark)) × (look mode z m.home m.packed ≡ Is v) ×
        IsString mode z m.home U v mark s }
    ensures bare { (mode : Mode) (z : World) (c : Home) (T : Typ) (v : Value) (mark s : Bytes) →
        IsString mode z c T v mark s → bare_marshal_step z T (WStr mark) (bare_value c v) ≡
        Turns (with_crossing (Made s) z) (BStr s) }
{}

/// What is read is what was marshalled, there and over all definitions that have come since. In any
/// home and in each mode a string brings a copy of the value of which marshal gave it. Else there
/// is no room for its definitions, or an import among them has no link, and the exception says
/// which. In a typed program's run each later state has such definitions. A copy speaks of
/// definitions of the same names. Where two of one name have texts, these are the same. Of a type
/// without functions it is without brackets the value itself, in every program that accepts it.
pub fn copy_is_read()
    ensures copied { (mode : Mode) (z : World) (c : Home) (T : Typ) (v : Value) (mark s : Bytes) →
        IsString mode z c T v mark s → (y : World) → Grows z.environment y.environment →
        (m : ℕ) × (mark_at z.environment mark ≡ Some m) × ((d : Home) →
        BringsCopy z.environment m c T v y.environment d (arrival y d T s)) }
    ensures later { (E : Environment) (e : Expr) (T : Typ) → IsTypedProgram E e T → (mode : Mode)
        (input : Bytes) (sends : Bool) (N : ℕ) (t : Expr) (z : World) →
        Leads (step mode N) (At e (fresh E input sends)) (At t z) → (u : Expr) (y : World) →
        Leads (step mode N) (At t z) (At u y) → Grows z.environment y.environment }
    ensures one_text { (E F : Environment) → Grows E F → (f : ℕ → ℕ) (j : ℕ) (a b : Bytes) →
        HasNamesake E F f j → text_of_entry E j ≡ Some a → text_of_entry F (f j) ≡ Some b → a ≡ b }
    ensures first_order { (mode : Mode) (z : World) (c : Home) (T : Typ) (v : Value)
        (mark s : Bytes) → IsString mode z c T v mark s →
        has_function (bare z.environment T) ≡ false → (y : World) → IsCoherent y.environment →
        (d : Home) (F : Environment) (copy : Mode → Value) (w : BareValue) →
        arrival y d T s ≡ Brings F copy w → (w ≡ bare_value c v) ×
        ((now : Mode) → bare_value d (copy now) ≡ bare_value c v) }
{}

/// In a home and at a type a value has at most one copy, for the numbers that definitions have
/// there.
pub fn one_copy()
    ensures { (mode : Mode) (E F : Environment) (f : ℕ → ℕ) (c d : Home) (T : Typ) (v w x : Value) →
        Copied mode E F f c v d T w → Copied mode E F f c v d T x → w ≡ x }
{}

/// Let T be a type without functions and abstract types. Where marshal gives a string, `unmarshal
/// (marshal MARK v : T) as T` gives v again, in each home. In Plain mode, or in a module, the types
/// that empty lists and missing options carry may differ. To every home of every program the string
/// brings v, but for those types, and no definition. Marshalled there at any mark, v is that string
/// again.
pub fn data_comes_back()
    ensures anywhere { (mode : Mode) (z : World) (c : Home) (T : Typ) (v : Value)
        (mark s : Bytes) → IsString mode z c T v mark s → IsData T → (y : World) →
        IsCoherent y.environment → (d : Home) → BringsAgain z.environment c v y d T s }
    ensures in_each_home { (mode : Mode) (z : World) (c : Home) (T : Typ) (v : Value)
        (mark s : Bytes) → IsString mode z c T v mark s → IsData T →
        ComesBackIn mode z c T v mark s × BareComesBackIn z c T v mark s }
    ensures there { (mode : Mode) (z : World) (T : Typ) (v : Value) (mark s : Bytes) →
        IsString mode z Main T v mark s → IsData T → (N : ℕ) →
        ComesBackThere mode N z T v mark s × Leads (lean.step N)
        (At (bare_term Main (there_and_back T mark v)) z)
        (Over (Returned (bare_value Main v) (given_and_read z s))) }
    ensures same_string { (mode : Mode) (z : World) (c : Home) (T : Typ) (v : Value)
        (mark s : Bytes) → IsString mode z c T v mark s → IsData T → (y : World) →
        IsCoherent y.environment → (d : Home) → IsTrue (is_home y.environment d) →
        (b : BringsAgain z.environment c v y d T s) (other : Bytes) →
        IsTrue (is_some (mark_at y.environment other)) → ((now : Mode) →
        marshal_step y d T (VStr other) (b.again now) ≡
        Turns (with_crossing (Made s) y) (Str s)) ×
        (bare_marshal_step y T (WStr other) (bare_value c v) ≡
        Turns (with_crossing (Made s) y) (BStr s)) }
{}

/// No spelling of a type, a pattern, a term, a packed value or a definition is a proper prefix of
/// another of its kind, whatever follows. Their types are spelled in full. Nor is a canonical text
/// of another.
pub fn none_begins()
    ensures types { (own : Bool) → NoneBegins (fits_type own) type_bytes }
    ensures patterns { NoneBegins fits_pattern pattern_bytes }
    ensures terms { (within : Bool) → NoneBegins (fits_term within) (term_bytes two_written) }
    ensures values { NoneBegins fits_value (value_bytes two_written) }
    ensures definitions { NoneBegins (λ d. is_module_or_import d && fits_def d) def_bytes }
    ensures texts { (E F : Environment) (i j : ℕ) (a b r s : Bytes) → IsCoherent E →
        IsCoherent F → text_of_entry E i ≡ Some a → text_of_entry F j ≡ Some b →
        a ++ r ≡ b ++ s → (a ≡ b) × (r ≡ s) }
{}

/// Likewise where each type is spelled by its number in one table: for the table's types, and for
/// what nests no deeper than a packet may.
pub fn none_begins_by_table()
    ensures types { (table : List Typ) → length table < 2 ^ 32 →
        NoneBegins (is_among table) (numbered table) }
    ensures patterns { (table : List Typ) → length table < 2 ^ 32 → NoneBegins
        (λ p. fits_pattern p && nat_le (pattern_nesting p) deepest_nesting &&
        list_all (is_among table) (pattern_types p)) (by.pattern_bytes (numbered table)) }
    ensures terms { (table : List Typ) (within : Bool) → length table < 2 ^ 32 → NoneBegins
        (λ t. fits_term within t && nat_le (nesting t) deepest_nesting &&
        list_all (is_among table) (part_types (term_parts t)))
        (by.term_bytes (numbered table) two_written) }
    ensures values { (table : List Typ) → length table < 2 ^ 32 → NoneBegins
        (λ v. fits_value v && nat_le (value_nesting v) deepest_nesting &&
        list_all (is_among table) (part_types (value_parts v)))
        (by.value_bytes (numbered table) two_written) }
    ensures definitions { (table : List Typ) → length table < 2 ^ 32 → NoneBegins
        (λ d. is_module_or_import d && fits_def d && nests_little d &&
        list_all (is_among table) (part_types (def_parts d)))
        (by.def_bytes (numbered table)) }
{}

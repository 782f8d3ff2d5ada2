//! What holds of spellings: what is read of bytes is what they spell, and the heads of parts are
//! the spelling, piece by piece.

ghost use Rattle.std.specs.Prelude.{◌≡◌, ◌↔◌, ◌≤◌, ℕ, [], ◌++◌, List, Some, flat_map, length, map, nat_le};
ghost use Rattle.std.specs.List.{list_all};
ghost use Rattle.ac_types.specs.Limits.{longest_renewed};
ghost use Rattle.ac_types.specs.Types.{Bytes, Typ};
ghost use Rattle.ac_terms.specs.Terms.{PValue};
ghost use Rattle.ac_terms.specs.Defs.{Packet};
ghost use Rattle.ac_terms.specs.Spelling.{two_written, type_bytes, value_bytes};
ghost use Rattle.ac_terms.specs.Nesting.{value_nesting};
ghost use Rattle.ac_terms.specs.Bounds.{Spells};
ghost use Rattle.ac_terms.specs.PacketReading.{packet_of};
ghost use Rattle.ac_terms.specs.Tables.{type_places, with_types, number_in, tabled_bytes_by, tabled_bytes, SpellsByTable, SpellsIn, IsTable};
ghost use Rattle.ac_terms.specs.TableReading.{any_packet_of, renewed};
ghost use Rattle.ac_terms.specs.Heads.{Head, packed_heads};

/// The packet that is read of bytes is the one that they spell, and none is read where they spell
/// none.
pub fn read_as_spelled()
    ensures { (bytes : Bytes) (p : Packet) → packet_of bytes ≡ Some p ↔ Spells bytes p }
{}

/// The heads of the parts of a type and a value, one after the other, are their bytes in a packet,
/// and nest as the value does.
pub fn heads_are_the_spelling()
    ensures bytes { (T : Typ) (v : PValue) → flat_map (λ (h : Head). h.bytes)
        (packed_heads T v) ≡ type_bytes T ++ value_bytes two_written v }
    ensures nesting { (T : Typ) (v : PValue) (k : ℕ) →
        list_all (λ (h : Head). nat_le h.nesting k) (packed_heads T v) ≡
        nat_le (value_nesting v) k }
{}

/// The packet that is read of bytes in one of the versions is the one that they spell in one of
/// them; they spell at most one, in whichever.
pub fn read_in_one_version()
    ensures read { (bytes : Bytes) (p : Packet) → any_packet_of bytes ≡ Some p ↔ SpellsIn bytes p }
    ensures one { (bytes : Bytes) (p q : Packet) → SpellsIn bytes p → SpellsIn bytes q → p ≡ q }
{}

/// A packet that is spelled with types in full is spelled with a table too, in at most
/// `longest_renewed` bytes.
pub fn also_by_table()
    ensures { (bytes : Bytes) (p : Packet) → Spells bytes p →
        SpellsByTable (tabled_bytes p) p × (length (tabled_bytes p) ≤ longest_renewed) }
{}

/// For the types of some places there is one table of distinct types, each used, the first ones in
/// order, and one list of numbers; so a packet has one spelling with a table.
pub fn one_table()
    ensures there { (Ts : List Typ) →
        IsTable (with_types [] Ts) (map (number_in (with_types [] Ts)) Ts) Ts }
    ensures only { (table : List Typ) (numbers : List ℕ) (Ts : List Typ) →
        IsTable table numbers Ts → (table ≡ with_types [] Ts) ×
        (numbers ≡ map (number_in table) Ts) }
    ensures spelling { (p : Packet) (table : List Typ) (numbers : List ℕ) →
        IsTable table numbers (type_places p) → tabled_bytes_by table p ≡ tabled_bytes p }
{}

/// A string renewed spells what it spelled, and renewing it again changes nothing.
pub fn renewing()
    ensures packet { (bytes : Bytes) → any_packet_of (renewed bytes) ≡ any_packet_of bytes }
    ensures once { (bytes : Bytes) → renewed (renewed bytes) ≡ renewed bytes }
{}

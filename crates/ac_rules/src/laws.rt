//! What holds of packets: what is accepted keeps everything, what is packed is accepted again, and
//! what an import links to rests on no entry that has arrived.

ghost use Rattle.std.specs.Prelude.{◌≡◌, ◌<◌, ℕ, false, List, ◌∷◌, ◌++◌, length, Contains, None, Some, IsTrue, is_none, nat_le};
ghost use Rattle.std.specs.List.{list_all};
ghost use Rattle.sha2.specs.Sha256.{sha256};
ghost use Rattle.ac_types.specs.Limits.{deepest_nesting};
ghost use Rattle.ac_types.specs.Types.{Bytes, Typ};
ghost use Rattle.ac_terms.specs.Terms.{PValue};
ghost use Rattle.ac_terms.specs.Defs.{Environment, Entry, Import, Packet};
ghost use Rattle.ac_terms.specs.Nesting.{value_nesting};
ghost use Rattle.ac_terms.specs.Bounds.{fits_packet, Spells};
ghost use Rattle.ac_terms.specs.Spelling.{two_written};
ghost use Rattle.ac_terms.specs.HeadsBy.{Head, next_head, type_heads, value_heads};
ghost use Rattle.ac_terms.specs.Tables.{numbered, SpellsByTable};
ghost use Rattle.ac_rules.specs.Links.{has_arrived, is_exact, linked, InPacket};
ghost use Rattle.ac_rules.specs.Coherent.{IsCoherent, mark_of};
ghost use Rattle.ac_rules.specs.Typing.{Holds};
ghost use Rattle.ac_rules.specs.Needed.{mark_at, AreNeeded, needed_by, packet_for};
ghost use Rattle.ac_rules.specs.Packets.{cause, Accepts};
ghost use Rattle.ac_rules.specs.Faults.{AString, first_fault, marshalled};
ghost use Rattle.ac_rules.specs.TabledFaults.{numbered_heads, marshalled_tabled};
ghost use Rattle.ac_rules.specs.RoundTrip.{IsPackable, IsExcused};
ghost use Rattle.ac_rules.specs.Widened.{Widens, IsKept};

/// A string spells at most one packet.
pub fn one_spelling()
    ensures { (bytes : Bytes) (p q : Packet) → Spells bytes p → Spells bytes q → p ≡ q }
{}

/// Where a packet is accepted, the definitions stay coherent; what they have more has arrived and
/// is no mark; the value is one of the type over them, and can be packed there.
pub fn arrival()
    ensures coherent { (E : Environment) (p : Packet) (T : Typ) (F : Environment) (v : PValue) →
        IsCoherent E → IsTrue (fits_packet p) → Accepts E p T F v → IsCoherent F }
    ensures longer { (E : Environment) (p : Packet) (T : Typ) (F : Environment) (v : PValue) →
        IsCoherent E → IsTrue (fits_packet p) → Accepts E p T F v → (more : Environment) ×
        (F ≡ E ++ more) × IsTrue (list_all (λ (e : Entry). has_arrived e.seen) more) ×
        IsTrue (list_all (λ (e : Entry). is_none (mark_of e)) more) }
    ensures value { (E : Environment) (p : Packet) (T : Typ) (F : Environment) (v : PValue) →
        IsCoherent E → IsTrue (fits_packet p) → Accepts E p T F v → Holds F v T }
    ensures packable { (E : Environment) (p : Packet) (T : Typ) (F : Environment) (v : PValue) →
        IsCoherent E → IsTrue (fits_packet p) → Accepts E p T F v → IsPackable F T v ×
        IsTrue (nat_le (value_nesting v) deepest_nesting) }
{}

/// What is packed is accepted where it was packed, or refused for want of room or of a link alone;
/// and a string that marshal gives of it spells its packet.
pub fn round_trip()
    ensures accepted { (E : Environment) (mark : ℕ) (T : Typ) (v : PValue) → IsCoherent E →
        IsPackable E T v → IsExcused (cause sha256 E (packet_for E mark T v) T) }
    ensures spelled { (E : Environment) (mark : Bytes) (T : Typ) (v : PValue) (s : Bytes) →
        IsCoherent E → IsPackable E T v → marshalled E mark T v ≡ AString s → (m : ℕ) ×
        (mark_at E mark ≡ Some m) × Spells s (packet_for E m T v) }
{}

/// A string that marshal gives with a table of types spells the packet of the value, which is
/// accepted where it was made, or refused for want of room or of a link alone.
pub fn tabled_round_trip()
    ensures { (E : Environment) (mark : Bytes) (T : Typ) (v : PValue) (s : Bytes) →
        IsCoherent E → IsPackable E T v → marshalled_tabled E mark T v ≡ AString s → (m : ℕ) ×
        (mark_at E mark ≡ Some m) × SpellsByTable s (packet_for E m T v) ×
        IsExcused (cause sha256 E (packet_for E m T v) T) }
{}

/// The first fault of the parts of a type and a value is the same whatever the numbers of types
/// are, and whether a type within a part belongs to the part's head or is a head of its own.
pub fn types_in_parts()
    ensures numbers { (table : List Typ) (k m n : ℕ) (T : Typ) (v : PValue) → first_fault k m n
        (type_heads (numbered table) T ++ value_heads (numbered table) two_written 1 v) ≡
        first_fault k m n (numbered_heads T v) }
    ensures heads { (k m n d : ℕ) (bs cs : Bytes) (hs : List Head) →
        first_fault k m n (next_head d (bs ++ cs) ∷ hs) ≡
        first_fault k m n (next_head d bs ∷ next_head 0 cs ∷ hs) }
{}

/// In two environments that differ in arrived entries alone an import by version of a packet links
/// to the same.
pub fn rebinding()
    ensures { (E xs ys : Environment) (i : Import) →
        IsTrue (list_all (λ (e : Entry). has_arrived e.seen) xs) →
        IsTrue (list_all (λ (e : Entry). has_arrived e.seen) ys) → is_exact i.constraint ≡ false →
        linked (E ++ xs) i InPacket ≡ linked (E ++ ys) i InPacket }
{}

/// A packet that is accepted is accepted with further own entries too, or refused for a clash or
/// for want of room alone.
pub fn rebinding_own()
    ensures { (E F : Environment) (p : Packet) (T : Typ) → Widens E F → IsCoherent E →
        IsCoherent F → IsTrue (fits_packet p) → cause sha256 E p T ≡ None →
        IsKept (cause sha256 F p T) }
{}

/// The needed entries are the least set that holds the roots and what the packet form of each
/// member speaks of, in the order of the environment.
pub fn needed_is_least()
    ensures { (E : Environment) (mark : ℕ) (roots : List ℕ) → IsCoherent E →
        ((i : ℕ) → Contains roots i → i < length E) →
        AreNeeded E mark roots (needed_by E mark roots) }
{}

//! What follows of verdicts, and of types behind a program.

ghost use Rattle.std.specs.Prelude.{◌≡◌, ◌↔◌, List, Some};
ghost use Rattle.sha2.specs.Sha256.{sha256};
ghost use Rattle.ac_types.specs.Types.{Bytes, Typ};
ghost use Rattle.ac_terms.specs.Terms.{Expr, PValue};
ghost use Rattle.ac_terms.specs.Defs.{Environment, Packet};
ghost use Rattle.ac_terms.specs.Bounds.{Spells};
ghost use Rattle.ac_syntax.specs.Trees.{TypeTree};
ghost use Rattle.ac_resolve_scopes.specs.Written.{type_in};
ghost use Rattle.ac_resolve_scopes.specs.Surfaces.{last_scope};
ghost use Rattle.ac_meaning.specs.Worlds.{Exception};
ghost use Rattle.ac_meaning.specs.Packing.{Lands, Sinks, landing};
ghost use Rattle.ac_load_rules.specs.Accepting.{Shelved};
ghost use Rattle.ac_load.specs.Loading.{Loads, SameKind};
ghost use Rattle.ac_load.specs.declared.kind.Kind.{Kind};
ghost use Rattle.ac_audit.specs.declared.verdict.AuditVerdict.{AuditVerdict};
ghost use Rattle.ac_audit.specs.declared.verdict.AuditVerdict.TheVariants.{Accepted, Format};
ghost use Rattle.ac_audit.specs.Exceptions.{exception_of};
ghost use Rattle.ac_audit.specs.FrameVerdicts.{HasVerdict, HaveVerdicts};
ghost use Rattle.ac_audit.specs.TypeTexts.{IsTypeText, RefusesType, own_scope, type_fault};

/// Each string has exactly one verdict at a type, and so each list of strings has one list of
/// verdicts. `Format` comes exactly where the string spells no packet.
pub fn one_verdict()
    ensures some { (E : Environment) (T : Typ) (s : Bytes) → (v : AuditVerdict) ×
        HasVerdict E T s v }
    ensures one { (E : Environment) (T : Typ) (s : Bytes) (a b : AuditVerdict) →
        HasVerdict E T s a → HasVerdict E T s b → a ≡ b }
    ensures lists { (E : Environment) (T : Typ) (ss : List Bytes) (a b : List AuditVerdict) →
        HaveVerdicts E T ss a → HaveVerdicts E T ss b → a ≡ b }
    ensures format { (E : Environment) (T : Typ) (s : Bytes) →
        HasVerdict E T s Format ↔ ((p : Packet) → Spells s p → ⊥) }
{}

/// A string is accepted exactly where `unmarshal` takes it over the same definitions, and each other
/// verdict names the exception that `unmarshal` raises there.
pub fn verdict_tells_unmarshal()
    ensures takes { (E : Environment) (T : Typ) (s : Bytes) →
        HasVerdict E T s Accepted ↔ ((F : Environment) × (v : PValue) × (landing E T s
        ≡ Lands F v)) }
    ensures raises { (E : Environment) (T : Typ) (s : Bytes) (v : AuditVerdict) (x : Exception) →
        HasVerdict E T s v → exception_of v ≡ Some x → landing E T s ≡ Sinks x }
{}

/// Of a program that loads, a type means behind its last definition what it means behind the own ones
/// of its entries, and is refused for the same fault.
pub fn behind_the_last()
    ensures means { (text : Bytes) (shelf : List Shelved) (E : Environment) (e : Expr) (T : Typ)
        (a : Loads text shelf E e T) (t : TypeTree) →
        type_in (last_scope sha256 a.front a.tree) t ≡ type_in (own_scope E) t }
    ensures fault { (text : Bytes) (shelf : List Shelved) (E : Environment) (e : Expr) (T : Typ)
        (a : Loads text shelf E e T) (t : TypeTree) →
        type_fault (last_scope sha256 a.front a.tree) t ≡ type_fault (own_scope E) t }
{}

/// A text is one type behind the own entries, or it is refused for one kind of cause, and not both.
pub fn one_type()
    ensures one { (E : Environment) (text : Bytes) (T U : Typ) → IsTypeText E text T →
        IsTypeText E text U → T ≡ U }
    ensures refused { (E : Environment) (text : Bytes) (a b : Kind) → RefusesType E text a →
        RefusesType E text b → SameKind a b }
    ensures not_both { (E : Environment) (text : Bytes) (T : Typ) (kind : Kind) →
        IsTypeText E text T → RefusesType E text kind → ⊥ }
{}

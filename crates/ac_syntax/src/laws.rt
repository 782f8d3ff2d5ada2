// The grammar is unambiguous: signs have at most one tree at each level. It knows each token that a
// text may have.

ghost use Rattle.std.specs.Prelude.{◌≡◌, ℕ, List};
ghost use Rattle.ac_lexer.specs.declared.tokens.TokenKind.{TokenKind};
ghost use Rattle.ac_lexer.specs.Spellings.{SpellsToken};
ghost use Rattle.ac_syntax.specs.Signs.{Sign, Other, sign_at};
ghost use Rattle.ac_syntax.specs.Trees.{TypeTree, PatTree, Tree, SigTree, ProgramTree};
ghost use Rattle.ac_syntax.specs.TypeForms.{TypeLevel, ParsesType, TypeStops};
ghost use Rattle.ac_syntax.specs.Patterns.{PatLevel, ParsesPat, PatStops};
ghost use Rattle.ac_syntax.specs.Expressions.{Level, Ending, Parses, Stops};
ghost use Rattle.ac_syntax.specs.Programs.{IsSig, IsProgram, IsModule};

/// Signs have at most one type at each level, where nothing goes on with it.
pub fn one_type()
    ensures { (l : TypeLevel) (ts r s : List Sign) (t u : TypeTree) → ParsesType l ts t r →
        ParsesType l ts u s → TypeStops l r → TypeStops l s → (t ≡ u) × (r ≡ s) }
{}

/// Signs have at most one pattern at each level, where nothing goes on with it.
pub fn one_pattern()
    ensures { (l : PatLevel) (ts r s : List Sign) (p q : PatTree) → ParsesPat l ts p r →
        ParsesPat l ts q s → PatStops l r → PatStops l s → (p ≡ q) × (r ≡ s) }
{}

/// Signs have at most one expression at each level, where nothing goes on with it.
pub fn one_expression()
    ensures { (l : Level) (j k : Ending) (ts r s : List Sign) (e f : Tree) → Parses l j ts e r →
        Parses l k ts f s → Stops l j r → Stops l k s → (e ≡ f) × (r ≡ s) }
{}

/// Signs begin with at most one signature.
pub fn one_signature()
    ensures { (ts r s : List Sign) (a b : SigTree) → IsSig ts a r → IsSig ts b s → (a ≡ b) ×
        (r ≡ s) }
{}

/// Signs are at most one program.
pub fn one_program()
    ensures { (ts : List Sign) (p q : ProgramTree) → IsProgram ts p → IsProgram ts q → p ≡ q }
{}

/// Signs are at most one module.
pub fn one_module()
    ensures { (ts : List Sign) (p q : ProgramTree) → IsModule ts p → IsModule ts q → p ≡ q }
{}

/// No token of a text reads as `Other`.
pub fn no_other()
    ensures { (at n : ℕ) (bytes : List ℕ) (kind : TokenKind) → SpellsToken bytes kind →
        sign_at at kind ≡ Other n → ⊥ }
{}

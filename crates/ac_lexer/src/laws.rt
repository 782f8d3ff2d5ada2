// What holds of every text.

ghost use Rattle.std.specs.Prelude.{◌≡◌, List, ℕ};
ghost use Rattle.ac_lexer.specs.declared.tokens.Token.{Token};
ghost use Rattle.ac_lexer.specs.Tokens.{Tokens, FailsAt};

/// A text has at most one list of tokens.
pub fn same_tokens()
    ensures { (text : List ℕ) (tokens others : List Token) → Tokens text tokens
        → Tokens text others → tokens ≡ others }
{}

/// A text fails at one place at most.
pub fn one_place()
    ensures { (text : List ℕ) (at other : ℕ) → FailsAt text at → FailsAt text other → at ≡ other }
{}

/// A text that has tokens fails nowhere.
pub fn tokens_or_fault()
    ensures { (text : List ℕ) (tokens : List Token) (at : ℕ) → Tokens text tokens →
        FailsAt text at → ⊥ }
{}

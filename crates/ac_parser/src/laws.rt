// What holds of every text.

ghost use Rattle.std.specs.Prelude.{◌≡◌};
ghost use Rattle.ac_types.specs.Types.{Bytes};
ghost use Rattle.ac_syntax.specs.Trees.{ProgramTree};
ghost use Rattle.ac_syntax.specs.Programs.{IsProgram, IsModule};
ghost use Rattle.ac_syntax.specs.declared.fault.ParseFault.{ParseFault};
ghost use Rattle.ac_syntax.specs.Texts.{HasTree, Refused, SameCause};

/// A text is at most one program.
pub fn one_program_tree()
    ensures { (text : Bytes) (p q : ProgramTree) → HasTree IsProgram text p →
        HasTree IsProgram text q → p ≡ q }
{}

/// A text is at most one module.
pub fn one_module_tree()
    ensures { (text : Bytes) (p q : ProgramTree) → HasTree IsModule text p →
        HasTree IsModule text q → p ≡ q }
{}

/// A text that has a tree is not refused.
pub fn tree_or_refused()
    ensures program { (text : Bytes) (p : ProgramTree) (e : ParseFault) → HasTree IsProgram text p →
        Refused IsProgram text e → ⊥ }
    ensures module { (text : Bytes) (p : ProgramTree) (e : ParseFault) → HasTree IsModule text p →
        Refused IsModule text e → ⊥ }
{}

/// A text is refused for one cause at most, and at one place at most where it isn't a fault of
/// syntax.
pub fn one_cause()
    ensures program { (text : Bytes) (e f : ParseFault) → Refused IsProgram text e →
        Refused IsProgram text f → SameCause e f }
    ensures module { (text : Bytes) (e f : ParseFault) → Refused IsModule text e →
        Refused IsModule text f → SameCause e f }
{}

//! What holds of the machine on all code that the scheme gives.

ghost use Rattle.std.specs.Prelude.{◌≡◌, ℕ, ◌++◌, length};
ghost use Rattle.ac_types.specs.Types.{Typ};
ghost use Rattle.ac_terms.specs.Terms.{Expr, Home, Main, PValue};
ghost use Rattle.ac_terms.specs.Defs.{Environment};
ghost use Rattle.ac_code.specs.Code.{Code};
ghost use Rattle.ac_generate.specs.Generated.{entries_generated, generated, block_number, program_code, value_generated};
ghost use Rattle.ac_rules.specs.Coherent.{IsCoherent};
ghost use Rattle.ac_values.specs.Values.{MValue};
ghost use Rattle.ac_machine_engine.specs.States.{Core, MState, Run};
ghost use Rattle.ac_machine_engine.specs.Resumes as standing;
ghost use Rattle.ac_machine_engine.specs.Runs.{IsPaused, Pauses, Reaches};
ghost use Rattle.ac_meaning.specs.Worlds.{World};
ghost use Rattle.ac_meaning.specs.Acts.{Outcome, Stuck, Over, Leads};
ghost use Rattle.ac_meaning.specs.Laws.{IsTypedProgram};
ghost use Rattle.ac_machine_proof.specs.Source.{IsPacked, IsOfSource};
ghost use Rattle.ac_machine_proof.specs.Running.{Running, on, machine_step};
ghost use Rattle.ac_machine_proof.specs.Placed.{HasCode, IsPlaced};
ghost use Rattle.ac_machine_proof.specs.Alike.{program_block, RunsAlike, Compiles};

/// Over a table in which the code of coherent definitions and of a term stands, the machine ends as
/// the reduction of the term does.
pub fn machine_is_right()
    ensures { (E : Environment) (K : Code) (e : Expr) (block : ℕ) → IsCoherent E → IsPlaced E K →
        HasCode K Main e block → RunsAlike E K block e }
{}

/// In the table that the scheme makes of coherent definitions and a term of the source their code
/// stands.
pub fn code_is_placed()
    ensures { (E : Environment) (e : Expr) → IsCoherent E → IsOfSource e →
        IsPlaced E (program_code E e) × HasCode (program_code E e) Main e (program_block E e) }
{}

/// With the code of more definitions, of a term or of a packed value the code still stands.
pub fn code_stays_placed()
    ensures entries { (E more : Environment) (K : Code) → IsCoherent (E ++ more) → IsPlaced E K →
        IsPlaced (E ++ more) (entries_generated (E ++ more) (length E) more K) }
    ensures term { (E : Environment) (K : Code) (c : Home) (e : Expr) → IsPlaced E K →
        IsOfSource e → IsPlaced E (generated c e K) ×
        HasCode (generated c e K) c e (block_number e K) }
    ensures value { (E : Environment) (K : Code) (v : PValue) → IsPlaced E K → IsPacked v →
        IsPlaced E (value_generated v K) }
{}

/// On the code that the scheme makes of coherent definitions and a term of the source, the machine
/// ends as the reduction of the term does.
pub fn program_is_right()
    ensures { (E : Environment) (e : Expr) → IsCoherent E → IsOfSource e →
        RunsAlike E (program_code E e) (program_block E e) e }
{}

/// On the code of a typed program, which may marshal and unmarshal, the machine comes to one end,
/// within each budget, and is never stuck; it is the end of the program's reduction in each mode.
pub fn compiles()
    ensures { (E : Environment) (e : Expr) (T : Typ) → IsTypedProgram E e T → Compiles E e }
{}

/// Instructions that lead to a pause lead there in each world.
pub fn runs_on()
    ensures { (K : Code) (s t : MState) (z : World) → IsPaused t →
        Reaches z.environment K (standing.At s) t → Leads machine_step (on K s z) (on K t z) }
{}

/// Where a run doesn't get stuck, the machine pauses.
pub fn pauses_ahead()
    ensures { (K : Code) (c : Core) (z : World) (o : Outcome (Code × MValue)) → (o ≡ Stuck → ⊥) →
        Leads machine_step (on K (Run c) z) (Over o) →
        Pauses z.environment K (standing.At (Run c)) }
{}

/// What a run leads to before its end leads to the same end.
pub fn leads_ahead()
    ensures { (r s : Running) (o : Outcome (Code × MValue)) → Leads machine_step r s →
        Leads machine_step r (Over o) → Leads machine_step s (Over o) }
{}

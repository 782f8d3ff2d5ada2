// From the texts of a program and of a shelf to the program's entries and its term.

ghost use Rattle.std.specs.Prelude.{◌≤◌, length, IfOk, IfErr, IsTrue};
ghost use Rattle.std.specs.List.{list_all};
ghost use Rattle.ac_types.specs.Limits.{most_shelf_entries};
ghost use Rattle.ac_types.specs.Types.{Typ};
ghost use Rattle.ac_types.specs.ReadTypes.{typ_of};
ghost use Rattle.ac_terms.specs.Terms.{Expr};
ghost use Rattle.ac_terms.specs.Read.{environment_of, expr_of, bytes_of};
ghost use Rattle.ac_terms.specs.Defs.{Own', Shelf as Shelf'};
ghost use Rattle.ac_resolve_names.specs.Entries.{keeps_name};
ghost use Rattle.ac_load_rules.specs.Counted.{has_counted};
ghost use Rattle.ac_meaning.specs.Loads.{IsLoaded};
ghost use Rattle.ac_syntax.specs.Programs.{IsProgram, IsModule};
ghost use Rattle.ac_syntax.specs.ReadTrees.{surface_of};
ghost use Rattle.ac_load_rules.specs.Accepting.{IsShelf};
ghost use Rattle.ac_load.specs.Kinds.{Says};
ghost use Rattle.ac_load.specs.Loading.{shelved, shelf_of, Loads, Rejects};
ghost use Rattle.ac_load.specs.inner.Parts.{IsTaken, IsTreeRefused, RejectsPart, IsModuleTaken, IsProgramTaken};

use crate::kind::{Kind, Refusal};
use crate::part::part;
use crate::shelf::{Shelf, ShelfEntry};
use ac_parser::{parse_module, parse_program};
use ac_rules::Loaded;
use ac_syntax::Surface;
use ac_terms::{Env, Seen};
use ac_types::Text;
use std::alloc::Global;

/// The program of a text beside a shelf of at most `MOST_SHELF_ENTRIES` texts, each under a URI of
/// its own; or the first part that is refused, and why.
pub fn load(alloc: Global, program: &[u8], shelf: &Shelf) -> Result<Loaded, Refusal>
    requires few { length shelf.now.0 ≤ most_shelf_entries }
    requires shelved { IsShelf (shelf_of shelf.now) }
    ensures accepted { IfOk result (λ l.
        Loads program.now (shelf_of shelf.now) (environment_of l.env) (expr_of l.main)
        (typ_of l.ty)) }
    ensures loaded { IfOk result (λ l.
        IsLoaded (environment_of l.env) (expr_of l.main) (typ_of l.ty)) }
    ensures refused { IfErr result (λ r.
        Says r.kind (Rejects program.now (shelf_of shelf.now) r.part r.kind)) }
{
    let mut env = Env::new(alloc);
    let mut part = 0;
    for entry in shelf.0.as_slice() {
        part += 1;
        match module_behind(alloc, env, entry) {
            Ok(more) => env = more,
            Err(kind) => return Err(Refusal { part, kind }),
        }
    }
    match program_behind(alloc, env, program) {
        Ok(loaded) => Ok(loaded),
        Err(kind) => Err(Refusal { part: 0, kind }),
    }
}

// The entries with the module of a text of the shelf behind them.
fn module_behind(alloc: Global, env: Env, entry: &ShelfEntry) -> Result<Env, Kind>
    requires few { length env.entries ≤ most_shelf_entries }
    requires names { IsTrue (list_all keeps_name (environment_of env)) }
    requires counted { IsTrue (list_all has_counted (environment_of env)) }
    ensures taken { IfOk result (λ e. IsModuleTaken (environment_of env) (shelved entry.now)
        (environment_of e)) }
    ensures refused { IfErr result (λ kind. Says kind (RejectsPart IsModule (environment_of env)
        (Shelf' (shelved entry.now).uri) (shelved entry.now).text kind)) }
{
    let surface = parse_module(alloc, entry.text.as_slice())?;
    let found = entries_behind(alloc, env, &surface, &entry.uri);
    drop(surface);
    found
}

// The entries with those of a tree of the shelf behind them.
fn entries_behind(alloc: Global, env: Env, surface: &Surface, uri: &Text) -> Result<Env, Kind>
    requires few { length env.entries ≤ most_shelf_entries }
    requires names { IsTrue (list_all keeps_name (environment_of env)) }
    requires counted { IsTrue (list_all has_counted (environment_of env)) }
    ensures taken { IfOk result (λ e. (f : Expr) × (T : Typ) × IsTaken (environment_of env)
        (Shelf' (bytes_of uri.now)) (surface_of surface.now) (environment_of e) f T) }
    ensures refused { IfErr result (λ kind. Says kind (IsTreeRefused (environment_of env)
        (Shelf' (bytes_of uri.now)) (surface_of surface.now) kind)) }
{
    let seen = Seen::Shelf(uri.copy(alloc)?);
    match part(alloc, env, surface, &seen) {
        Ok(Loaded { env, main, ty }) => {
            drop(main);
            drop(ty);
            drop(seen);
            Ok(env)
        }
        Err(kind) => {
            drop(seen);
            Err(kind)
        }
    }
}

// The program of a text behind these entries.
fn program_behind(alloc: Global, env: Env, text: &[u8]) -> Result<Loaded, Kind>
    requires few { length env.entries ≤ most_shelf_entries }
    requires names { IsTrue (list_all keeps_name (environment_of env)) }
    requires counted { IsTrue (list_all has_counted (environment_of env)) }
    ensures taken { IfOk result (λ l. IsProgramTaken (environment_of env) text.now
        (environment_of l.env) (expr_of l.main) (typ_of l.ty)) }
    ensures refused { IfErr result (λ kind. Says kind (RejectsPart IsProgram (environment_of env)
        Own' text.now kind)) }
{
    let surface = parse_program(alloc, text)?;
    let seen = Seen::Own;
    let found = part(alloc, env, &surface, &seen);
    drop(seen);
    drop(surface);
    found
}

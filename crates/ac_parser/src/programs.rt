// Whole programs, and modules alone.

ghost use Rattle.std.specs.Prelude.{◌≡◌, [], map};
ghost use Rattle.ac_syntax.specs.Programs.{IsProgram, IsModule};
ghost use Rattle.ac_syntax.specs.ReadSigns.{read_signs};
ghost use Rattle.ac_syntax.specs.ReadTrees.{def_tree_of, surface_of};
ghost use Rattle.ac_parser.specs.inner.ProgramParsing.{NoProgramTree, DefsRead};
ghost use Rattle.ac_parser_patterns.specs.Reading.{FindsOr};

use crate::defs::next_def;
use crate::modules::module;
use ac_parser_expressions::expression;
use ac_syntax::{ParseError, SDef, Sign, Surface, Symbol, after, here, refused_at};
use ac_types::Many;
use std::alloc::Global;

// The definitions that a program begins with, and what is left, where no definition begins.
fn definitions<'s, 't>(
    alloc: Global,
    signs: &'s [Sign<'t>],
) -> Result<(Many<SDef>, &'s [Sign<'t>]), ParseError>
    ensures { FindsOr result (λ x. DefsRead (read_signs signs.now) (map def_tree_of x.0)
        (read_signs x.1.now)) (NoProgramTree IsProgram (read_signs signs.now)) }
{
    let mut defs = Many::new(alloc);
    let (first, mut rest) = next_def(alloc, signs)?;
    let Some(def) = first else {
        return Ok((defs, rest));
    };
    defs.push(def)?;
    loop {
        let (next, later) = next_def(alloc, rest)?;
        let Some(def) = next else {
            return Ok((defs, later));
        };
        defs.push(def)?;
        rest = later;
    }
}

// The tree behind which nothing is left.
fn at_end<T: Drop>(tree: T, rest: &[Sign<'_>]) -> Result<T, ParseError>
    ensures { FindsOr result (λ t. (t ≡ tree) × (read_signs rest.now ≡ []))
        (read_signs rest.now ≡ [] → ⊥) }
{
    if rest.is_empty() {
        Ok(tree)
    } else {
        Err(refused_at(rest))
    }
}

/// The program of these signs.
pub fn program(alloc: Global, signs: &[Sign<'_>]) -> Result<Surface, ParseError>
    ensures { FindsOr result (λ x. IsProgram (read_signs signs.now) (surface_of x))
        (NoProgramTree IsProgram (read_signs signs.now)) }
{
    let (defs, rest) = definitions(alloc, signs)?;
    let (expr, end) = expression(alloc, rest)?;
    let expr = at_end(expr, end)?;
    Ok(Surface {
        defs,
        expr: Some(expr),
    })
}

/// The module that all these signs are.
pub fn module_alone(alloc: Global, signs: &[Sign<'_>]) -> Result<Surface, ParseError>
    ensures { FindsOr result (λ x. IsModule (read_signs signs.now) (surface_of x))
        (NoProgramTree IsModule (read_signs signs.now)) }
{
    let Some(behind) = after(Symbol::Module, signs) else {
        return Err(refused_at(signs));
    };
    let (def, end) = module(alloc, here(signs), behind)?;
    let def = at_end(def, end)?;
    let mut defs = Many::new(alloc);
    defs.push(def)?;
    Ok(Surface { defs, expr: None })
}

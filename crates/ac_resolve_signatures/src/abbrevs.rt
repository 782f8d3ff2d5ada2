// Abbreviations.

ghost use Rattle.std.specs.Prelude.{◌≡◌, IfOk, OnOk};
ghost use Rattle.ac_syntax.specs.ReadTrees.{abbrev_of};
ghost use Rattle.ac_resolve_signatures.specs.SigFlaws.{past_abbrev, abbrev_flaws};
ghost use Rattle.ac_resolve_signatures.specs.Reads.{known_in};

use crate::flaws::Flaws;
use crate::known::Scan;
use crate::types::measure;
use ac_syntax::SAbbrev;
use ac_types::Memory;

/// What is wrong with an abbreviation, behind which its type is in scope.
pub fn walk_abbrev<'a>(scan: &mut Scan<'_, 'a>, alias: &'a SAbbrev) -> Result<Flaws, Memory>
    ensures flaws { IfOk result (λ f. f ≡ abbrev_flaws (known_in scan.old) (abbrev_of alias.now)) }
    ensures scan { OnOk result (known_in scan.new
        ≡ past_abbrev (known_in scan.old) (abbrev_of alias.now)) }
{
    let found = measure(&alias.ty, scan);
    scan.put_type(&alias.name.word, found.size)?;
    Ok(found.flaws())
}

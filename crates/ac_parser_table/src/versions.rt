// Versions, and what an import asks for.

use crate::page::TreePage;
use ac_syntax::SWants;
use ac_types::{Atom, Constraint, Range, Version};

fn spaced(page: &mut TreePage, number: u32) {
    page.put(b" ");
    page.number(i64::from(number));
}

fn atom(page: &mut TreePage, atom: Atom) {
    match atom {
        Atom::Number(number) => spaced(page, number),
        Atom::MyName => page.put(b" myname"),
    }
}

/// Adds a module's version.
pub fn write_version(page: &mut TreePage, version: &Version) {
    page.put(b" (version");
    for part in version.atoms.as_slice() {
        atom(page, *part);
    }
    page.close();
}

fn range(page: &mut TreePage, range: Range) {
    match range {
        Range::One(number) => spaced(page, number),
        Range::Between(least, most) => {
            spaced(page, least);
            page.put(b"..");
            page.number(i64::from(most));
        }
        Range::UpTo(most) => {
            page.put(b" ..");
            page.number(i64::from(most));
        }
        Range::From(least) => {
            spaced(page, least);
            page.put(b"..");
        }
    }
}

fn ranges(page: &mut TreePage, ranges: &[Range], star: bool) {
    page.put(b" (version");
    for part in ranges {
        range(page, *part);
    }
    if star {
        page.put(b" *");
    }
    page.close();
}

/// Adds what an import asks for.
pub fn write_wants(page: &mut TreePage, wants: &SWants) {
    match wants {
        SWants::Ranges(Constraint::Ranges { atoms, star }) => ranges(page, atoms.as_slice(), *star),
        SWants::Ranges(Constraint::Exact(_)) => page.put(b" (exact)"),
        SWants::NameOf(name) => {
            page.put(b" (name");
            page.name(name);
            page.close();
        }
    }
}

// The syntax file for Vim.

use crate::groups::{Group, SPELLINGS, is_of};
use ac_text::Page;

// Adds the line of the words of a group.
fn put_words(page: &mut Page, name: &[u8], group: Group) {
    page.put(b"syntax keyword ");
    page.put(name);
    for spelling in SPELLINGS {
        if is_of(spelling, group) {
            page.put(b" ");
            page.put(spelling);
        }
    }
    page.put(b"\n");
}

// Adds a line for each operator.
fn put_operators(page: &mut Page) {
    for spelling in SPELLINGS {
        if is_of(spelling, Group::Operator) {
            page.put(b"syntax match acuteOperator \"\\V");
            page.put(spelling);
            page.put(b"\"\n");
        }
    }
}

// What stands in front of the words.
const HEAD: &[u8] = b"\" The syntax of acute. The crate lens_editors_table makes this file.
if exists(\"b:current_syntax\")
  finish
endif
syntax case match
syntax iskeyword @,48-57,_,39
";

// What stands behind the operators: the later of two lines that fit wins.
const REST: &[u8] = b"syntax match acuteModule \"\\<[A-Z][A-Za-z0-9_']*\"
syntax match acuteNumber \"\\<[0-9]\\+\"
syntax match acuteBadEscape contained \"\\\\.\\?\"
syntax match acuteEscape contained \"\\\\[\\\\\\\"ntr]\"
syntax match acuteEscape contained \"\\\\x[0-9A-Fa-f]\\{2}\"
syntax region acuteString oneline start=+\"+ skip=+\\\\.+ end=+\"+ contains=acuteBadEscape,acuteEscape
syntax region acuteComment start=\"(\\*\" end=\"\\*)\" contains=acuteComment,@Spell
highlight default link acuteKeyword Keyword
highlight default link acuteType Type
highlight default link acuteValue Constant
highlight default link acuteException Exception
highlight default link acutePlace Constant
highlight default link acuteModule Identifier
highlight default link acuteOperator Operator
highlight default link acuteNumber Number
highlight default link acuteString String
highlight default link acuteEscape SpecialChar
highlight default link acuteBadEscape Error
highlight default link acuteComment Comment
let b:current_syntax = \"acute\"
";

/// Adds the file.
pub fn put_vim(page: &mut Page) {
    page.put(HEAD);
    put_words(page, b"acuteKeyword", Group::Keyword);
    put_words(page, b"acuteType", Group::Type);
    put_words(page, b"acuteValue", Group::Value);
    put_words(page, b"acuteException", Group::Exception);
    put_words(page, b"acutePlace", Group::Place);
    put_operators(page);
    page.put(REST);
}

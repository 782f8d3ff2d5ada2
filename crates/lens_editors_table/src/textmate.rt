// The grammar in the form of TextMate, which other editors read too.

use crate::groups::{Group, SPELLINGS, is_of};
use ac_text::Page;

// Adds the spellings of a group, parted by bars, each byte of a symbol behind a backslash.
fn put_choice(page: &mut Page, group: Group) {
    let mut between: &[u8] = b"";
    for spelling in SPELLINGS {
        if is_of(spelling, group) {
            page.put(between);
            for byte in *spelling {
                if !byte.is_ascii_alphanumeric() && *byte != b'_' {
                    page.put(b"\\\\");
                }
                page.put(&[*byte]);
            }
            between = b"|";
        }
    }
}

// Adds the rule of a group of words.
fn put_words(page: &mut Page, name: &[u8], scope: &[u8], group: Group) {
    page.put(b"    \"");
    page.put(name);
    page.put(b"\": { \"name\": \"");
    page.put(scope);
    page.put(b".acute\", \"match\": \"(?<![A-Za-z0-9_'])(?:");
    put_choice(page, group);
    page.put(b")(?![A-Za-z0-9_'])\" },\n");
}

// What stands in front of the rules of words.
const HEAD: &[u8] = b"{
  \"comment\": \"The crate lens_editors_table makes this file.\",
  \"name\": \"acute\",
  \"scopeName\": \"source.acute\",
  \"fileTypes\": [\"ac\", \"mod\"],
  \"patterns\": [
    { \"include\": \"#comment\" },
    { \"include\": \"#string\" },
    { \"include\": \"#keyword\" },
    { \"include\": \"#type\" },
    { \"include\": \"#value\" },
    { \"include\": \"#exception\" },
    { \"include\": \"#place\" },
    { \"include\": \"#module\" },
    { \"include\": \"#number\" },
    { \"include\": \"#operator\" }
  ],
  \"repository\": {
    \"comment\": {
      \"name\": \"comment.block.acute\",
      \"begin\": \"\\\\(\\\\*\",
      \"end\": \"\\\\*\\\\)\",
      \"patterns\": [{ \"include\": \"#comment\" }]
    },
    \"string\": {
      \"name\": \"string.quoted.double.acute\",
      \"begin\": \"\\\"\",
      \"end\": \"\\\"|$\",
      \"patterns\": [
        { \"name\": \"constant.character.escape.acute\", \"match\": \"\\\\\\\\(?:[\\\\\\\\\\\"ntr]|x[0-9A-Fa-f]{2})\" },
        { \"name\": \"invalid.illegal.escape.acute\", \"match\": \"\\\\\\\\.\" }
      ]
    },
";

// What stands behind them, in front of the operators and behind these.
const REST: &[u8] =
    b"    \"module\": { \"name\": \"entity.name.namespace.acute\", \"match\": \"(?<![A-Za-z0-9_'])[A-Z][A-Za-z0-9_']*\" },
    \"number\": { \"name\": \"constant.numeric.acute\", \"match\": \"(?<![A-Za-z0-9_'])[0-9]+\" },
    \"operator\": { \"name\": \"keyword.operator.acute\", \"match\": \"";

const END: &[u8] = b"\" }
  }
}
";

/// Adds the file.
pub fn put_textmate(page: &mut Page) {
    page.put(HEAD);
    put_words(page, b"keyword", b"keyword.control", Group::Keyword);
    put_words(page, b"type", b"support.type", Group::Type);
    put_words(page, b"value", b"constant.language", Group::Value);
    put_words(
        page,
        b"exception",
        b"support.class.exception",
        Group::Exception,
    );
    put_words(page, b"place", b"constant.language.place", Group::Place);
    page.put(REST);
    put_choice(page, Group::Operator);
    page.put(END);
}

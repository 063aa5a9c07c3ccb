// Patterns and trees, with the nodes at which they match and what their tags are bound to.
use crate::notation::{pattern_of, rules, tokens_of, tree_of};
use g4_patterns::{Pattern, Subject};
use g4_source::ParserRule;
use std::alloc::{AllocError, Global};
use std::test::Fail;

/// What a row shows, a pattern, a tree, and its matches: the place of each node, and what each tag is bound to.
const ROWS: &str =
    "a binary pattern at the root | (e (e <x:e> ) + (e <e> ) ) | (e (e 1 ) + (e (e 2 ) * (e 3 ) ) ) => 0 x=(e 1) e=(e (e 2) * (e 3));
another operator | (e (e <x:e> ) + (e <e> ) ) | (e (e 1 ) * (e 2 ) ) =>
a pattern below the root | (e (e <INT> ) * (e 3 ) ) | (e (e 1 ) + (e (e 2 ) * (e 3 ) ) ) => 5 INT=2;
a tag of a token type | (e <INT> ) | (e (e 1 ) + (e (e 2 ) * (e 3 ) ) ) => 1 INT=1; 6 INT=2; 10 INT=3;
a tag of a rule at each of its nodes | (e <e> ) | (e (e 1 ) + (e (e 2 ) * (e 3 ) ) ) => 0 e=(e (e 1) + (e (e 2) * (e 3))); 1 e=(e 1); 5 e=(e (e 2) * (e 3)); 6 e=(e 2); 10 e=(e 3);
a tag of a rule that the tree has not | (e <e> ) | (s a ) =>
a tag at one node below another rule | (s <s> ) | (e (e 1 ) + (s (e 2 ) ) ) => 5 s=(s (e 2));
plain tokens | (e 1 ) | (e (e 1 ) + (e 1 ) ) => 1; 5;
other texts of the same type | (e 1 ) | (e (e 2 ) + (e a ) ) =>
a text that begins or ends like the other | (e 12 ) | (e (e 1 ) + (e 123 ) ) =>
a token of another type | (e <ID> ) | (e (e a ) + (e 1 ) ) => 1 ID=a;
two tags of one type | (e <x:ID> + <y:ID> ) | (e a + b ) => 0 x=a y=b;
bindings in the order of the pattern | (e <y:ID> + <x:ID> ) | (e a + b ) => 0 y=a x=b;
one name twice | (e <x:ID> + <x:ID> ) | (e a + b ) => 0 x=a x=b;
one child too many in the tree | (e <ID> + <ID> ) | (e a + b + c ) =>
two children too many in the pattern | (e <ID> + <ID> + <ID> ) | (e a + b ) =>
one token less in the pattern | (e a ) | (e a b ) =>
one token more in the pattern | (e a b ) | (e a ) =>
nodes without children | (e ) | (e ) => 0;
a node without children in the pattern alone | (e ) | (e a ) =>
a node without children in the tree alone | (e a ) | (e ) =>
a tag of a rule at a node without children | (e <e> ) | (e ) => 0 e=e;
two tags of a rule | (s (e <e> ) (e <f:e> ) ) | (s (e ) (e ) ) => 0 e=e f=e;
one node less in the pattern | (s (e <e> ) ) | (s (e 1 ) (e 2 ) ) =>
one node more in the pattern | (s (e <e> ) (e <f:e> ) ) | (s (e 1 ) ) =>
a tag in a node of another rule | (s (t <t> ) ) | (s (e 1 ) ) =>
a tag two levels deep | (s (e (t <t> ) ) ) | (s (e (t 1 ) ) ) => 0 t=(t 1);
the same two levels deep with another rule | (s (e (t <t> ) ) ) | (s (e (s 1 ) ) ) =>
a plain token after a node | (s (e 1 ) 2 ) | (s (e 1 ) 2 ) => 0;
a token inside the node before | (s (e 1 ) 2 ) | (s (e 1 2 ) ) =>
a token outside the node before | (s (e 1 2 ) ) | (s (e 1 ) 2 ) =>
a token before a node | (s 1 (e 2 ) ) | (s (e 1 ) 2 ) =>
a tag of the root rule at two levels | (s (s <s> ) ) | (s (s (s a ) ) ) => 0 s=(s (s a)); 1 s=(s a);
the tag one level deep | (s (s (s <s> ) ) ) | (s (s (s a ) ) ) => 0 s=(s a);
the tag three levels deep in a tree of two levels | (s (s (s (s <s> ) ) ) ) | (s (s (s a ) ) ) =>
a tag of the end of the file | (s a <EOF> ) | (s a $ ) => 0 EOF=<EOF>;
the end of the file as a plain token | (s a $ ) | (s a $ ) => 0;
the end of the file alone | (s $ ) | (s $ ) => 0;
the end of the file in the pattern alone | (s a $ ) | (s a ) =>
a tag of the end of the file at a token | (s <EOF> ) | (s a ) =>
a tag of another rule at a token | (e <s> ) | (e 1 ) =>
a tag of another rule at a node of that rule | (e <s> ) | (e (s 1 ) ) =>
a tag of a rule before a token | (e <e> 1 ) | (e (e 2 ) 1 ) =>
a tag of a rule after a token | (e 1 <e> ) | (e 1 (e 2 ) ) =>
a tag of a rule before a node | (e <e> (e 1 ) ) | (e (e 1 ) ) =>
a pattern with three tags at two nodes | (e (e <a:e> ) ? (e <b:e> ) : (e <c:e> ) ) | (e (e a ) ? (e (e b ) ? (e 1 ) : (e 2 ) ) : (e 3 ) ) => 0 a=(e a) b=(e (e b) ? (e 1) : (e 2)) c=(e 3); 5 a=(e b) b=(e 1) c=(e 2);
four tags at different levels | (e (e <x:e> ) ? (e (e <y:e> ) ? (e <z:e> ) : (e 2 ) ) : (e <w:e> ) ) | (e (e a ) ? (e (e b ) ? (e 1 ) : (e 2 ) ) : (e 3 ) ) => 0 x=(e a) y=(e b) z=(e 1) w=(e 3);
texts in the other order | (s (e ab ) (e a ) ) | (s (e a ) (e ab ) ) =>
texts of several bytes | (e é ) | (e (e é ) è ) => 1;
a tag at nodes side by side | (r <r> ) | (s (r a ) (r b ) ) => 1 r=(r a); 4 r=(r b);";

/// What is before and after the first bar.
fn cut(text: &str) -> (&str, &str) {
    text.split_once(" | ").unwrap_or((text, ""))
}

/// Adds a match: the node, and what the tags are bound to.
fn push_match(
    alloc: Global,
    out: &mut Vec<u8>,
    pattern: &Pattern,
    subject: &Subject<'_>,
    rules: &[ParserRule<u32>],
    node: u32,
) -> Result<(), AllocError> {
    out.extend_from_slice(format!(in alloc; " {node}")?.as_bytes())?;
    if let Some(bindings) = pattern.matches(alloc, subject, node)? {
        for binding in bindings.as_slice() {
            out.extend_from_slice(b" ")?;
            out.extend_from_slice(binding.name.as_slice())?;
            out.extend_from_slice(b"=")?;
            subject.print_node(alloc, out, rules, binding.node)?;
        }
    }
    out.extend_from_slice(b";")
}

/// The matches of a pattern in a tree.
fn matches_in(alloc: Global, pattern: &str, tree: &str) -> Result<Vec<u8>, AllocError> {
    let rules = rules(alloc)?;
    let pattern = pattern_of(alloc, pattern)?;
    let tokens = tokens_of(alloc, tree)?;
    let tree = tree_of(alloc, tree)?;
    let subject = Subject::new(alloc, &tree, &tokens)?;
    let mut out = Vec::new(alloc);
    for node in pattern.find_all(alloc, &subject)?.as_slice() {
        push_match(alloc, &mut out, &pattern, &subject, rules.as_slice(), *node)?;
    }
    Ok(out)
}

/// The rows that have other matches, each with these.
fn wrong_rows(alloc: Global, rows: &str) -> Result<String, AllocError> {
    let mut wrong = String::new(alloc);
    for row in rows.lines() {
        let (asked, wanted) = row.split_once(" =>").unwrap_or((row, ""));
        let (pattern, tree) = cut(cut(asked).1);
        let found = matches_in(alloc, pattern, tree)?;
        if found.as_slice() != wanted.as_bytes() {
            wrong.push_str(row)?;
            wrong.push_str(" but is")?;
            wrong.push_str(String::from_utf8_lossy(alloc, found.as_slice())?.as_str())?;
            wrong.push_str("\n")?;
        }
    }
    Ok(wrong)
}

#[test]
fn patterns(rt: HostRuntime) -> Result<(), Fail> {
    let wrong = wrong_rows(rt.alloc(), ROWS)?;
    assert_eq!(rt; wrong.as_str(), "");
    Ok(())
}

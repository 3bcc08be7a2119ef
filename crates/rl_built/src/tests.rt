//! Which forms of trees that are built by hand are checked.

use crate::{not_built, small_number};
use sl_base::{List, Place};
use sl_token::{Kind, Span, Token};
use sl_tree::{AccessTree, AccessWord, AliasTree, DeclTree, ModuleTree, TypeTree, TypeWord};
use std::alloc::Global;
use std::test::Fail;

/// The token of these bytes of a source of one line.
fn token(start: u32, end: u32) -> Token {
    Token {
        kind: Kind::Name,
        span: Span { start, end },
        place: Place {
            line: 1,
            column: start.saturating_add(1),
        },
    }
}

/// The alias of a word that is a type, whose text begins at this byte, in a module behind these declarations.
fn with_alias(
    alloc: Global,
    mut decls: List<DeclTree>,
    access: Option<AccessTree>,
    start: u32,
    word: TypeWord,
) -> Result<ModuleTree, Fail> {
    let first = token(start.saturating_add(14), start.saturating_add(17));
    decls.push(DeclTree::Alias(AliasTree {
        access,
        word: token(start, start.saturating_add(9)),
        name: token(start.saturating_add(10), start.saturating_add(11)),
        type_: TypeTree::Word {
            word,
            first,
            path: List::new(alloc),
        },
    }))?;
    Ok(ModuleTree { name: None, decls })
}

#[test]
fn the_first_declaration_with_a_form_that_is_not_checked_is_told_by_its_first_token(
    rt: HostRuntime,
) -> Result<(), Fail> {
    let alloc = rt.alloc();
    let source = b"typealias A = int; public typealias B = int;";
    let built = with_alias(alloc, List::new(alloc), None, 0, TypeWord::Int)?;
    assert_eq!(rt; not_built(source, &built), None);
    let access = Some(AccessTree {
        word: AccessWord::Public,
        token: token(19, 25),
    });
    let tree = with_alias(alloc, built.decls, access, 26, TypeWord::Int)?;
    assert_eq!(rt; not_built(source, &tree), Some(token(19, 25)));
    Ok(())
}

#[test]
fn a_word_of_64_bits_is_not_checked(rt: HostRuntime) -> Result<(), Fail> {
    let alloc = rt.alloc();
    let source = b"typealias A = int64_t;";
    let tree = with_alias(alloc, List::new(alloc), None, 0, TypeWord::Int64)?;
    assert_eq!(rt; not_built(source, &tree), Some(token(0, 9)));
    Ok(())
}

#[test]
fn a_number_of_decimal_digits_is_small_up_to_the_greatest_int(rt: HostRuntime) -> Result<(), Fail> {
    assert_eq!(rt; small_number(b"2147483647"), Some(2147483647));
    assert_eq!(rt; small_number(b"2147483648"), None);
    assert_eq!(rt; small_number(b"99999999999999999999"), None);
    assert_eq!(rt; small_number(b"0x1"), None);
    Ok(())
}

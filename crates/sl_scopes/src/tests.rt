//! What is told of trees that are built by hand.

use crate::declared_twice;
use sl_base::{List, Place};
use sl_token::{Kind, Span, Token};
use sl_tree::{
    AliasTree, DeclTree, ExtensionTree, FieldTree, MemberTree, ModuleTree, TypeTree, TypeWord,
};
use std::alloc::Global;
use std::test::Fail;

/// The token of these bytes of a source of one line.
fn token(start: u32, end: u32) -> Token {
    Token {
        kind: Kind::Name,
        span: Span { start, end },
        place: Place {
            line: 1,
            column: start.saturating_add(1),
        },
    }
}

/// The type `int`.
fn int(alloc: Global, first: Token) -> TypeTree {
    TypeTree::Word {
        word: TypeWord::Int,
        first,
        path: List::new(alloc),
    }
}

/// The module of one declaration.
fn module_of(alloc: Global, decl: DeclTree) -> Result<ModuleTree, Fail> {
    let mut decls = List::new(alloc);
    decls.push(decl)?;
    Ok(ModuleTree { name: None, decls })
}

#[test]
fn the_second_of_two_names_is_told(rt: HostRuntime) -> Result<(), Fail> {
    let alloc = rt.alloc();
    let source = b"typealias A = int; typealias A = int;";
    let mut decls = List::new(alloc);
    decls.push(DeclTree::Alias(AliasTree {
        access: None,
        word: token(0, 9),
        name: token(10, 11),
        type_: int(alloc, token(14, 17)),
    }))?;
    decls.push(DeclTree::Alias(AliasTree {
        access: None,
        word: token(19, 28),
        name: token(29, 30),
        type_: int(alloc, token(33, 36)),
    }))?;
    let tree = ModuleTree { name: None, decls };
    assert_eq!(rt; declared_twice(alloc, source, &tree)?, Some(token(29, 30)));
    Ok(())
}

/// Names that are compared pair by pair would not be told within a test's time.
#[test]
fn a_scope_may_have_many_names(rt: HostRuntime) -> Result<(), Fail> {
    let alloc = rt.alloc();
    let mut source = Vec::new(alloc);
    let mut names = List::new(alloc);
    for i in 0..200_000u32 {
        source.extend_from_slice(format!(in alloc; "{i:06}")?.as_bytes())?;
        names.push(token(6 * i, 6 * i + 6))?;
    }
    names.push(token(6, 12))?;
    let mut members = List::new(alloc);
    members.push(MemberTree::Field(FieldTree {
        access: None,
        type_: int(alloc, token(0, 0)),
        names,
    }))?;
    let tree = module_of(
        alloc,
        DeclTree::Extension(ExtensionTree {
            access: None,
            word: token(0, 0),
            type_: int(alloc, token(0, 0)),
            bases: List::new(alloc),
            members,
            semicolon: None,
        }),
    )?;
    assert_eq!(rt; declared_twice(alloc, &source, &tree)?, Some(token(6, 12)));
    Ok(())
}

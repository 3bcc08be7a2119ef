//! Locals and what they are made of.

ghost use Rattle.std.specs.Prelude.{map};
ghost use Rattle.std.specs.Option.{option_map};
ghost use Rattle.def_reading.specs.StmtReading as lists;
ghost use Rattle.sl_token.specs.View.{token_in};
ghost use Rattle.sl_tree.specs.View.{binding_of, declarator_in, expr_in, exprs_of, init_in, local_in, type_in};
ghost use Rattle.sl_cursor.specs.Nestings.{nesting_in};
ghost use Rattle.sl_cursor.specs.Following.{Follows, IsAt};

use crate::wholes::{typed, value};
use sl_base::List;
use sl_cursor::nesting::Nesting;
use sl_cursor::source::{Here, Source, Unread};
use sl_token::Token;
use sl_tree::{Binding, Declarator, ExprTree, InitTree, LocalTree, TypeTree};
use sqlite_items::Items;

/// Expressions with a comma between them.
fn values<'a>(
    input: &Source<'_>,
    around: &Nesting,
    here: &Here<'a>,
) -> Result<(Items<ExprTree>, Here<'a>), Unread>
    requires { IsAt input.now here.now.place }
    ensures { Follows input.now (λ values. exprs_of (map (expr_in input.now.bytes.now) values))
        (lists.values_in (nesting_in around.now)) here.now result }
{
    let mut values = Items::new(input.alloc);
    let mut next = *here;
    loop {
        let (value, behind) = value(input, around, &next)?;
        values.push(value)?;
        match input.sign(",", &behind) {
            Some((_, after)) => next = after,
            None => return Ok((values, behind)),
        }
    }
}

/// The values of fields behind an opening brace.
fn fields<'a>(
    input: &Source<'_>,
    around: &Nesting,
    opening: Token,
    here: &Here<'a>,
) -> Result<(InitTree, Here<'a>), Unread>
    requires { IsAt input.now here.now.place }
    ensures { let source = input.now.bytes.now in
        Follows input.now (init_in source)
        (lists.fields_in (nesting_in around.now) (token_in source opening)) here.now result }
{
    if let Some((_, behind)) = input.sign("}", here) {
        return Ok((InitTree::Fields(opening, Items::new(input.alloc)), behind));
    }
    let (values, end) = values(input, around, here)?;
    let (_, behind) = input.mark("}", &end)?;
    Ok((InitTree::Fields(opening, values), behind))
}

/// An initialiser.
fn init<'a>(
    input: &Source<'_>,
    around: &Nesting,
    here: &Here<'a>,
) -> Result<(InitTree, Here<'a>), Unread>
    requires { IsAt input.now here.now.place }
    ensures { Follows input.now (init_in input.now.bytes.now) (lists.init_in (nesting_in around.now)) here.now result }
{
    if let Some((opening, behind)) = input.sign("{", here) {
        return fields(input, around, opening, &behind);
    }
    let (value, end) = value(input, around, here)?;
    Ok((InitTree::Value(value), end))
}

/// An initialiser behind its mark, if there is one.
fn maybe_init<'a>(
    input: &Source<'_>,
    around: &Nesting,
    here: &Here<'a>,
) -> Result<(Option<InitTree>, Here<'a>), Unread>
    requires { IsAt input.now here.now.place }
    ensures { Follows input.now (λ init. option_map (init_in input.now.bytes.now) init)
        (lists.maybe_init_in (nesting_in around.now)) here.now result }
{
    let Some((_, behind)) = input.sign("=", here) else {
        return Ok((None, *here));
    };
    let (init, end) = init(input, around, &behind)?;
    Ok((Some(init), end))
}

/// A name with its initialiser, if there is one.
fn one_declarator<'a>(
    input: &Source<'_>,
    around: &Nesting,
    here: &Here<'a>,
) -> Result<(Declarator, Here<'a>), Unread>
    requires { IsAt input.now here.now.place }
    ensures { Follows input.now (declarator_in input.now.bytes.now)
        (lists.declarator_in (nesting_in around.now)) here.now result }
{
    let (name, behind) = input.name(here)?;
    let (init, end) = maybe_init(input, around, &behind)?;
    Ok((Declarator { name, init }, end))
}

/// Declarators with a comma between them.
fn declarators<'a>(
    input: &Source<'_>,
    around: &Nesting,
    here: &Here<'a>,
) -> Result<(List<Declarator>, Here<'a>), Unread>
    requires { IsAt input.now here.now.place }
    ensures { Follows input.now (λ declarators. map (declarator_in input.now.bytes.now) declarators)
        (lists.declarators_in (nesting_in around.now)) here.now result }
{
    let mut declarators = List::new(input.alloc);
    let mut next = *here;
    loop {
        let (declarator, behind) = one_declarator(input, around, &next)?;
        declarators.push(declarator)?;
        match input.sign(",", &behind) {
            Some((_, after)) => next = after,
            None => return Ok((declarators, behind)),
        }
    }
}

/// A local with its type.
fn typed_local<'a>(
    input: &Source<'_>,
    around: &Nesting,
    word: Option<Token>,
    here: &Here<'a>,
) -> Result<(LocalTree, Here<'a>), Unread>
    requires { IsAt input.now here.now.place }
    ensures { let source = input.now.bytes.now in
        Follows input.now (local_in source)
        (lists.typed_in (nesting_in around.now) (option_map (token_in source) word)) here.now result }
{
    let (ty, behind) = typed(input, around, here)?;
    let (declarators, end) = declarators(input, around, &behind)?;
    Ok((LocalTree::Typed(word, ty, declarators), end))
}

/// A type behind its mark, if there is one.
fn maybe_type<'a>(
    input: &Source<'_>,
    around: &Nesting,
    here: &Here<'a>,
) -> Result<(Option<TypeTree>, Here<'a>), Unread>
    requires { IsAt input.now here.now.place }
    ensures { Follows input.now (λ type. option_map (type_in input.now.bytes.now) type)
        (lists.maybe_type_in (nesting_in around.now)) here.now result }
{
    let Some((_, behind)) = input.sign(":", here) else {
        return Ok((None, *here));
    };
    let (ty, end) = typed(input, around, &behind)?;
    Ok((Some(ty), end))
}

/// A local whose type need not be written.
fn inferred<'a>(
    input: &Source<'_>,
    around: &Nesting,
    binding: Binding,
    word: Token,
    here: &Here<'a>,
) -> Result<(LocalTree, Here<'a>), Unread>
    requires { IsAt input.now here.now.place }
    ensures { let source = input.now.bytes.now in
        Follows input.now (local_in source)
        (lists.inferred_in (nesting_in around.now) (binding_of binding) (token_in source word)) here.now result }
{
    let (name, behind) = input.name(here)?;
    let (ty, marked) = maybe_type(input, around, &behind)?;
    let (_, next) = input.mark("=", &marked)?;
    let (value, end) = value(input, around, &next)?;
    Ok((LocalTree::Inferred(binding, word, name, ty, value), end))
}

/// A local.
pub fn local<'a>(
    input: &Source<'_>,
    around: &Nesting,
    here: &Here<'a>,
) -> Result<(LocalTree, Here<'a>), Unread>
    requires { IsAt input.now here.now.place }
    ensures { Follows input.now (local_in input.now.bytes.now)
        (lists.local_in (nesting_in around.now)) here.now result }
{
    if let Some((word, behind)) = input.sign("let", here) {
        return inferred(input, around, Binding::Let, word, &behind);
    }
    if let Some((word, behind)) = input.sign("var", here) {
        return inferred(input, around, Binding::Var, word, &behind);
    }
    match input.sign("const", here) {
        Some((word, behind)) => typed_local(input, around, Some(word), &behind),
        None => typed_local(input, around, None, here),
    }
}

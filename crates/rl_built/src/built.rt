//! Which declarations have only forms that are checked.

ghost use Rattle.std.specs.Prelude.{◌≡◌, ℕ, List, not, find, Some, None, if◌then◌else◌};
ghost use Rattle.std.specs.Option.{option_copied, option_map};
ghost use Rattle.std.specs.Str.Parse.{digits_value};
ghost use Rattle.def_built.specs.Built as built;
ghost use Rattle.sl_token.specs.View.{token_in};
ghost use Rattle.sl_tree.specs.DeclView.{decl_in, module_in};
ghost use Rattle.sl_tree.specs.View.{expr_in, operator_of, type_in, word_of};

use sl_token::{Token, text_at};
use sl_tree::{DeclTree, ExprTree, ModuleTree, Operator, TypeTree, TypeWord};

/// The first token of the first declaration with a form that is not checked yet, if there is one.
pub fn not_built(source: &[u8], tree: &ModuleTree) -> Option<Token>
    ensures { option_map (token_in source.now) result
        ≡ built.not_built (module_in source.now tree.now) }
{
    let decl = first_unbuilt(source, tree.decls.as_slice())?;
    Some(decl.first_token())
}

// The first declaration with a form that is not checked yet, if there is one.
fn first_unbuilt<'a>(source: &[u8], decls: &'a [DeclTree]) -> Option<&'a DeclTree>
    ensures { option_copied result
        ≡ find (λ decl. not (built.is_built (decl_in source.now decl))) decls.now }
{
    decls.iter().find(|decl| !is_built(source, decl))
}

// Whether a declaration has only forms that are checked.
fn is_built(source: &[u8], decl: &DeclTree) -> bool
    ensures { result ≡ built.is_built (decl_in source.now decl.now) }
{
    match decl {
        DeclTree::Alias(alias) => alias.access.is_none() && is_small_type(&alias.type_),
        DeclTree::Const(constant) => {
            constant.access.is_none()
                && is_small_type(&constant.type_)
                && is_small_expr(source, &constant.value)
        }
        DeclTree::Import(_)
        | DeclTree::Struct(_)
        | DeclTree::Interface(_)
        | DeclTree::Extension(_)
        | DeclTree::Buffer(_)
        | DeclTree::Function(_) => false,
    }
}

// Whether a type is `int`, `uint`, `bool`, or a name alone.
#[tactic(auto, using(sl_tree::proofs::Forms::type_forms))]
fn is_small_type(type_: &TypeTree) -> bool
    ensures { (source : List ℕ) → result ≡ built.is_small_type (type_in source type_.now) }
{
    match type_ {
        TypeTree::Word { word, path, .. } => path.is_empty() && is_narrow_scalar(*word),
        TypeTree::Named { args, path, .. } => args.is_empty() && path.is_empty(),
    }
}

// Whether a word is one of which casts are made, but none of 64 bits.
fn is_narrow_scalar(word: TypeWord) -> bool
    ensures { result ≡ built.is_narrow_scalar (word_of word) }
{
    match word {
        TypeWord::Int64 | TypeWord::Uint64 => false,
        _ => word.is_scalar(),
    }
}

// Whether an expression has small numbers, truth values, and names without type arguments, under small operators and
// in brackets.
#[tactic(auto, using(sl_tree::proofs::Forms::expr_forms))]
fn is_small_expr(source: &[u8], expr: &ExprTree) -> bool
    ensures { result ≡ built.is_small_expr (expr_in source.now expr.now) }
{
    match expr {
        ExprTree::Number(token) => small_number(text_at(source, token.span)).is_some(),
        ExprTree::BooleanLiteral(_, _) => true,
        ExprTree::Name(_, args) => args.is_empty(),
        ExprTree::Group(_, inner) => is_small_expr(source, inner.get()),
        ExprTree::Binary(operator, _, left, right) => {
            is_small_operator(*operator)
                && is_small_expr(source, left.get())
                && is_small_expr(source, right.get())
        }
        ExprTree::Itself(_)
        | ExprTree::FunctionalCast(_, _, _)
        | ExprTree::OwnType(_)
        | ExprTree::Call(_, _, _)
        | ExprTree::Index(_, _, _)
        | ExprTree::Member(_, _)
        | ExprTree::Unary(_, _, _)
        | ExprTree::Cast(_, _, _, _)
        | ExprTree::Conditional(_, _, _, _) => false,
    }
}

// Whether an operator is `+`, `-` or `*`.
fn is_small_operator(operator: Operator) -> bool
    ensures { result ≡ built.is_small_operator (operator_of operator) }
{
    match operator {
        Operator::Add | Operator::Subtract | Operator::Multiply => true,
        _ => false,
    }
}

// The greatest int.
const MAX_INT: u32 = 2147483647;

/// The value of a number that has decimal digits alone and is at most the greatest int.
pub fn small_number(text: &[u8]) -> Option<u32>
    ensures { result ≡ (if built.is_small_number text.now then Some (digits_value 10 text.now) else None) }
{
    let mut value: u32 = 0;
    for byte in text {
        if !byte.is_ascii_digit() {
            return None;
        }
        value = value
            .saturating_mul(10)
            .saturating_add(u32::from(*byte - b'0'));
    }
    (value <= MAX_INT).then_some(value)
}

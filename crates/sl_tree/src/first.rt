//! The first tokens of trees.

ghost use Rattle.std.specs.Prelude.{◌≡◌, ℕ, List, map};
ghost use Rattle.std.specs.Option.{option_map};
ghost use Rattle.def_module.specs.First as first;
ghost use Rattle.def_tree.specs.ExprTree as exprs;
ghost use Rattle.def_tree.specs.TypeTree as types;
ghost use Rattle.sl_token.specs.View.{token_in};
ghost use Rattle.sl_tree.specs.DeclView.{access_in, attr_in, binding_in, decl_in};
ghost use Rattle.sl_tree.specs.View.{expr_in, type_in};

use crate::declarations::{AttrTree, BindingTree, DeclTree};
use crate::expressions::ExprTree;
use crate::members::AccessTree;
use crate::types::TypeTree;
use sl_token::Token;

impl DeclTree {
    /// The first token of a declaration.
    pub fn first_token(&self) -> Token
        ensures { (source : List ℕ) →
            token_in source result ≡ first.decl_token (decl_in source self.now) }
    {
        match self {
            DeclTree::Import(import) => import.exported.unwrap_or(import.word),
            DeclTree::Alias(alias) => access_or(&alias.access, alias.word),
            DeclTree::Const(constant) => access_or(&constant.access, constant.word),
            DeclTree::Struct(structure) => access_or(&structure.access, structure.word),
            DeclTree::Interface(interface) => access_or(&interface.access, interface.word),
            DeclTree::Extension(extension) => access_or(&extension.access, extension.word),
            DeclTree::Buffer(buffer) => {
                binding_or(&buffer.binding, access_or(&buffer.access, buffer.word))
            }
            DeclTree::Function(function) => {
                let first = access_or(&function.access, function.type_.first_token());
                attrs_or(function.attrs.as_slice(), first)
            }
        }
    }
}

// A word of access, or the token where there is none.
fn access_or(access: &Option<AccessTree>, token: Token) -> Token
    ensures { (source : List ℕ) → token_in source result
        ≡ first.access_or (option_map (access_in source) access.now) (token_in source token) }
{
    match access {
        Some(access) => access.token,
        None => token,
    }
}

// The opening bracket of a binding, or the token where there is none.
fn binding_or(binding: &Option<BindingTree>, token: Token) -> Token
    ensures { (source : List ℕ) → token_in source result
        ≡ first.binding_or (option_map (binding_in source) binding.now) (token_in source token) }
{
    match binding {
        Some(binding) => binding.opening,
        None => token,
    }
}

// The opening bracket of the first attribute, or the token where there is none.
fn attrs_or(attrs: &[AttrTree], token: Token) -> Token
    ensures { (source : List ℕ) → token_in source result
        ≡ first.attrs_or (map (attr_in source) attrs.now) (token_in source token) }
{
    match attrs {
        [] => token,
        [AttrTree::Shader { opening, .. }, ..] => *opening,
        [AttrTree::NumThreads { opening, .. }, ..] => *opening,
    }
}

impl TypeTree {
    /// The first token of a type.
    #[tactic(auto, using(crate::proofs::Forms::type_forms))]
    pub fn first_token(&self) -> Token
        ensures { (source : List ℕ) →
            token_in source result ≡ types.type_token (type_in source self.now) }
    {
        match self {
            TypeTree::Word { first, .. } | TypeTree::Named { first, .. } => *first,
        }
    }
}

impl ExprTree {
    /// The first token of an expression.
    #[tactic(auto, using(crate::proofs::Forms::expr_forms))]
    pub fn first_token(&self) -> Token
        ensures { (source : List ℕ) →
            token_in source result ≡ exprs.first_token (expr_in source self.now) }
    {
        match self {
            ExprTree::Number(token)
            | ExprTree::BooleanLiteral(_, token)
            | ExprTree::Itself(token)
            | ExprTree::Name(token, _)
            | ExprTree::FunctionalCast(_, token, _)
            | ExprTree::OwnType(token)
            | ExprTree::Group(token, _)
            | ExprTree::Unary(_, token, _)
            | ExprTree::Cast(token, _, _, _) => *token,
            ExprTree::Call(first, _, _)
            | ExprTree::Index(first, _, _)
            | ExprTree::Member(first, _)
            | ExprTree::Binary(_, _, first, _)
            | ExprTree::Conditional(first, _, _, _) => first.get().first_token(),
        }
    }
}

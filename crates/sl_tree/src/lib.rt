//! Syntax trees, one variant for each form of the grammar, as plain values.
//!
//! A tree keeps the tokens at which it is told: its names, its words, its operators, and its opening brackets. It does
//! not keep the source, of which these tokens are parts.
#![tactic(auto)]

mod declarations;
mod expressions;
mod first;
mod members;
mod operators;
mod statements;
mod types;

pub use declarations::{
    AttrTree, BindingTree, BufferKind, BufferTree, ConstTree, DeclTree, ExtensionTree,
    FunctionTree, ImportTree, InterfaceTree, ModuleTree, StructTree,
};
pub use expressions::ExprTree;
pub use members::{
    AccessTree, AccessWord, AliasTree, ArgTree, AssocTree, BlockTree, FieldTree, HeadTree,
    ItemTree, MemberTree, MethodTree, ModeTree, ModeWord, ParamTree, RequireTree, TailTree,
    WhereTree,
};
pub use operators::{Assignment, Operator, Step, UnaryOperator};
pub use statements::{Binding, Declarator, InitTree, LocalTree, SimpleTree, StartTree, StmtTree};
pub use types::{TypeTree, TypeWord};

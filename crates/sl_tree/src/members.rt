//! Trees of what stands in declarations: access, type parameters, parameters, members and items.

use crate::statements::StmtTree;
use crate::types::TypeTree;
use sl_base::List;
use sl_token::Token;
use sqlite_items::Items;

/// A word of access.
#[derive(Clone, Copy, Debug, PartialEq, Eq)]
pub enum AccessWord {
    Public,
    Internal,
    Private,
}

/// A word of access with its token.
#[derive(Debug, Drop)]
pub struct AccessTree {
    pub word: AccessWord,
    pub token: Token,
}

/// `typealias NAME = TYPE;`, with the word `typealias`.
#[derive(Debug, Drop)]
pub struct AliasTree {
    pub access: Option<AccessTree>,
    pub word: Token,
    pub name: Token,
    pub type_: TypeTree,
}

/// A type parameter with its constraint, if there is one.
#[derive(Debug, Drop)]
pub struct ParamTree {
    pub name: Token,
    pub bound: Option<TypeTree>,
}

/// `where TYPE : TYPE, ..`, with the word `where`.
#[derive(Debug, Drop)]
pub struct WhereTree {
    pub word: Token,
    pub type_: TypeTree,
    pub bounds: List<TypeTree>,
}

/// A word before a parameter.
#[derive(Clone, Copy, Debug, PartialEq, Eq)]
pub enum ModeWord {
    In,
    InOut,
}

/// A word before a parameter, with its token.
#[derive(Debug, Drop)]
pub struct ModeTree {
    pub word: ModeWord,
    pub token: Token,
}

/// A parameter with its word and its semantic, each if there is one.
#[derive(Debug, Drop)]
pub struct ArgTree {
    pub mode: Option<ModeTree>,
    pub type_: TypeTree,
    pub name: Token,
    pub semantic: Option<Token>,
}

/// Statements behind an opening brace.
#[derive(Debug, Drop)]
pub struct BlockTree {
    pub opening: Token,
    pub stmts: Items<StmtTree>,
}

/// Fields of one type.
#[derive(Debug, Drop)]
pub struct FieldTree {
    pub access: Option<AccessTree>,
    pub type_: TypeTree,
    pub names: List<Token>,
}

/// What methods and requirements end with: the word `static` if it is written, the result, the name, the parameters.
#[derive(Debug, Drop)]
pub struct TailTree {
    pub static_: Option<Token>,
    pub type_: TypeTree,
    pub name: Token,
    pub args: List<ArgTree>,
}

/// The head of a requirement, with the word `mutating` if it is written.
#[derive(Debug, Drop)]
pub struct HeadTree {
    pub mutating: Option<Token>,
    pub access: Option<AccessTree>,
    pub tail: TailTree,
}

/// A requirement, and its own body if it has one.
#[derive(Debug, Drop)]
pub struct RequireTree {
    pub head: HeadTree,
    pub body: Option<BlockTree>,
}

/// A method, with the words `mutating` and `override` if they are written.
#[derive(Debug, Drop)]
pub struct MethodTree {
    pub mutating: Option<Token>,
    pub access: Option<AccessTree>,
    pub override_: Option<Token>,
    pub tail: TailTree,
    pub body: BlockTree,
}

/// `associatedtype NAME : TYPE, ..;`, with the word `associatedtype`.
#[derive(Debug, Drop)]
pub struct AssocTree {
    pub word: Token,
    pub name: Token,
    pub bases: List<TypeTree>,
}

/// What stands in a struct or an extension.
#[derive(Debug, Drop)]
pub enum MemberTree {
    /// Fields of one type; an extension has none.
    Field(FieldTree),
    /// A method.
    Method(MethodTree),
    /// An alias.
    Alias(AliasTree),
}

/// What stands in an interface.
#[derive(Debug, Drop)]
pub enum ItemTree {
    /// A requirement.
    Require(RequireTree),
    /// An associated type.
    Assoc(AssocTree),
}

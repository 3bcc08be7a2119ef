//! Trees of declarations and modules.

use crate::expressions::ExprTree;
use crate::members::{
    AccessTree, AliasTree, ArgTree, BlockTree, ItemTree, MemberTree, ParamTree, WhereTree,
};
use crate::types::TypeTree;
use sl_base::List;
use sl_token::Token;

/// `import NAME;`, with the word `import`, and the word `__exported` if it is written.
#[derive(Debug, Drop)]
pub struct ImportTree {
    pub exported: Option<Token>,
    pub word: Token,
    pub name: Token,
}

/// `static const TYPE NAME = VALUE;`, with the word `static`.
#[derive(Debug, Drop)]
pub struct ConstTree {
    pub access: Option<AccessTree>,
    pub word: Token,
    pub type_: TypeTree,
    pub name: Token,
    pub value: ExprTree,
}

/// A struct, with the word `struct`, and the semicolon behind it if it is written.
#[derive(Debug, Drop)]
pub struct StructTree {
    pub access: Option<AccessTree>,
    pub word: Token,
    pub name: Token,
    pub params: List<ParamTree>,
    pub bases: List<TypeTree>,
    pub wheres: List<WhereTree>,
    pub members: List<MemberTree>,
    pub semicolon: Option<Token>,
}

/// An interface, with the word `interface`, and the semicolon behind it if it is written.
#[derive(Debug, Drop)]
pub struct InterfaceTree {
    pub access: Option<AccessTree>,
    pub word: Token,
    pub name: Token,
    pub bases: List<TypeTree>,
    pub items: List<ItemTree>,
    pub semicolon: Option<Token>,
}

/// An extension of a type, with the word `extension`, and the semicolon behind it if it is written.
#[derive(Debug, Drop)]
pub struct ExtensionTree {
    pub access: Option<AccessTree>,
    pub word: Token,
    pub type_: TypeTree,
    pub bases: List<TypeTree>,
    pub members: List<MemberTree>,
    pub semicolon: Option<Token>,
}

/// A kind of buffers.
#[derive(Clone, Copy, Debug, PartialEq, Eq)]
pub enum BufferKind {
    /// `StructuredBuffer`.
    ReadOnly,
    /// `RWStructuredBuffer`.
    ReadWrite,
}

/// `[[vk::binding(NUMBER, SET)]]`, with the first opening bracket, and the set if it is written.
#[derive(Debug, Drop)]
pub struct BindingTree {
    pub opening: Token,
    pub number: Token,
    pub set: Option<Token>,
}

/// A buffer, with the word of its kind.
#[derive(Debug, Drop)]
pub struct BufferTree {
    pub binding: Option<BindingTree>,
    pub access: Option<AccessTree>,
    pub kind: BufferKind,
    pub word: Token,
    pub element: TypeTree,
    pub name: Token,
}

/// An attribute of a function, with its opening bracket and its word.
#[derive(Debug, Drop)]
pub enum AttrTree {
    /// `[shader(STAGE)]`.
    Shader {
        opening: Token,
        word: Token,
        stage: Token,
    },
    /// `[numthreads(X, Y, Z)]`.
    NumThreads {
        opening: Token,
        word: Token,
        x: Token,
        y: Token,
        z: Token,
    },
}

/// A function.
#[derive(Debug, Drop)]
pub struct FunctionTree {
    pub attrs: List<AttrTree>,
    pub access: Option<AccessTree>,
    pub type_: TypeTree,
    pub name: Token,
    pub params: List<ParamTree>,
    pub args: List<ArgTree>,
    pub wheres: List<WhereTree>,
    pub body: BlockTree,
}

/// A declaration by its form.
#[derive(Debug, Drop)]
pub enum DeclTree {
    /// An import.
    Import(ImportTree),
    /// An alias.
    Alias(AliasTree),
    /// A constant.
    Const(ConstTree),
    /// A struct.
    Struct(StructTree),
    /// An interface.
    Interface(InterfaceTree),
    /// An extension.
    Extension(ExtensionTree),
    /// A buffer.
    Buffer(BufferTree),
    /// A function.
    Function(FunctionTree),
}

/// A module: its name behind the word `module`, if that is written, and its declarations in order.
#[derive(Debug, Drop)]
pub struct ModuleTree {
    pub name: Option<Token>,
    pub decls: List<DeclTree>,
}

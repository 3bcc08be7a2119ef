//! What scopes declare.

ghost use Rattle.std.specs.Prelude.{◌≡◌, ℕ, true, false, List, [], ◌∷◌, map, IfOk, OnOk};
ghost use Rattle.std.specs.List.{flat_map};
ghost use Rattle.def_module.specs.Scopes.{args_scope, block_names, decl_names, item_names, local_names, member_names, params_scope, single, start_names, stmt_names};
ghost use Rattle.sl_token.specs.View.{token_in};
ghost use Rattle.sl_tree.specs.DeclView.{arg_in, decl_in, item_in, member_in, param_in};
ghost use Rattle.sl_tree.specs.View.{declarator_in, local_in, start_in, stmt_in, stmts_of};
ghost use Rattle.sl_scopes.specs.Names.{Adds, Declares, declared_in};

use sl_base::{List, NoMemory};
use sl_token::Token;
use sl_tree::{
    ArgTree, DeclTree, Declarator, ItemTree, LocalTree, MemberTree, ParamTree, StartTree, StmtTree,
};
use std::alloc::Global;

/// A name that is declared, and whether it is that of a function, a method or a requirement.
#[derive(Clone, Copy, Debug, PartialEq, Eq)]
pub struct Declared {
    pub name: Token,
    pub overloads: bool,
}

impl Declared {
    /// A name of a function, a method or a requirement.
    pub fn called(name: Token) -> Declared
        ensures { result ≡ record { name = name; overloads = true } }
    {
        Declared {
            name,
            overloads: true,
        }
    }

    /// Another name.
    pub fn single(name: Token) -> Declared
        ensures { result ≡ record { name = name; overloads = false } }
    {
        Declared {
            name,
            overloads: false,
        }
    }
}

/// What a module declares.
pub fn names_of_decls(alloc: Global, decls: &[DeclTree]) -> Result<List<Declared>, NoMemory>
    ensures { IfOk result
        (Declares (λ source. flat_map decl_names (map (decl_in source) decls.now))) }
{
    let mut names = List::new(alloc);
    for decl in decls {
        note_decl(&mut names, decl)?;
    }
    Ok(names)
}

/// What the members of a struct or an extension declare.
pub fn names_of_members(alloc: Global, members: &[MemberTree]) -> Result<List<Declared>, NoMemory>
    ensures { IfOk result
        (Declares (λ source. flat_map member_names (map (member_in source) members.now))) }
{
    let mut names = List::new(alloc);
    for member in members {
        note_member(&mut names, member)?;
    }
    Ok(names)
}

/// What the items of an interface declare.
pub fn names_of_items(alloc: Global, items: &[ItemTree]) -> Result<List<Declared>, NoMemory>
    ensures { IfOk result
        (Declares (λ source. flat_map item_names (map (item_in source) items.now))) }
{
    let mut names = List::new(alloc);
    for item in items {
        names.push(name_of_item(item))?;
    }
    Ok(names)
}

/// The names of type parameters.
pub fn names_of_params(alloc: Global, params: &[ParamTree]) -> Result<List<Declared>, NoMemory>
    ensures { IfOk result
        (Declares (λ source. params_scope (map (param_in source) params.now))) }
{
    let mut names = List::new(alloc);
    for param in params {
        names.push(Declared::single(param.name))?;
    }
    Ok(names)
}

/// The names of parameters.
pub fn names_of_args(alloc: Global, args: &[ArgTree]) -> Result<List<Declared>, NoMemory>
    ensures { IfOk result (Declares (λ source. args_scope (map (arg_in source) args.now))) }
{
    let mut names = List::new(alloc);
    for arg in args {
        names.push(Declared::single(arg.name))?;
    }
    Ok(names)
}

/// What the statements of a block declare in it.
pub fn names_of_stmts(alloc: Global, stmts: &[StmtTree]) -> Result<List<Declared>, NoMemory>
    ensures { IfOk result
        (Declares (λ source. block_names (stmts_of (map (stmt_in source) stmts.now)))) }
{
    let mut names = List::new(alloc);
    for stmt in stmts {
        note_stmt(&mut names, stmt)?;
    }
    Ok(names)
}

/// What a statement declares in the scope where it stands.
pub fn names_of_stmt(alloc: Global, stmt: &StmtTree) -> Result<List<Declared>, NoMemory>
    ensures { IfOk result (Declares (λ source. stmt_names (stmt_in source stmt.now))) }
{
    let mut names = List::new(alloc);
    note_stmt(&mut names, stmt)?;
    Ok(names)
}

/// What the head of a `for` declares.
pub fn names_of_start(alloc: Global, start: &StartTree) -> Result<List<Declared>, NoMemory>
    ensures { IfOk result (Declares (λ source. start_names (start_in source start.now))) }
{
    let mut names = List::new(alloc);
    match start {
        StartTree::LocalStart(local) => note_local(&mut names, local)?,
        StartTree::NoStart | StartTree::SimpleStart(_) => {}
    }
    Ok(names)
}

// Notes what a declaration declares in its module.
fn note_decl(names: &mut List<Declared>, decl: &DeclTree) -> Result<(), NoMemory>
    ensures { OnOk result
        (Adds (λ source. decl_names (decl_in source decl.now)) names.old names.new) }
{
    match decl {
        DeclTree::Import(_) | DeclTree::Extension(_) => Ok(()),
        DeclTree::Alias(alias) => names.push(Declared::single(alias.name)),
        DeclTree::Const(constant) => names.push(Declared::single(constant.name)),
        DeclTree::Struct(structure) => names.push(Declared::single(structure.name)),
        DeclTree::Interface(interface) => names.push(Declared::single(interface.name)),
        DeclTree::Buffer(buffer) => names.push(Declared::single(buffer.name)),
        DeclTree::Function(function) => names.push(Declared::called(function.name)),
    }
}

// Notes what a member declares.
fn note_member(names: &mut List<Declared>, member: &MemberTree) -> Result<(), NoMemory>
    ensures { OnOk result
        (Adds (λ source. member_names (member_in source member.now)) names.old names.new) }
{
    match member {
        MemberTree::Field(field) => note_fields(names, field.names.as_slice()),
        MemberTree::Method(method) => names.push(Declared::called(method.tail.name)),
        MemberTree::Alias(alias) => names.push(Declared::single(alias.name)),
    }
}

// Notes the names of fields.
fn note_fields(names: &mut List<Declared>, fields: &[Token]) -> Result<(), NoMemory>
    ensures { OnOk result
        (Adds (λ source. map single (map (token_in source) fields.now)) names.old names.new) }
{
    for field in fields {
        names.push(Declared::single(*field))?;
    }
    Ok(())
}

// What an item of an interface declares.
fn name_of_item(item: &ItemTree) -> Declared
    ensures { (source : List ℕ) →
        declared_in source result ∷ [] ≡ item_names (item_in source item.now) }
{
    match item {
        ItemTree::Require(require) => Declared::called(require.head.tail.name),
        ItemTree::Assoc(assoc) => Declared::single(assoc.name),
    }
}

// Notes what a statement declares in the scope where it stands.
#[tactic(auto, using(crate::proofs::Forms::name_forms))]
fn note_stmt(names: &mut List<Declared>, stmt: &StmtTree) -> Result<(), NoMemory>
    ensures { OnOk result
        (Adds (λ source. stmt_names (stmt_in source stmt.now)) names.old names.new) }
{
    match stmt {
        StmtTree::Local(local) => note_local(names, local),
        StmtTree::Block(_, _)
        | StmtTree::Simple(_)
        | StmtTree::Empty(_)
        | StmtTree::Return(_, _)
        | StmtTree::Break(_)
        | StmtTree::Continue(_)
        | StmtTree::If(_, _, _)
        | StmtTree::IfElse(_, _, _, _)
        | StmtTree::While(_, _, _)
        | StmtTree::For(_, _, _, _, _) => Ok(()),
    }
}

// Notes what a local declares.
fn note_local(names: &mut List<Declared>, local: &LocalTree) -> Result<(), NoMemory>
    ensures { OnOk result
        (Adds (λ source. local_names (local_in source local.now)) names.old names.new) }
{
    match local {
        LocalTree::Typed(_, _, declarators) => note_declarators(names, declarators.as_slice()),
        LocalTree::Inferred(_, _, name, _, _) => names.push(Declared::single(*name)),
    }
}

// Notes the names of a local.
fn note_declarators(names: &mut List<Declared>, declarators: &[Declarator]) -> Result<(), NoMemory>
    ensures { OnOk result (Adds
        (λ source. map (λ declarator. single declarator.name) (map (declarator_in source) declarators.now))
        names.old names.new) }
{
    for declarator in declarators {
        names.push(Declared::single(declarator.name))?;
    }
    Ok(())
}

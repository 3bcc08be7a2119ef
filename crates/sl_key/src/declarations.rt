//! The declarations of a module.

ghost use Rattle.std.specs.Prelude.{◌≡◌, ◌++◌, ◌∷◌, [], ℕ, List, length, Some, None, IfOk, OnOk, IsTrue, if◌then◌else◌};
ghost use Rattle.std.specs.Str.{bytes_eq};
ghost use Rattle.def_module.specs.DeclTree as trees;
ghost use Rattle.std.specs.Option.{IfSome, option_copied, option_map};
ghost use Rattle.def_slang.specs.Name.{is_name};
ghost use Rattle.def_module.specs.Syntax.{Good};
ghost use Rattle.def_built.specs.Told.{told_in};
ghost use Rattle.sl_token.specs.View.{slice_of, token_in};
ghost use Rattle.sl_tree.specs.DeclView.{decl_in, module_in};
ghost use Rattle.sl_key.specs.Index.{IsIndex, IsNamed, number_in};
ghost use Rattle.sl_key.specs.Names.{declared_at, decls_in, key_named, key_of, keys_of, name_of, named_in, path_in};

use crate::key::{Key, Kind};
use crate::path::{DeclPath, Part};
use indexmap::IndexMap;
use sl_base::{Bytes, Name, NameRefusal, NoMemory};
use sl_token::{Token, text_at};
use sl_tree::{DeclTree, ModuleTree};
use sqlite_items::at;
use std::alloc::Global;
use std::marker::Model;

/// The declarations of a module of which nothing is told. Contracts see them as the module's text, which has one tree.
/// Each is found by its name.
#[derive(Drop)]
pub struct Declarations {
    source: Bytes,
    tree: ModuleTree,
    numbers: IndexMap<Vec<u8>, usize>,
}

impl Model for Declarations {
    ghost use Rattle.std.specs.Prelude.{◌≡◌, List, ℕ};
    ghost use Rattle.def_module.specs.Syntax.{Good};
    ghost use Rattle.def_built.specs.Told.{told_in};
    ghost use Rattle.sl_tree.specs.DeclView.{module_in};
    ghost use Rattle.sl_key.specs.Index.{IsIndex};

    ghost Value = { List ℕ };

    ghost view = { λ d. d.source };

    ghost invariant = { λ d. (told_in d.source ≡ Good (module_in d.source d.tree))
        × IsIndex (module_in d.source d.tree).decls d.numbers.entries };
}

impl Declarations {
    /// The declarations of a text, of which this is the tree.
    pub fn new(alloc: Global, source: Bytes, tree: ModuleTree) -> Result<Declarations, NoMemory>
        requires { told_in source ≡ Good (module_in source tree) }
        ensures { IfOk result (λ d. d ≡ source) }
    {
        let mut numbers = IndexMap::new(alloc);
        for (number, decl) in tree.decls.as_slice().iter().enumerate() {
            enter(alloc, source.as_slice(), &mut numbers, number, decl)?;
        }
        Ok(Declarations {
            source,
            tree,
            numbers,
        })
    }

    /// The bytes of a token of the module.
    pub fn text(&self, token: Token) -> &[u8]
        ensures { result.now ≡ slice_of self.now token.span }
    {
        text_at(self.source.as_slice(), token.span)
    }

    /// The declaration to which a path leads from the module.
    pub fn find_at(&self, parts: &[Part]) -> Option<&DeclTree>
        ensures { option_map (decl_in self.now) (option_copied result) ≡ declared_at (decls_in self.now) parts.now }
    {
        match parts {
            [part] if part.nth == 0 => self.find(part.name.bytes()),
            _ => None,
        }
    }

    /// The key for which a name stands in the module.
    pub fn key_named(
        &self,
        alloc: Global,
        module: &Name,
        name: &[u8],
    ) -> Result<Option<Key>, NoMemory>
        ensures { IfOk result (λ key. key ≡ key_named module.now (decls_in self.now) name.now) }
    {
        match self.find(name) {
            Some(decl) => self.key_of(alloc, module, decl),
            None => Ok(None),
        }
    }

    /// Puts the keys of the declarations behind others, in order.
    pub fn add_keys(
        &self,
        alloc: Global,
        module: &Name,
        keys: &mut Vec<Key>,
    ) -> Result<(), NoMemory>
        ensures { OnOk result (keys.new.items ≡ keys.old.items ++ keys_of module.now (decls_in self.now)) }
    {
        for decl in self.tree.decls.as_slice() {
            if let Some(key) = self.key_of(alloc, module, decl)? {
                keys.push(key)?;
            }
        }
        Ok(())
    }

    // The declaration of a name.
    fn find(&self, name: &[u8]) -> Option<&DeclTree>
        ensures value { option_map (decl_in self.now) (option_copied result) ≡ named_in (decls_in self.now) name.now }
        ensures named { IfSome (option_copied result) (λ decl. IsNamed (decl_in self.now decl)) }
    {
        match self.numbers.get(name) {
            Some(number) => at(self.tree.decls.as_slice(), *number),
            None => None,
        }
    }

    // The key of a declaration, if it has one.
    fn key_of(&self, alloc: Global, module: &Name, decl: &DeclTree) -> Result<Option<Key>, NoMemory>
        requires { IsNamed (decl_in self.now decl.now) }
        ensures { IfOk result (λ key. key ≡ key_of module.now (decl_in self.now decl.now)) }
    {
        match decl {
            DeclTree::Alias(alias) => {
                let path = self.path(alloc, module, alias.name)?;
                Ok(Some(Key::of_path(alloc, Kind::Alias, path)))
            }
            DeclTree::Const(constant) => {
                let path = self.path(alloc, module, constant.name)?;
                Ok(Some(Key::of_path(alloc, Kind::Const, path)))
            }
            DeclTree::Import(_)
            | DeclTree::Struct(_)
            | DeclTree::Interface(_)
            | DeclTree::Extension(_)
            | DeclTree::Buffer(_)
            | DeclTree::Function(_) => Ok(None),
        }
    }

    // The path of the declaration of a name at the top of the module.
    fn path(&self, alloc: Global, module: &Name, name: Token) -> Result<DeclPath, NoMemory>
        requires { IsTrue (is_name (slice_of self.now name.span)) }
        ensures { IfOk result (λ path. path ≡ path_in module.now (slice_of self.now name.span)) }
    {
        match Name::new(alloc, self.text(name)) {
            Ok(name) => DeclPath::top(alloc, module, &name),
            Err(NameRefusal::NoMemory) => Err(NoMemory),
            Err(NameRefusal::NotAName) => unreachable!(),
        }
    }
}

// Puts the name of a declaration behind those of the declarations before it, if none of them has it.
fn enter(
    alloc: Global,
    source: &[u8],
    numbers: &mut IndexMap<Vec<u8>, usize>,
    number: usize,
    decl: &DeclTree,
) -> Result<(), NoMemory>
    ensures { OnOk result ((before : List trees.DeclTree) → length before ≡ number → IsIndex before numbers.old.entries
        → IsIndex (before ++ decl_in source.now decl.now ∷ []) numbers.new.entries) }
{
    let Some(token) = name_of(decl) else {
        return Ok(());
    };
    let name = text_at(source, token.span);
    match numbers.get(name) {
        Some(_) => Ok(()),
        None => put(alloc, numbers, name, number),
    }
}

// Puts a name that is not there behind the others.
fn put(
    alloc: Global,
    numbers: &mut IndexMap<Vec<u8>, usize>,
    name: &[u8],
    number: usize,
) -> Result<(), NoMemory>
    requires { number_in name.now numbers.old.entries ≡ None }
    ensures { OnOk result ((other : List ℕ) → number_in other numbers.new.entries
        ≡ (if bytes_eq name.now other then Some number else number_in other numbers.old.entries)) }
{
    let key = Vec::from_slice(alloc, name)?;
    numbers.insert(key, number)?;
    Ok(())
}

/// The name that a declaration declares in its module, if it declares one.
pub fn name_of(decl: &DeclTree) -> Option<Token>
    ensures { (source : List ℕ) → option_map (token_in source) result ≡ name_of (decl_in source decl.now) }
{
    match decl {
        DeclTree::Import(_) | DeclTree::Extension(_) => None,
        DeclTree::Alias(alias) => Some(alias.name),
        DeclTree::Const(constant) => Some(constant.name),
        DeclTree::Struct(structure) => Some(structure.name),
        DeclTree::Interface(interface) => Some(interface.name),
        DeclTree::Buffer(buffer) => Some(buffer.name),
        DeclTree::Function(function) => Some(function.name),
    }
}

//! Keys.

ghost use Rattle.std.specs.Prelude.{◌≡◌, IfOk, refl};
ghost use Rattle.std.specs.Cmp.{partial_equiv_from_equiv};
ghost use Rattle.std.specs.Cmp.Lexicographic.{slice_cmp};
ghost use Rattle.sl_key.specs.Order.{kind_cmp, type_cmp};

use crate::path::DeclPath;
use crate::value::Ty;
use sl_base::{List, Name, NoMemory};
use std::alloc::Global;
use std::cmp::Ordering;

/// The kinds of keys that are built, in the order of the table of kinds.
#[derive(Clone, Copy, Debug, PartialEq, Eq, PartialOrd, Ord, Drop)]
pub enum Kind {
    /// The tree of a module.
    Syntax,
    /// The modules that a module sees.
    Imports,
    /// The type of a type alias.
    Alias,
    /// The value of a constant.
    Const,
}

/// What can be asked: what is known of this kind of the module or declaration to which the path leads,
/// with these type arguments.
#[derive(Debug, Drop)]
pub struct Key {
    /// A module's own keys have a path of no names.
    pub path: DeclPath,
    pub kind: Kind,
    pub args: List<Ty>,
}

impl Key {
    ghost use Rattle.sl_key.specs.Order.{module_key, path_key};

    /// A key of a module.
    pub fn of_module(alloc: Global, kind: Kind, module: &Name) -> Result<Key, NoMemory>
        ensures { IfOk result (λ key. key ≡ module_key kind module.now) }
    {
        let path = DeclPath {
            module: module.copy(alloc)?,
            parts: List::new(alloc),
        };
        Ok(Key::of_path(alloc, kind, path))
    }

    /// A key of what a path leads to, without type arguments. It takes no memory.
    pub fn of_path(alloc: Global, kind: Kind, path: DeclPath) -> Key
        ensures { result ≡ path_key kind path }
    {
        Key {
            path,
            kind,
            args: List::new(alloc),
        }
    }

    /// An equal key, with names of its own.
    pub fn copy(&self, alloc: Global) -> Result<Key, NoMemory>
        ensures { IfOk result (λ key. key ≡ self.now) }
    {
        Ok(Key {
            path: self.path.copy(alloc)?,
            kind: self.kind,
            args: List::from_slice(alloc, self.args.as_slice())?,
        })
    }
}

impl PartialEq for Key {
    ghost use Rattle.std.specs.Ordering.{eq_by_cmp};
    ghost use Rattle.sl_key.specs.Order.{key_cmp};
    ghost use Rattle.sl_key.specs.Ordered.{key_equivalence};

    ghost eq = { eq_by_cmp key_cmp };

    ghost laws = { partial_equiv_from_equiv key_equivalence };

    fn eq(&self, other: &Key) -> bool {
        self.cmp(other) == Ordering::Equal
    }
}

impl Eq for Key {
    ghost use Rattle.sl_key.specs.Ordered.{key_equivalence};

    ghost laws = { key_equivalence };
}

impl PartialOrd for Key {
    ghost use Rattle.std.specs.Ordering.{as_partial_cmp};
    ghost use Rattle.sl_key.specs.Order.{key_cmp};
    ghost use Rattle.sl_key.specs.Ordered.{key_partial};

    ghost partial_cmp = { as_partial_cmp key_cmp };

    ghost laws = { key_partial };

    fn partial_cmp(&self, other: &Key) -> Option<Ordering> {
        Some(self.cmp(other))
    }
}

impl Ord for Key {
    ghost use Rattle.sl_key.specs.Order.{key_cmp};
    ghost use Rattle.sl_key.specs.Ordered.{key_total};

    ghost cmp = { key_cmp };

    ghost total = { key_total };

    ghost matches_partial_cmp = { λ a b. refl };

    ghost matches_eq = { λ a b. refl };

    fn cmp(&self, other: &Key) -> Ordering {
        let module = self.path.module.cmp(&other.path.module);
        let parts = self.path.parts.as_slice().cmp(other.path.parts.as_slice());
        let kind = compare_kinds(self.kind, other.kind);
        let args = compare_types(self.args.as_slice(), other.args.as_slice());
        module.then(parts.then(kind.then(args)))
    }
}

// How two kinds are ordered.
fn compare_kinds(one: Kind, other: Kind) -> Ordering
    ensures { result ≡ kind_cmp one other }
{
    one.cmp(&other)
}

// How two lists of types are ordered.
fn compare_types(one: &[Ty], other: &[Ty]) -> Ordering
    ensures { result ≡ slice_cmp type_cmp one.now other.now }
{
    one.cmp(other)
}

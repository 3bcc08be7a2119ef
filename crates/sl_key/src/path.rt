//! Paths of declarations.

ghost use Rattle.std.specs.Prelude.{◌≡◌, IfOk};
ghost use Rattle.std.proofs.Common.{rules};
ghost use Rattle.std.specs.Cmp.{partial_order_from_own_ties};
ghost use Rattle.std.specs.Cmp.Rules.{comparing};

use sl_base::{Bytes, List, Name, NoMemory};
use std::alloc::Global;
use std::cmp::Ordering;

/// One step of a path: a name, and which of the declarations of this name in its scope, from 0.
#[derive(Debug, Drop)]
pub struct Part {
    pub name: Name,
    pub nth: u32,
}

/// The path of a declaration: its module, and the names from there.
#[derive(Debug, Drop)]
pub struct DeclPath {
    pub module: Name,
    pub parts: List<Part>,
}

impl Part {
    /// An equal part, with a name of its own.
    pub fn copy(&self, alloc: Global) -> Result<Part, NoMemory>
        ensures { IfOk result (λ part. part ≡ self.now) }
    {
        Ok(Part {
            name: self.name.copy(alloc)?,
            nth: self.nth,
        })
    }
}

impl DeclPath {
    ghost use Rattle.sl_key.specs.Names.{path_in, path_text};

    /// The path of the declaration of a name at the top of a module.
    pub fn top(alloc: Global, module: &Name, name: &Name) -> Result<DeclPath, NoMemory>
        ensures { IfOk result (λ path. path ≡ path_in module.now name.now) }
    {
        let mut parts = List::new(alloc);
        parts.push(Part {
            name: name.copy(alloc)?,
            nth: 0,
        })?;
        Ok(DeclPath {
            module: module.copy(alloc)?,
            parts,
        })
    }

    /// How a path is told: its module and its names.
    pub fn text(&self, alloc: Global) -> Result<Bytes, NoMemory>
        ensures { IfOk result (λ text. text ≡ path_text self.now) }
    {
        let mut text = Bytes::from_slice(alloc, self.module.bytes())?;
        for part in self.parts.as_slice() {
            text.push(b'.')?;
            text.extend_from_slice(part.name.bytes())?;
        }
        Ok(text)
    }

    /// An equal path, with names of its own.
    pub fn copy(&self, alloc: Global) -> Result<DeclPath, NoMemory>
        ensures { IfOk result (λ path. path ≡ self.now) }
    {
        let mut parts = List::new(alloc);
        for part in self.parts.as_slice() {
            parts.push(part.copy(alloc)?)?;
        }
        Ok(DeclPath {
            module: self.module.copy(alloc)?,
            parts,
        })
    }
}

impl PartialEq for Part {
    ghost use Rattle.std.specs.Ordering.{eq_by_cmp};
    ghost use Rattle.sl_key.specs.Order.{part_cmp};

    ghost eq = { eq_by_cmp part_cmp };

    ghost laws = { Prim.search (comparing, rules) };

    fn eq(&self, other: &Part) -> bool {
        self.cmp(other) == Ordering::Equal
    }
}

impl Eq for Part {
    ghost laws = { Prim.search (comparing, rules) };
}

impl PartialOrd for Part {
    ghost use Rattle.std.specs.Ordering.{as_partial_cmp};
    ghost use Rattle.sl_key.specs.Order.{part_cmp};

    ghost partial_cmp = { as_partial_cmp part_cmp };

    ghost laws = { partial_order_from_own_ties (Prim.search (comparing, rules)) (Prim.search (comparing, rules)) };

    fn partial_cmp(&self, other: &Part) -> Option<Ordering> {
        Some(self.cmp(other))
    }
}

impl Ord for Part {
    ghost use Rattle.sl_key.specs.Order.{part_cmp};

    ghost cmp = { part_cmp };

    ghost total = { Prim.search (comparing, rules) };

    ghost matches_partial_cmp = { Prim.search (comparing, rules) };

    ghost matches_eq = { Prim.search (comparing, rules) };

    fn cmp(&self, other: &Part) -> Ordering {
        self.name.cmp(&other.name).then(self.nth.cmp(&other.nth))
    }
}

//! Sources that were loaded.

ghost use Rattle.std.specs.Prelude.{◌≡◌, Some, None, IfSome, IsNone};
ghost use Rattle.std.specs.List.{list_any};
ghost use Rattle.std.specs.Str.{bytes_eq};
ghost use Rattle.sl_io.specs.Root.{bytes_of};

use crate::held::bytes_of;
use sl_base::{Bytes, List, Name};
use std::alloc::Global;

/// The modules with their bytes, in the order in which they were found, and the names that no root
/// has, in the order in which they were taken.
#[derive(Debug, Drop)]
pub struct SourceSet {
    pub modules: List<(Name, Bytes)>,
    pub absent: List<Name>,
}

impl SourceSet {
    ghost use Rattle.def_sources.specs.Sources.{names_of, nothing};
    ghost use Rattle.sl_roots.specs.Load.{sources_of};

    /// The set without any names, which takes no memory.
    pub fn new(alloc: Global) -> SourceSet
        ensures { sources_of result ≡ nothing }
    {
        SourceSet {
            modules: List::new(alloc),
            absent: List::new(alloc),
        }
    }

    /// The bytes of the module with a name, if there is one.
    pub fn bytes_of(&self, name: &Name) -> Option<&[u8]>
        ensures some { IfSome result (λ bytes. bytes_of self.now.modules name.now ≡ Some bytes.now) }
        ensures none { IsNone result → bytes_of self.now.modules name.now ≡ None }
    {
        bytes_of(&self.modules, name)
    }

    /// Whether a name is that of a module or is absent.
    pub fn has(&self, name: &Name) -> bool
        ensures { result ≡ list_any (bytes_eq name.now) (names_of (sources_of self.now)) }
    {
        self.has_module(name) || self.has_absent(name)
    }

    fn has_module(&self, name: &Name) -> bool
        ensures { result ≡ list_any (λ file. bytes_eq name.now file.0) self.now.modules }
    {
        let modules = self.modules.as_slice();
        modules.iter().any(|file| name.bytes() == file.0.bytes())
    }

    fn has_absent(&self, name: &Name) -> bool
        ensures { result ≡ list_any (bytes_eq name.now) self.now.absent }
    {
        let absent = self.absent.as_slice();
        absent.iter().any(|other| name.bytes() == other.bytes())
    }
}

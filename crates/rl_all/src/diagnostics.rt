//! Diagnostics that are made here.

ghost use Rattle.std.specs.Prelude.{◌≡◌, IfOk};
ghost use Rattle.def_check.specs.Syntax.{diagnostic};
ghost use Rattle.sl_base.specs.declared.diag.Site.TheVariants.{Request};
ghost use Rattle.sl_key.specs.Fault.{told_at};
ghost use Rattle.sl_key.specs.declared.fault.Fault.TheVariants.{NoModule};

use sl_base::{Bytes, Diag, List, Name, NoMemory, Place, Site};
use sl_key::Fault;
use std::alloc::Global;

/// A diagnostic at a place of a module.
pub fn diagnostic(
    alloc: Global,
    name: &Name,
    place: Place,
    code: u16,
    args: List<Bytes>,
) -> Result<Diag, NoMemory>
    ensures { IfOk result (λ told. told ≡ diagnostic name.now place code args) }
{
    let site = Site::Source {
        module: name.copy(alloc)?,
        place,
    };
    Ok(Diag { site, code, args })
}

/// There is no module of this name.
pub fn no_module(alloc: Global, name: &Name) -> Result<Diag, NoMemory>
    ensures { IfOk result (λ told. told ≡ told_at Request (NoModule name.now)) }
{
    let fault = Fault::NoModule(Bytes::from_slice(alloc, name.bytes())?);
    fault.told(alloc, Site::Request)
}

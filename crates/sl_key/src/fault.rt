//! Which rule is broken.

ghost use Rattle.std.specs.Prelude.{◌≡◌, ◌∷◌, [], IfOk, IsTrue, length};
ghost use Rattle.def_slang.specs.Diagnostic.{takes};
ghost use Rattle.sl_key.specs.Fault.{args_of, code_of, told_at};

use crate::value::{Arithmetic, Ty};
use sl_base::{Bytes, Diag, List, NoMemory, Site, code};
use std::alloc::Global;

/// Which rule is broken.
#[derive(Debug, Drop)]
pub enum Fault {
    /// A form is not built yet.
    NotBuilt,
    /// The sources have no module of this name.
    NoModule(Bytes),
    /// Nothing of this name is declared.
    UnknownName(Bytes),
    /// A value of the first type is no value of the second one.
    NoConversion(Ty, Ty),
    /// This name stands for no type.
    NotAType(Bytes),
    /// This name stands for no value.
    NotAValue(Bytes),
    /// The operator does not take this type.
    NotTaken(Arithmetic, Ty),
}

impl Fault {
    /// The diagnostic that tells this at a site.
    pub fn told(self, alloc: Global, site: Site) -> Result<Diag, NoMemory>
        ensures is { IfOk result (λ told. told ≡ told_at site self) }
        ensures fits { IfOk result (λ told. IsTrue (takes told.code (length told.args))) }
    {
        let code = self.code();
        let args = self.args(alloc)?;
        Ok(Diag { site, code, args })
    }

    // The code of the diagnostic.
    fn code(&self) -> u16
        ensures { result ≡ code_of self.now }
    {
        match self {
            Fault::NotBuilt => code::FORM_NOT_BUILT,
            Fault::NoModule(_) => code::NO_MODULE,
            Fault::UnknownName(_) => code::UNKNOWN_NAME,
            Fault::NoConversion(_, _) => code::NO_CONVERSION,
            Fault::NotAType(_) => code::NOT_A_TYPE,
            Fault::NotAValue(_) => code::NOT_A_VALUE,
            Fault::NotTaken(_, _) => code::OPERATOR_NOT_TAKEN,
        }
    }

    // The arguments of the diagnostic.
    fn args(self, alloc: Global) -> Result<List<Bytes>, NoMemory>
        ensures { IfOk result (λ args. args ≡ args_of self) }
    {
        match self {
            Fault::NotBuilt => Ok(List::new(alloc)),
            Fault::NoModule(name)
            | Fault::UnknownName(name)
            | Fault::NotAType(name)
            | Fault::NotAValue(name) => one_arg(alloc, name),
            Fault::NoConversion(from, to) => two_args(alloc, from.text(), to.text()),
            Fault::NotTaken(operator, ty) => two_args(alloc, operator.mark(), ty.text()),
        }
    }
}

// A list of one argument.
fn one_arg(alloc: Global, arg: Bytes) -> Result<List<Bytes>, NoMemory>
    ensures { IfOk result (λ args. args ≡ arg ∷ []) }
{
    let mut args = List::new(alloc);
    args.push(arg)?;
    Ok(args)
}

// A list of two arguments.
fn two_args(alloc: Global, first: &str, second: &str) -> Result<List<Bytes>, NoMemory>
    ensures { IfOk result (λ args. args ≡ first.now ∷ second.now ∷ []) }
{
    let mut args = List::new(alloc);
    args.push(Bytes::from_slice(alloc, first.as_bytes())?)?;
    args.push(Bytes::from_slice(alloc, second.as_bytes())?)?;
    Ok(args)
}

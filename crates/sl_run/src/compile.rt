//! What a text compiles to.

ghost use Rattle.std.specs.Prelude.{◌≡◌, IfOk};
ghost use Rattle.def_slang.specs.BufferWrite.{IsAllowed};
ghost use Rattle.def_spirv.specs.Words.{spelling};
ghost use Rattle.def_emit.specs.Emit.{emitted};
ghost use Rattle.def_emit.specs.Lower.{program_of};
ghost use Rattle.sl_run.specs.Compile.{input_name, no_entry_point, not_built, Compiles};
ghost use Rattle.sl_run.specs.Reading.{write_of};

use crate::buffer_write::BufferWrite;
use crate::module::module;
use crate::reply_text::diagnostic_line;
use sl_base::{Bytes, Diag, List, Name, NameRefusal, NoMemory, Place, Site, code};
use sp_words::encode;
use std::alloc::Global;

/// The bytes of a module's words, or the lines of diagnostics.
#[derive(Debug, Drop)]
pub enum Compilation {
    Code(Bytes),
    Diagnostics(Bytes),
}

/// What a text compiles to, for the name of an entry point.
pub fn compile(alloc: Global, entry: &[u8], text: &[u8]) -> Result<Compilation, NoMemory>
    ensures { IfOk result (Compiles entry.now text.now) }
{
    match BufferWrite::read(alloc, text)? {
        Some(write) if write.entry == entry => Ok(Compilation::Code(code_of(alloc, &write)?)),
        Some(_) => {
            let diagnostic = no_entry_point(alloc, entry)?;
            Ok(Compilation::Diagnostics(diagnostic_line(alloc, &diagnostic)?))
        }
        None => {
            let diagnostic = not_built(alloc)?;
            Ok(Compilation::Diagnostics(diagnostic_line(alloc, &diagnostic)?))
        }
    }
}

/// The bytes of the words that a module compiles to.
fn code_of(alloc: Global, write: &BufferWrite) -> Result<Bytes, NoMemory>
    requires { IsAllowed (write_of write.now) }
    ensures { IfOk result (λ bytes.
        bytes ≡ spelling (emitted (program_of (write_of write.now)))) }
{
    let words = module(alloc, write)?;
    encode(alloc, &words)
}

/// The module has no entry point of this name.
fn no_entry_point(alloc: Global, entry: &[u8]) -> Result<Diag, NoMemory>
    ensures { IfOk result (λ diagnostic. diagnostic ≡ no_entry_point entry.now) }
{
    let mut args = List::new(alloc);
    args.push(Bytes::from_slice(alloc, entry)?)?;
    args.push(Bytes::from_slice(alloc, INPUT)?)?;
    Ok(Diag {
        site: Site::Request,
        code: code::NO_ENTRY_POINT,
        args,
    })
}

/// The module has a form that is not built.
fn not_built(alloc: Global) -> Result<Diag, NoMemory>
    ensures { IfOk result (λ diagnostic. diagnostic ≡ not_built) }
{
    Ok(Diag {
        site: Site::Source {
            module: input_name(alloc)?,
            place: Place { line: 1, column: 1 },
        },
        code: code::FORM_NOT_BUILT,
        args: List::new(alloc),
    })
}

/// The name of the one module.
const INPUT: &[u8] = b"input";

fn input_name(alloc: Global) -> Result<Name, NoMemory>
    ensures { IfOk result (λ name. name ≡ input_name) }
{
    match Name::new(alloc, INPUT) {
        Ok(name) => Ok(name),
        Err(NameRefusal::NoMemory) => Err(NoMemory),
        Err(NameRefusal::NotAName) => unreachable!(),
    }
}

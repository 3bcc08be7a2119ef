//! Diagnostics and their texts.

ghost use Rattle.std.specs.Prelude.{◌≡◌, IsTrue, IfOk, OnOk, ◌++◌, length, map, codes};
ghost use Rattle.def_slang.specs.Diagnostic.{takes, weave, circle_text, message};
ghost use Rattle.sl_base.specs.Diag.{site_text, diagnostic_text};

use crate::code;
use crate::list::{Bytes, List};
use crate::memory::NoMemory;
use crate::name::Name;
use crate::place::Place;
use crate::texts::pieces_of;
use std::alloc::Global;

/// What a diagnostic speaks of: the request as a whole, or a place in a module's source.
#[derive(Debug, Drop)]
pub enum Site {
    Request,
    Source { module: Name, place: Place },
}

/// A diagnostic: where, which code, and what its text is about, in the order of the text.
#[derive(Debug, Drop)]
pub struct Diag {
    pub site: Site,
    pub code: u16,
    pub args: List<Bytes>,
}

impl Site {
    /// The text that a diagnostic begins with: `request`, or module, line and column.
    fn text(&self, alloc: Global) -> Result<Bytes, NoMemory>
        ensures { IfOk result (λ text. text ≡ site_text self.now) }
    {
        match self {
            Site::Request => Bytes::from_slice(alloc, b"request"),
            Site::Source { module, place } => {
                let mut text = Bytes::from_slice(alloc, module.bytes())?;
                let place = format!(in alloc; ":{}:{}", place.line, place.column)?;
                text.extend_from_slice(place.as_bytes())?;
                Ok(text)
            }
        }
    }
}

impl Diag {
    /// The line of the diagnostic, without a line end, as
    /// `m:2:22: error E302: cannot convert bool to int`. The code is one of the table of texts and
    /// has as many arguments as its text takes. The only error is that memory ran out.
    pub fn text(&self, alloc: Global) -> Result<Bytes, NoMemory>
        requires { IsTrue (takes self.now.code (length self.now.args)) }
        ensures { IfOk result (λ text. text ≡ diagnostic_text self.now) }
    {
        let mut text = self.site.text(alloc)?;
        let code = format!(in alloc; ": error E{}: ", self.code)?;
        text.extend_from_slice(code.as_bytes())?;
        self.push_message(&mut text)?;
        Ok(text)
    }

    /// What the code and its arguments say, as `cannot convert bool to int`. The only error is that
    /// memory ran out.
    pub fn message(&self, alloc: Global) -> Result<Bytes, NoMemory>
        ensures { IfOk result (λ text. text ≡ message self.now.code self.now.args) }
    {
        let mut text = Bytes::new(alloc);
        self.push_message(&mut text)?;
        Ok(text)
    }

    /// Puts what the code and its arguments say at the end.
    fn push_message(&self, text: &mut Bytes) -> Result<(), NoMemory>
        ensures { OnOk result (text.new ≡ text.old ++ message self.now.code self.now.args) }
    {
        let args = self.args.as_slice();
        if self.code == code::CIRCULAR {
            push_circle(text, args)
        } else {
            push_woven(text, pieces_of(self.code), args)
        }
    }
}

/// Puts the queries of a circle at the end, each pointing to the next and the last to the first.
fn push_circle(text: &mut Bytes, queries: &[Bytes]) -> Result<(), NoMemory>
    ensures { OnOk result (text.new ≡ text.old ++ circle_text queries.now) }
{
    text.extend_from_slice(b"circular: ")?;
    let Some((first, others)) = queries.split_first() else {
        return Ok(());
    };
    text.extend_from_slice(first.as_slice())?;
    for query in others {
        push_arrow_to(text, query)?;
    }
    push_arrow_to(text, first)
}

/// Puts an arrow and the query that it points to at the end.
fn push_arrow_to(text: &mut Bytes, query: &Bytes) -> Result<(), NoMemory>
    ensures { OnOk result (text.new ≡ text.old ++ (codes " -> " ++ query.now)) }
{
    text.extend_from_slice(b" -> ")?;
    text.extend_from_slice(query.as_slice())
}

/// Puts pieces and arguments at the end in turn, as far as the pieces go.
fn push_woven(text: &mut Bytes, pieces: &[&str], args: &[Bytes]) -> Result<(), NoMemory>
    ensures { OnOk result
        (text.new ≡ text.old ++ weave (map (λ piece. piece.now) pieces.now) args.now) }
{
    let mut args = args.iter();
    for piece in pieces {
        text.extend_from_slice(piece.as_bytes())?;
        if let Some(arg) = args.next() {
            text.extend_from_slice(arg.as_slice())?;
        }
    }
    Ok(())
}

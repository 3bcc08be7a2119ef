//! Answers.

ghost use Rattle.std.specs.Prelude.{◌≡◌, IfOk};

use crate::declarations::Declarations;
use crate::key::Key;
use crate::shared::Shared;
use crate::value::{Ty, Value};
use qe_rules::{Cycle, Known};
use sl_base::{Bytes, Diag, List, Name, NoMemory, Site};
use std::alloc::Global;

/// What the answer of a key holds, for each kind of key.
#[derive(Drop)]
pub enum Good {
    Syntax(Shared<Declarations>),
    Imports(Shared<List<Name>>),
    Alias(Shared<Ty>),
    Const(Shared<Value>),
}

/// The answer of a key.
#[derive(Drop)]
pub enum Answer {
    /// Nothing is wrong.
    Good(Good),
    /// A rule is broken.
    Bad(Diag),
    /// A key that this one uses is at fault: the one whose answer is `Bad`.
    Spoiled(Shared<Key>),
    /// The key depends on itself, or on keys that do.
    Circular(Shared<Cycle<Key>>),
}

/// The answers that are known.
pub type Facts = Known<Key, Answer>;

impl Good {
    /// The same value once more, which is not made anew.
    pub fn share(&self) -> Result<Good, NoMemory>
        ensures { IfOk result (λ good. good ≡ self.now) }
    {
        match self {
            Good::Syntax(declarations) => Ok(Good::Syntax(declarations.share()?)),
            Good::Imports(modules) => Ok(Good::Imports(modules.share()?)),
            Good::Alias(ty) => Ok(Good::Alias(ty.share()?)),
            Good::Const(value) => Ok(Good::Const(value.share()?)),
        }
    }
}

impl Answer {
    ghost use Rattle.sl_key.specs.declared.answer.Answer.TheVariants.{Circular};

    /// The answer that tells a cycle.
    pub fn circular(alloc: Global, cycle: &Cycle<Key>) -> Result<Answer, NoMemory>
        ensures { IfOk result (λ answer. answer ≡ Circular cycle.now) }
    {
        let keys = copy_keys(alloc, cycle.as_slice())?;
        Ok(Answer::Circular(Shared::new(alloc, Cycle::from_vec(keys))?))
    }

    /// An equal answer, which shares what the other one holds.
    pub fn copy(&self, alloc: Global) -> Result<Answer, NoMemory>
        ensures { IfOk result (λ answer. answer ≡ self.now) }
    {
        match self {
            Answer::Good(good) => Ok(Answer::Good(good.share()?)),
            Answer::Bad(told) => Ok(Answer::Bad(copy_diag(alloc, told)?)),
            Answer::Spoiled(culprit) => Ok(Answer::Spoiled(culprit.share()?)),
            Answer::Circular(cycle) => Ok(Answer::Circular(cycle.share()?)),
        }
    }
}

// Equal keys.
fn copy_keys(alloc: Global, keys: &[Key]) -> Result<Vec<Key>, NoMemory>
    ensures { IfOk result (λ copies. copies.items ≡ keys.now) }
{
    let mut copies = Vec::new(alloc);
    for key in keys {
        copies.push(key.copy(alloc)?)?;
    }
    Ok(copies)
}

/// An equal diagnostic, with bytes of its own.
pub fn copy_diag(alloc: Global, told: &Diag) -> Result<Diag, NoMemory>
    ensures { IfOk result (λ copy. copy ≡ told.now) }
{
    Ok(Diag {
        site: copy_site(alloc, &told.site)?,
        code: told.code,
        args: copy_args(alloc, told.args.as_slice())?,
    })
}

// An equal site.
fn copy_site(alloc: Global, site: &Site) -> Result<Site, NoMemory>
    ensures { IfOk result (λ copy. copy ≡ site.now) }
{
    match site {
        Site::Request => Ok(Site::Request),
        Site::Source { module, place } => Ok(Site::Source {
            module: module.copy(alloc)?,
            place: *place,
        }),
    }
}

// Equal arguments.
fn copy_args(alloc: Global, args: &[Bytes]) -> Result<List<Bytes>, NoMemory>
    ensures { IfOk result (λ copies. copies ≡ args.now) }
{
    let mut copies = List::new(alloc);
    for arg in args {
        copies.push(Bytes::from_slice(alloc, arg.as_slice())?)?;
    }
    Ok(copies)
}

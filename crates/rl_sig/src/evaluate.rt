//! The rules of type aliases and of constants.

ghost use Rattle.std.specs.Prelude.{◌≡◌, IfOk};
ghost use Rattle.def_body.specs.Part.{Reads, run, run_body};
ghost use Rattle.def_check.specs.Body.{alias_at, alias_of, alias_part, const_at, const_of, const_part};
ghost use Rattle.sl_base.specs.declared.diag.Site.TheVariants.{Source};
ghost use Rattle.sl_key.specs.Fault.{first_place, told_at};
ghost use Rattle.sl_key.specs.Flow.{Tells, Value as Given, and_then, hold};
ghost use Rattle.sl_key.specs.Names.{declared_at, path_text};
ghost use Rattle.sl_key.specs.declared.answer.Answer.TheVariants.{Bad};
ghost use Rattle.sl_key.specs.declared.fault.Fault.TheVariants.{UnknownName};
ghost use Rattle.sl_key.specs.declared.flow.Early.TheVariants.{Stop};
ghost use Rattle.sl_key.specs.declared.key.Kind.TheVariants.{Alias, Const};
ghost use Rattle.sl_tree.specs.DeclView.{alias_in, const_in};

use crate::scope::Reader;
use qe_rules::Step;
use sl_base::{NoMemory, Place, Site};
use sl_key::{
    Answer, DeclPath, Early, Facts, Fault, Flow, Good, Key, Shared, Ty, Value, declarations_of,
    finish,
};
use sl_tree::{AliasTree, ConstTree, DeclTree};
use std::alloc::Global;

/// The place of a module as a whole.
const FIRST: Place = Place { line: 1, column: 1 };

/// The body of the key of a type alias: its module's syntax, and then the type that it names.
pub fn alias(alloc: Global, facts: &Facts, path: &DeclPath) -> Result<Step<Key, Answer>, NoMemory>
    ensures { IfOk result (λ step. step ≡ run_body Alias facts.now.pairs (Reads (alias_part path.now))) }
{
    finish(alias_good(alloc, facts, path))
}

/// The body of the key of a constant: its module's syntax, its type, its expression, and the conversion
/// of the expression's value to the type.
pub fn constant(
    alloc: Global,
    facts: &Facts,
    path: &DeclPath,
) -> Result<Step<Key, Answer>, NoMemory>
    ensures { IfOk result (λ step. step ≡ run_body Const facts.now.pairs (Reads (const_part path.now))) }
{
    finish(const_good(alloc, facts, path))
}

// What the alias to which the path leads holds.
fn alias_good(alloc: Global, facts: &Facts, path: &DeclPath) -> Flow<Good>
    ensures { Tells result
        (and_then (run facts.now.pairs (alias_part path.now)) (λ ty. Given (hold Alias ty))) }
{
    let ty = alias_type(alloc, facts, path)?;
    Ok(Good::Alias(Shared::new(alloc, ty)?))
}

// What the constant to which the path leads holds.
fn const_good(alloc: Global, facts: &Facts, path: &DeclPath) -> Flow<Good>
    ensures { Tells result
        (and_then (run facts.now.pairs (const_part path.now)) (λ value. Given (hold Const value))) }
{
    let value = const_value(alloc, facts, path)?;
    Ok(Good::Const(Shared::new(alloc, value)?))
}

// The type of the alias to which the path leads.
fn alias_type(alloc: Global, facts: &Facts, path: &DeclPath) -> Flow<Ty>
    ensures { Tells result (run facts.now.pairs (alias_part path.now)) }
{
    let decls = declarations_of(alloc, facts, &path.module)?;
    let reader = Reader {
        alloc,
        facts,
        module: &path.module,
        decls: decls.get(),
    };
    reader.alias_at(path)
}

// The value of the constant to which the path leads.
fn const_value(alloc: Global, facts: &Facts, path: &DeclPath) -> Flow<Value>
    ensures { Tells result (run facts.now.pairs (const_part path.now)) }
{
    let decls = declarations_of(alloc, facts, &path.module)?;
    let reader = Reader {
        alloc,
        facts,
        module: &path.module,
        decls: decls.get(),
    };
    reader.const_at(path)
}

// The path leads to no declaration of the kind.
fn undeclared(alloc: Global, path: &DeclPath) -> Result<Early, NoMemory>
    ensures { IfOk result (λ early. early
        ≡ Stop (Bad (told_at (Source path.now.module first_place) (UnknownName (path_text path.now))))) }
{
    let site = Site::Source {
        module: path.module.copy(alloc)?,
        place: FIRST,
    };
    let fault = Fault::UnknownName(path.text(alloc)?);
    Ok(Early::Stop(Answer::Bad(fault.told(alloc, site)?)))
}

impl Reader<'_> {
    ghost use Rattle.rl_sig.specs.Reading.{facts_of, scope_of, text_of};

    // The type of the alias to which a path leads.
    fn alias_at(&self, path: &DeclPath) -> Flow<Ty>
        ensures { let scope = scope_of self.now in
            Tells result (run (facts_of self.now) (alias_at scope path.now (declared_at scope.decls path.now.parts))) }
    {
        match self.decls.find_at(path.parts.as_slice()) {
            Some(DeclTree::Alias(alias)) => self.alias_of(alias),
            _ => Err(undeclared(self.alloc, path)?),
        }
    }

    // The type that an alias names.
    fn alias_of(&self, alias: &AliasTree) -> Flow<Ty>
        ensures { let alias = alias_in (text_of self.now) alias.now in
            Tells result (run (facts_of self.now) (alias_of (scope_of self.now) alias)) }
    {
        self.type_written(&alias.type_)
    }

    // The value of the constant to which a path leads.
    fn const_at(&self, path: &DeclPath) -> Flow<Value>
        ensures { let scope = scope_of self.now in
            Tells result (run (facts_of self.now) (const_at scope path.now (declared_at scope.decls path.now.parts))) }
    {
        match self.decls.find_at(path.parts.as_slice()) {
            Some(DeclTree::Const(constant)) => self.const_of(constant),
            _ => Err(undeclared(self.alloc, path)?),
        }
    }

    // The value of a constant.
    #[tactic(auto, using(crate::proofs::Forms::part_forms))]
    fn const_of(&self, constant: &ConstTree) -> Flow<Value>
        ensures { let constant = const_in (text_of self.now) constant.now in
            Tells result (run (facts_of self.now) (const_of (scope_of self.now) constant)) }
    {
        let ty = self.type_written(&constant.type_)?;
        let value = self.value_of(&constant.value)?;
        self.converted_to(ty, &constant.value, value)
    }
}

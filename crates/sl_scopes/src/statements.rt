//! The scopes of statements.

ghost use Rattle.std.specs.Prelude.{map};
ghost use Rattle.def_module.specs.Scopes.{block_scopes, start_names, stmt_scopes};
ghost use Rattle.def_module.specs.Twice.{second_name};
ghost use Rattle.sl_tree.specs.View.{start_in, stmt_in, stmts_of};
ghost use Rattle.sl_scopes.specs.Search.{Ends, braces_scopes, branch_scopes, twice_in};

use crate::declared::{names_of_start, names_of_stmt, names_of_stmts};
use crate::early::Early;
use crate::search::Search;
use sl_tree::{StartTree, StmtTree};

impl Search<'_> {
    /// Looks through statements in braces.
    #[cycle(nested)]
    pub fn braces(&self, stmts: &[StmtTree]) -> Result<(), Early>
        ensures { let source = self.now.source.now in Ends source
            (twice_in (braces_scopes (stmts_of (map (stmt_in source) stmts.now)))) result }
    {
        self.stmts(stmts)?;
        let names = names_of_stmts(self.alloc, stmts)?;
        self.scope(names.as_slice())
    }

    // Looks through the scopes inside statements.
    #[cycle(nested)]
    fn stmts(&self, stmts: &[StmtTree]) -> Result<(), Early>
        ensures { let source = self.now.source.now in Ends source
            (twice_in (block_scopes (stmts_of (map (stmt_in source) stmts.now)))) result }
    {
        for stmt in stmts {
            self.stmt(stmt)?;
        }
        Ok(())
    }

    // Looks through the scopes inside a statement.
    #[cycle(nested)]
    #[tactic(auto, using(crate::proofs::Forms::scope_forms))]
    fn stmt(&self, stmt: &StmtTree) -> Result<(), Early>
        ensures { let source = self.now.source.now in Ends source
            (twice_in (stmt_scopes (stmt_in source stmt.now))) result }
    {
        match stmt {
            StmtTree::Local(_)
            | StmtTree::Simple(_)
            | StmtTree::Empty(_)
            | StmtTree::Return(_, _)
            | StmtTree::Break(_)
            | StmtTree::Continue(_) => Ok(()),
            StmtTree::Block(_, stmts) => self.braces(stmts.as_slice()),
            StmtTree::If(_, _, yes) => self.branch(yes.get()),
            StmtTree::IfElse(_, _, yes, no) => {
                self.branch(yes.get())?;
                self.branch(no.get())
            }
            StmtTree::While(_, _, body) => self.branch(body.get()),
            StmtTree::For(_, start, _, _, body) => {
                self.start(start)?;
                self.branch(body.get())
            }
        }
    }

    // Looks through a statement that is itself a scope.
    #[cycle(nested)]
    fn branch(&self, stmt: &StmtTree) -> Result<(), Early>
        ensures { let source = self.now.source.now in Ends source
            (twice_in (branch_scopes (stmt_in source stmt.now))) result }
    {
        self.stmt(stmt)?;
        let names = names_of_stmt(self.alloc, stmt)?;
        self.scope(names.as_slice())
    }

    // Looks through the head of a `for`.
    fn start(&self, start: &StartTree) -> Result<(), Early>
        ensures { let source = self.now.source.now in Ends source
            (second_name (start_names (start_in source start.now))) result }
    {
        let names = names_of_start(self.alloc, start)?;
        self.scope(names.as_slice())
    }
}

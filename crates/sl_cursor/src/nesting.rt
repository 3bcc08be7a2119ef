//! How many forms of each kind are open.

ghost use Rattle.std.specs.Prelude.{◌≡◌, ◌+◌, ◌<◌, ◌^◌};

/// How many forms of each kind are open at a place.
#[derive(Clone, Copy, Debug)]
pub struct Nesting {
    /// Round and square brackets.
    pub brackets: usize,
    /// Blocks of statements.
    pub blocks: usize,
    /// Operators before their operands.
    pub unary: usize,
    /// Types.
    pub types: usize,
    /// Statements behind `if (..)`, `else`, `while (..)` and `for (..)`.
    pub statements: usize,
    ghost few: { brackets < 2 ^ 62 },
}

impl Nesting {
    ghost use Rattle.def_tree.specs.Limits as lists;
    ghost use Rattle.sl_cursor.specs.Nestings.{nesting_in};

    /// As many forms of each kind are open.
    pub fn all(depth: u32) -> Nesting
        ensures { nesting_in result ≡ lists.all_open depth }
    {
        let many = depth as usize;
        Nesting {
            brackets: many,
            blocks: many,
            unary: many,
            types: many,
            statements: many,
        }
    }

    /// One more bracket is open.
    pub fn in_bracket(&self) -> Nesting
        requires { self.now.brackets + 1 < 2 ^ 62 }
        ensures { nesting_in result ≡ lists.in_bracket (nesting_in self.now) }
    {
        Nesting {
            brackets: self.brackets + 1,
            blocks: self.blocks,
            unary: self.unary,
            types: self.types,
            statements: self.statements,
        }
    }

    /// One more block is open.
    pub fn in_block(&self) -> Nesting
        requires { self.now.blocks + 1 < 2 ^ 64 }
        ensures nesting { nesting_in result ≡ lists.in_block (nesting_in self.now) }
        ensures blocks { result.blocks ≡ self.now.blocks + 1 }
        ensures statements { result.statements ≡ self.now.statements }
        ensures brackets { result.brackets ≡ self.now.brackets }
    {
        Nesting {
            brackets: self.brackets,
            blocks: self.blocks + 1,
            unary: self.unary,
            types: self.types,
            statements: self.statements,
        }
    }

    /// One more statement is open.
    pub fn in_statement(&self) -> Nesting
        requires { self.now.statements + 1 < 2 ^ 64 }
        ensures nesting { nesting_in result ≡ lists.in_statement (nesting_in self.now) }
        ensures blocks { result.blocks ≡ self.now.blocks }
        ensures statements { result.statements ≡ self.now.statements + 1 }
        ensures brackets { result.brackets ≡ self.now.brackets }
    {
        Nesting {
            brackets: self.brackets,
            blocks: self.blocks,
            unary: self.unary,
            types: self.types,
            statements: self.statements + 1,
        }
    }
}

// Phases of statements.
use js_heap::ScopeId;

/// How far a statement is. A node and its phase give its row.
#[derive(Clone, Copy)]
pub enum StmtPhase {
    /// As the statement begins.
    Begun,
    /// A `var` at the initialiser of the declarator at this place (ECMA-262 edition 5.1, 12.2).
    Declared(usize),
    /// A loop's phases (12.6.1 to 12.6.3).
    LoopStart,
    LoopTest,
    LoopBody,
    LoopUpdate,
    /// A for-in behind so many of its names (12.6.4).
    Names(usize),
    /// A switch at the test of the clause at this place (12.11).
    Case(usize),
    /// A switch in its statements.
    Clauses,
    /// A try in its catch, which runs in this scope (12.14).
    Catch(ScopeId),
    /// A try in its `finally`.
    Finally,
    /// The body of a function (13.2.1).
    Body,
}

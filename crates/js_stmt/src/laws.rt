// What holds of statements by the definitions. These functions do nothing: their clauses are the
// laws.
ghost use Rattle.std.specs.Prelude.{◌≡◌, ◌<◌, ℕ, true, false, List, Option, Some, length};
ghost use Rattle.js_heap.specs.declared.class.ScopeId.{ScopeId as Scope};
ghost use Rattle.js_value.specs.declared.value.Value.{Value as Found};
ghost use Rattle.js_term.specs.declared.completion.Completion.{Completion as End};
ghost use Rattle.js_term.specs.declared.context.Context.{Context as At};
ghost use Rattle.js_tree.specs.Arena.{Arena};
ghost use Rattle.js_tree.specs.declared.node.NodeId.{NodeId as Number};
ghost use Rattle.js_stmt.specs.CodeRows.{at_phase, row_as, with_names};
ghost use Rattle.js_stmt.specs.Lent.{IsLent, kept_over, runs_within};
ghost use Rattle.js_stmt.specs.Make.{inner_stmt};
ghost use Rattle.js_stmt.specs.NodeRows.{row_in};
ghost use Rattle.js_stmt.specs.Rows.{StmtRow as Row};
ghost use Rattle.js_stmt.specs.Shapes.{follows, is_for_in};
ghost use Rattle.js_stmt.specs.declared.kept.StmtKept.{StmtKept as Kept};
ghost use Rattle.js_stmt.specs.declared.kept.StmtKept.TheVariants as kept;
ghost use Rattle.js_stmt.specs.declared.phase.StmtPhase.{StmtPhase as Phase};
ghost use Rattle.js_stmt.specs.declared.phase.StmtPhase.TheVariants as phase;
ghost use Rattle.js_stmt.specs.declared.row.StmtRow.{StmtRow as CodeRow};

/// A statement that goes on in another phase has the row that its node has then, with what its
/// frame keeps; a for-in that goes on with names, where these are kept; and a try in its `finally`,
/// where the completion is.
pub fn a_statement_goes_on_as_its_node()
    ensures phase { (a : Arena) (c d : At) (id outermost : Number) (r : CodeRow) (p : Phase)
        (k : Kept) → IsLent a id outermost k r → follows r p ≡ true →
        row_as a c (at_phase r p) ≡ row_in a d id outermost p k }
    ensures names { (a : Arena) (c : At) (id outermost : Number) (r : CodeRow) (k : Kept)
        (v : Found) (xs : List (List ℕ)) → IsLent a id outermost k r → is_for_in r ≡ true →
        with_names a c r v xs ≡ row_in a c id outermost (phase.Names 0) (kept.Names v xs) }
    ensures finally { (a : Arena) (c : At) (id outermost : Number) (o : Option End) →
        id.number < length a.kept →
        Row.Finally o ≡ row_in a c id outermost phase.Finally (kept_over o) }
{}

/// The operands of a statement run where it stands, but those of a catch, which has a scope of its
/// own, and of a body.
pub fn statements_run_where_they_stand()
    ensures stay { (a : Arena) (c d : At) (id outermost : Number) (p : Phase) (k : Kept) →
        runs_within p ≡ false → inner_stmt (row_in a c id outermost p k) d ≡ d }
    ensures catch { (a : Arena) (c d : At) (id outermost : Number) (r : CodeRow) (s : Scope)
        (k : Kept) → IsLent a id outermost k r → follows r (phase.Catch s) ≡ true →
        inner_stmt (row_in a c id outermost (phase.Catch s) k) d
        ≡ record { text = d.text; scope = Some s; this = d.this } }
{}

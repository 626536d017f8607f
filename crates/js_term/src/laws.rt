// What holds of terms by the definitions alone, for any rows and any host. These functions do
// nothing: their clauses are the laws.
ghost use Rattle.std.specs.Prelude.{◌≡◌, None, Some, ℕ, ◌<◌, List, [], ◌∷◌, Bool, true, false, map};
ghost use Rattle.js_value.specs.declared.value.Value.{Value};
ghost use Rattle.js_value.specs.declared.value.Value.TheVariants.{Undefined};
ghost use Rattle.js_heap.specs.World.{World};
ghost use Rattle.js_tree.specs.Arena.{Arena, IsOrdered, node_at};
ghost use Rattle.js_tree.specs.Runs.{labels_before};
ghost use Rattle.js_tree.specs.TreeAt.{tree_at};
ghost use Rattle.js_tree.specs.Trees.{Tree};
ghost use Rattle.js_tree.specs.declared.node.Node.{Node};
ghost use Rattle.js_tree.specs.declared.node.NodeId.{NodeId};
ghost use Rattle.js_tree.specs.declared.production.Production.{Production};
ghost use Rattle.js_term.specs.ArenaOperands.{node_literal, node_operands};
ghost use Rattle.js_term.specs.ArenaSyntax.{arena_syntax};
ghost use Rattle.js_term.specs.Completions.{plain_context};
ghost use Rattle.js_term.specs.Contraction.{at_rest, contract, page_step};
ghost use Rattle.js_term.specs.Contraction.Contraction.{Steps};
ghost use Rattle.js_term.specs.Due.{ComesTo, due, place_of};
ghost use Rattle.js_term.specs.Frames.{AreSettled, Frame, around, carried, context_at};
ghost use Rattle.js_term.specs.Frames.{is_due, passes, reading, resting};
ghost use Rattle.js_term.specs.Frames.Frame.{Waiting};
ghost use Rattle.js_term.specs.Images.{Agrees, Images, TablesCommute, plain};
ghost use Rattle.js_term.specs.Moves.{FreeMove, IsAllowed, IsSyntax, Syntax};
ghost use Rattle.js_term.specs.Moves.{after_move, before_move, stack_term, stack_weight};
ghost use Rattle.js_term.specs.Moves.{tree_syntax};
ghost use Rattle.js_term.specs.Operands.{Labels, opened, term_of, tree_literal, tree_operands};
ghost use Rattle.js_term.specs.Place.{Place, Placed};
ghost use Rattle.js_term.specs.Place.Place.{At};
ghost use Rattle.js_term.specs.Table.{Table};
ghost use Rattle.js_term.specs.Term.{Term, terms};
ghost use Rattle.js_term.specs.Term.Term.{Stop, Val};
ghost use Rattle.js_term.specs.inner.ThreeRows.{guarded, pair, same_images, statement, three_rows};
ghost use Rattle.js_term.specs.declared.completion.Completion.{Completion};
ghost use Rattle.js_term.specs.declared.context.Context.{Context};

/// A step or a question at the top of a stack of settled frames is the step or question of the term
/// that the stack stands for.
pub fn a_step_at_the_top_is_the_step<R, X, H>()
    ensures { (T : Table R H) (term : R → X → Term R) (fs : List (Frame R X)) (c : Context)
        (w : World) (h : H) (t : Term R) →
        AreSettled T fs → is_due (contract T (context_at T fs c) w h t) ≡ true →
        contract T c w h (reading T.no_step term fs t)
        ≡ carried (reading T.no_step term fs) (contract T (context_at T fs c) w h t) }
{}

/// A node whose operands are values makes its row's step, or enters a hidden function. One whose
/// first operands call for an early step makes that.
pub fn a_resting_frame_makes_its_step<R, X, H>()
    ensures rests { (T : Table R H) (term : R → X → Term R) (c : Context) (w : World) (h : H)
        (r : R) (vs : List Value) → T.no_step r ≡ false → passes T.is_early r [] vs ≡ true →
        contract T c w h (resting T.no_step term r vs [])
        ≡ at_rest T c w h r vs (T.enters c w h r vs) }
    ensures early { (T : Table R H) (term : R → X → Term R) (c : Context) (w : World) (h : H)
        (r : R) (vs : List Value) (x : X) (todo : List X) →
        T.no_step r ≡ false → passes T.is_early r [] vs ≡ true → T.is_early r vs ≡ true →
        contract T c w h (resting T.no_step term r vs (x ∷ todo))
        ≡ page_step (T.early c w h r vs (terms (term r) (x ∷ todo))) }
{}

/// A contraction makes a step, or asks, exactly where something is due; else it comes to the value
/// or the completion that the term is. A row without a step enters nothing.
pub fn a_contraction_is_of_what_is_due<R, H>()
    ensures { (T : Table R H) →
        ((c : Context) (w : World) (h : H) (r : R) (vs : List Value) → T.no_step r ≡ true →
        T.enters c w h r vs ≡ None) →
        (c : Context) (w : World) (h : H) (t : Term R) → ComesTo (due T t) (contract T c w h t) }
{}

/// What is due at the top of a stack of settled frames is due there in the term that the stack
/// stands for: a node at its own place, also where a completion has reached it.
pub fn a_place_is_at_the_top<Q, X, H>()
    ensures stack { (T : Table (Placed Q) H) (term : Placed Q → X → Term (Placed Q))
        (fs : List (Frame (Placed Q) X)) (t : Term (Placed Q)) (p : Place) → AreSettled T fs →
        place_of T t ≡ Some p → place_of T (reading T.no_step term fs t) ≡ Some p }
    ensures rests { (T : Table (Placed Q) H) (term : Placed Q → X → Term (Placed Q))
        (r : Placed Q) (vs : List Value) →
        T.no_step r ≡ false → passes T.is_early r [] vs ≡ true →
        place_of T (resting T.no_step term r vs []) ≡ Some r.place }
    ensures early { (T : Table (Placed Q) H) (term : Placed Q → X → Term (Placed Q))
        (r : Placed Q) (vs : List Value) (x : X) (todo : List X) →
        T.no_step r ≡ false → passes T.is_early r [] vs ≡ true → T.is_early r vs ≡ true →
        place_of T (resting T.no_step term r vs (x ∷ todo)) ≡ Some r.place }
    ensures met { (T : Table (Placed Q) H) (term : Placed Q → X → Term (Placed Q))
        (r : Placed Q) (vs : List Value) (todo : List X) (k : Completion) →
        passes T.is_early r [] vs ≡ true → T.is_early r vs ≡ false →
        place_of T (around T.no_step term (Waiting r vs todo) (Stop k)) ≡ Some r.place }
{}

/// A completion is met by the node directly around it.
pub fn a_waiting_frame_meets_a_completion<R, X, H>()
    ensures { (T : Table R H) (term : R → X → Term R) (c : Context) (w : World) (h : H) (r : R)
        (vs : List Value) (todo : List X) (k : Completion) →
        passes T.is_early r [] vs ≡ true → T.is_early r vs ≡ false →
        contract T c w h (around T.no_step term (Waiting r vs todo) (Stop k))
        ≡ page_step (T.meets c w h r k) }
{}

/// A free move changes no term, and makes the stack lighter.
pub fn a_free_move_changes_no_term<R, X>()
    ensures same { (S : Syntax R X) (no_step : R → Bool) → IsSyntax S no_step →
        (m : FreeMove R X) → IsAllowed S no_step m →
        stack_term S no_step (after_move S m) ≡ stack_term S no_step (before_move S m) }
    ensures lighter { (S : Syntax R X) (no_step : R → Bool) → IsSyntax S no_step →
        (m : FreeMove R X) →
        stack_weight S (after_move S m) < stack_weight S (before_move S m) }
{}

/// The term of a tree is its row over its operands' terms; so trees are operands that free moves
/// begin.
pub fn a_term_is_a_row_over_its_operands<R>()
    ensures opened { (no_step : R → Bool) (row : Labels → Place → Production → Tree → R) (x : ℕ)
        (ls : Labels) (t : Tree) →
        term_of no_step row x ls t ≡ opened no_step row (term_of no_step row x) ls x t }
    ensures syntax { (no_step : R → Bool) (row : Labels → Place → Production → Tree → R)
        (text : R → ℕ) (labels : R → Labels) →
        ((x u : ℕ) (ls : Labels) (p : Production) (ts : Tree) → text (row ls (At x u) p ts) ≡ x) →
        ((x u : ℕ) (ls : Labels) (p : Production) (ts : Tree) →
        labels (row ls (At x u) p ts) ≡ labels_before p ts ls) →
        IsSyntax (tree_syntax no_step row text labels) no_step }
{}

/// The operands of an arena's node are those of its tree; so nodes of arenas, and values, are
/// operands that free moves begin.
pub fn a_nodes_operands_are_those_of_its_tree()
    ensures literals { (arena : Arena) (id : NodeId) (n : Node) → IsOrdered arena →
        node_at arena id ≡ Some n → node_literal n ≡ tree_literal (tree_at arena id) }
    ensures operands { (arena : Arena) (id : NodeId) (n : Node) → IsOrdered arena →
        node_at arena id ≡ Some n →
        map (tree_at arena) (node_operands (node_at arena) n) ≡ tree_operands (tree_at arena id) }
{}

/// Nodes of the arenas of texts, and values, are operands that free moves begin.
pub fn arenas_are_syntax<R>()
    ensures { (no_step : R → Bool) (row : Labels → Place → Production → Tree → R)
        (text : R → ℕ) (labels : R → Labels) (arenas : ℕ → Arena) →
        ((x u : ℕ) (ls : Labels) (p : Production) (ts : Tree) → text (row ls (At x u) p ts) ≡ x) →
        ((x u : ℕ) (ls : Labels) (p : Production) (ts : Tree) →
        labels (row ls (At x u) p ts) ≡ labels_before p ts ls) →
        ((x : ℕ) → IsOrdered (arenas x)) →
        IsSyntax (arena_syntax no_step row text labels arenas) no_step }
{}

/// What a term comes to has the image that its image comes to; a hidden step leaves the image as it
/// was.
pub fn contraction_commutes_with_the_image<R, H>()
    ensures { (T P : Table R H) (I : Images R H) → TablesCommute T P I →
        (c : Context) (w : World) (h : H) (t : Term R) →
        Agrees T P I (plain T P I t) (I.world w) (I.host h)
        (contract T c w h t) (contract P (plain_context c) (I.world w) (I.host h) (plain T P I t)) }
{}

/// Syntax is its own image, where the rows of syntax are.
pub fn syntax_is_its_own_image<R, H>()
    ensures { (T P : Table R H) (I : Images R H) → TablesCommute T P I →
        (row : Labels → Place → Production → Tree → R) →
        ((ls : Labels) (a : Place) (p : Production) (ts : Tree) →
        I.row (row ls a p ts) ≡ row ls a p ts) →
        (x : ℕ) (ls : Labels) (t : Tree) →
        plain T P I (term_of T.no_step row x ls t) ≡ term_of P.no_step row x ls t }
{}

/// Three rows over a host that counts steps are tables of which all this holds: a list is finished
/// with its statement's step, a throw is met by the node around it, and the rows commute with the
/// image.
pub fn three_rows_are_a_table()
    ensures finished { (c : Context) (w : World) (u v : Value) →
        contract three_rows c w 0 (statement (pair u v)) ≡ Steps false (Val Undefined) w 1 }
    ensures met { (c : Context) (w : World) (v : Value) →
        contract three_rows c w 0 (statement (guarded v)) ≡ Steps false (Val Undefined) w 1 }
    ensures commutes { TablesCommute three_rows three_rows same_images }
{}

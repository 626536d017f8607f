// What holds of the three rows by their definitions alone. These functions do nothing: their
// clauses are laws.
ghost use Rattle.std.specs.Prelude.{◌≡◌, ◌∷◌, [], false};
ghost use Rattle.js_value.specs.declared.value.Value.{Value as Held};
ghost use Rattle.js_value.specs.declared.value.Value.TheVariants.{Undefined};
ghost use Rattle.js_heap.specs.World.{World};
ghost use Rattle.console_host.specs.Console.{with_line};
ghost use Rattle.console_host.specs.declared.host.ConsoleHost.{ConsoleHost};
ghost use Rattle.console_host.specs.declared.line.Line.TheVariants as line;
ghost use Rattle.js_term.specs.Contraction.{contract};
ghost use Rattle.js_term.specs.Contraction.Contraction.{Steps};
ghost use Rattle.js_term.specs.Images.{TablesCommute};
ghost use Rattle.js_term.specs.Place.{Place};
ghost use Rattle.js_term.specs.Term.Term.{Node, Val};
ghost use Rattle.js_term.specs.Term.Terms.{Cons, Nil};
ghost use Rattle.js_term.specs.declared.context.Context.{Context};
ghost use Rattle.term_answers.specs.ThreeRows.{log_row, three_images, three_rows};

/// The three rows commute with the plain image; so a contraction of their terms does.
pub fn three_rows_commute()
    ensures { TablesCommute three_rows three_rows three_images }
{}

/// An array of one value is logged in one step.
pub fn an_array_is_a_line()
    ensures { (c : Context) (w : World) (h : ConsoleHost) (p : Place) (v : Held) →
        contract three_rows c w h (Node (log_row p) (Cons (Val v) Nil))
        ≡ Steps false (Val Undefined) w (with_line h (line.Log (v ∷ []))) }
{}

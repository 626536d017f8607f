// What holds of stacks by the definitions. These functions do nothing: their clauses are the laws.
ghost use Rattle.std.specs.Prelude.{◌≡◌, true, false, List, [], ◌∷◌, Some};
ghost use Rattle.js_heap.specs.World.{World};
ghost use Rattle.js_rows.specs.Syntax.{has_no_step};
ghost use Rattle.js_term.specs.Contraction.{contract, page_step};
ghost use Rattle.js_term.specs.Term.{terms};
ghost use Rattle.js_term.specs.declared.completion.Completion.{Completion};
ghost use Rattle.js_frames.specs.Arenas.{Arenas};
ghost use Rattle.js_frames.specs.Dues.{above};
ghost use Rattle.js_frames.specs.Reading.{last, syntax, term};
ghost use Rattle.js_frames.specs.Rows.{frame_row};
ghost use Rattle.js_frames.specs.declared.frame.Focus.TheVariants as focus;
ghost use Rattle.js_frames.specs.declared.frame.Frame.{Frame as OneFrame};
ghost use Rattle.js_frames.specs.declared.stack.Stack.{Stack as OneStack};
ghost use Rattle.js_frames.specs.inner.Advances.{front, outer_in};
ghost use Rattle.js_rows.specs.Forms.{Form};
ghost use Rattle.js_rows.specs.Hosted.{PageRow};
ghost use Rattle.js_rows.specs.Outside.{Outside};
ghost use Rattle.js_rows.specs.Rows.{all_rows};
ghost use Rattle.js_term.specs.Frames.{AreSettled, Frame as Waiting, context_at};
ghost use Rattle.js_term.specs.declared.context.Context.{Context as At};
ghost use Rattle.js_term.specs.declared.operands.Operand.{Operand as ToCome};
ghost use Rattle.js_frames.specs.Soundness.{IsSound, moved_rows};

use js_host::Host;

/// In the table of any host frames wait, and evaluate their operands, as in the one by which free
/// moves are made.
pub fn frames_wait_as_in_any_table<H: Host>()
    ensures settled { (O : Outside (Form H.Dispatch) H)
        (fs : List (Waiting (PageRow H.Dispatch) ToCome)) →
        AreSettled moved_rows fs → AreSettled (all_rows O) fs }
    ensures context { (O : Outside (Form H.Dispatch) H)
        (fs : List (Waiting (PageRow H.Dispatch) ToCome)) (c : At) →
        context_at (all_rows O) fs c ≡ context_at moved_rows fs c }
{}

/// The step of the last frame, which rests, is that of the whole term; so is its early step; and a
/// completion at the top of the frames is met by the last of them.
pub fn the_last_frame_makes_the_step<H: Host>()
    ensures makes { (O : Outside (Form H.Dispatch) H) (ts : Arenas) (s : OneStack H.Dispatch)
        (f : OneFrame H.Dispatch) (w : World) (h : H) → IsSound ts s →
        s.focus ≡ focus.Resting → last s.frames.items ≡ Some f →
        f.operands.todo ≡ [] → has_no_step (frame_row ts f) ≡ false →
        contract (all_rows O) s.base w h (term ts s) ≡ above ts (front s.frames.items)
        (page_step ((all_rows O).make s.context w h (frame_row ts f) f.operands.done)) }
    ensures early { (O : Outside (Form H.Dispatch) H) (ts : Arenas) (s : OneStack H.Dispatch)
        (f : OneFrame H.Dispatch) (w : World) (h : H) (x : ToCome) (todo : List ToCome) →
        IsSound ts s → s.focus ≡ focus.Resting → last s.frames.items ≡ Some f →
        f.operands.todo ≡ x ∷ todo → has_no_step (frame_row ts f) ≡ false →
        moved_rows.is_early (frame_row ts f) f.operands.done ≡ true →
        contract (all_rows O) s.base w h (term ts s) ≡ above ts (front s.frames.items)
        (page_step ((all_rows O).early s.context w h (frame_row ts f) f.operands.done
        (terms ((syntax ts).term (frame_row ts f)) (x ∷ todo)))) }
    ensures meets { (O : Outside (Form H.Dispatch) H) (ts : Arenas) (s : OneStack H.Dispatch)
        (f : OneFrame H.Dispatch) (w : World) (h : H) (k : Completion) → IsSound ts s →
        s.focus ≡ focus.Abrupt k → last s.frames.items ≡ Some f →
        contract (all_rows O) s.base w h (term ts s) ≡ above ts (front s.frames.items)
        (page_step ((all_rows O).meets (outer_in f s.context) w h (frame_row ts f) k)) }
{}

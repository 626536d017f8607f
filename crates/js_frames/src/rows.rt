// The rows of frames.
ghost use Rattle.std.specs.Prelude.{◌≡◌, drop};
ghost use Rattle.js_operands.specs.ExprMoves as exprs;
ghost use Rattle.js_stmt.specs.CodeRows as stmts;
ghost use Rattle.js_stmt.specs.Make.{stmt_has_no_step};
ghost use Rattle.js_stmt.specs.Parts.{IsHeld, row_parts};
ghost use Rattle.js_term.specs.declared.context.Context.{Context as At};
ghost use Rattle.js_tree.specs.Arena.{Arena};
ghost use Rattle.js_rows.specs.Syntax.{has_no_step};
ghost use Rattle.js_frames.specs.Rows.{IsLentAt, expression_at, frame_row, host_row, site_arena};
ghost use Rattle.js_frames.specs.Rows.{statement_at, unit_at};
ghost use Rattle.js_frames.specs.Soundness.{HasNode, moved_rows};

use crate::frame::{Frame, Site, StmtState, Work};
use crate::texts::Texts;
use js_control::is_early;
use js_operands::{ExprRow, Phase, expr_row_of};
use js_stmt::{StmtKept, StmtRow, stmt_row_of};
use js_tree::Declarator;

// The row of an expression of the host.
fn host_row<'a>(phase: Phase) -> ExprRow<'a>
    ensures { (a : Arena) → exprs.row_as a result ≡ host_row phase }
{
    match phase {
        Phase::Convert(hint) => ExprRow::Convert(hint),
        Phase::Converting(left) => ExprRow::Converting(left),
        _ => ExprRow::CallOn,
    }
}

/// The row of an expression's frame.
pub fn expression_row<'a>(texts: &'a Texts, site: Option<Site>, phase: Phase) -> ExprRow<'a>
    requires { HasNode texts.now site }
    ensures { exprs.row_as (site_arena texts.now site) result
        ≡ expression_at texts.now site phase }
{
    let Some(site) = site else {
        return host_row(phase);
    };
    let Some(script) = texts.script(site.text) else {
        return host_row(phase);
    };
    match expr_row_of(script, site.node, phase) {
        Some(row) => row,
        None => host_row(phase),
    }
}

/// The row of a statement's frame, or of that of a function's body.
pub fn statement_row<'a>(
    texts: &'a Texts,
    site: Option<Site>,
    state: StmtState,
    kept: &'a StmtKept,
) -> StmtRow<'a>
    requires { HasNode texts.now site }
    ensures row { (c : At) → stmts.row_as (site_arena texts.now site) c result
        ≡ statement_at texts.now c site state kept.now }
    ensures held { IsHeld (site_arena texts.now site) (row_parts result) }
    ensures lent { IsLentAt texts.now site state kept.now result }
{
    let Some(site) = site else {
        return StmtRow::Free;
    };
    match texts.script(site.text) {
        Some(script) => stmt_row_of(script, site.node, state.outermost, state.phase, kept),
        None => StmtRow::Free,
    }
}

/// The first unit of a frame's node.
pub fn unit_of(texts: &Texts, site: Option<Site>) -> u32
    requires { HasNode texts.now site }
    ensures { result ≡ unit_at texts.now site }
{
    let Some(site) = site else {
        return 0;
    };
    match texts.script(site.text) {
        Some(script) => script.span(site.node).0,
        None => 0,
    }
}

// Whether no declarator of a `var` is at this place or behind it.
fn is_past(declarators: &[Declarator], at: usize) -> bool
    ensures { (a : Arena) → result ≡ stmt_has_no_step (stmts.var_as a (drop at declarators.now)) }
{
    match declarators.get(at) {
        Some(_) => false,
        None => true,
    }
}

// Whether a statement is finished as soon as its operands are.
fn is_free_row(row: StmtRow<'_>) -> bool
    ensures { (a : Arena) (c : At) → result ≡ stmt_has_no_step (stmts.row_as a c row.entry) }
{
    match row {
        StmtRow::Free => true,
        StmtRow::Var { declarators, at } => is_past(declarators, at),
        StmtRow::Labelled { .. } => true,
        StmtRow::SwitchBody(_) => true,
        _ => false,
    }
}

/// Whether a frame is finished as soon as its operands are.
pub(crate) fn is_free<D>(frame: &Frame<D>, texts: &Texts) -> bool
    requires { HasNode texts.now frame.now.site }
    ensures { result ≡ has_no_step (frame_row texts.now frame.now) }
{
    match &frame.work {
        Work::Statement(state, kept) => is_free_row(statement_row(texts, frame.site, *state, kept)),
        _ => false,
    }
}

/// Whether a frame makes a step before its next operand is evaluated.
pub(crate) fn is_early_next<D>(frame: &Frame<D>, texts: &Texts) -> bool
    requires { HasNode texts.now frame.now.site }
    ensures { result ≡ moved_rows.is_early (frame_row texts.now frame.now) frame.now.operands.done }
{
    match &frame.work {
        Work::Expression(phase) => {
            is_early(expression_row(texts, frame.site, *phase), &frame.operands)
        }
        _ => false,
    }
}

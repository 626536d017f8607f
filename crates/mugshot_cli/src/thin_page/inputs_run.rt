// The run of a thin page over inputs, as a session is replayed.
ghost use Rattle.std.specs.Prelude.{◌≡◌, ◌≢◌, ◌≤◌, true, false, ◌∷◌, IfOk, MatchResult, OnOk};
ghost use Rattle.input_log.specs.declared.item.TheConstants.{STEPS_LIMIT};
ghost use Rattle.page_inputs.specs.declared.input.PageInput.TheVariants.{Load, Now, Rand};
ghost use Rattle.mugshot_cli.specs.ThinPage.Machine.{State, asks, runs};
ghost use Rattle.mugshot_cli.specs.ThinPage.Run.{from_inputs, is_over};
ghost use Rattle.mugshot_cli.specs.ThinPage.inner.InputsState.{EndsClock, EndsDraw, EndsIdle};
ghost use Rattle.mugshot_cli.specs.ThinPage.inner.InputsState.{Stepped};
ghost use Rattle.mugshot_cli.specs.ThinPage.inner.InputsState.{Went, replay_rest};

use crate::thin_page::end::{End, Want};
use crate::thin_page::page::{Question, ThinPage};
use crate::thin_page::reading::Statement;
use input_log::LogItem;
use mug_text::NoMemory;
use page_inputs::PageInput;
use std::alloc::Global;
use std::marker::Model;

/// A page that runs over inputs, within a budget of page steps.
#[derive(Drop)]
pub struct InputsRun<'a> {
    page: ThinPage,
    // The page steps that are left of the budget.
    left: u64,
    inputs: &'a [PageInput],
    consumed: u64,
}

impl<'a> Model for InputsRun<'a> {
    ghost use Rattle.std.specs.Prelude.{◌+◌, ◌≤◌};
    ghost use Rattle.input_log.specs.declared.item.TheConstants.{STEPS_LIMIT};
    ghost use Rattle.mugshot_cli.specs.ThinPage.inner.InputsState.{ReplayState};

    ghost Value = { ReplayState };

    ghost view = { λ r. record {
      left = r.left;
      state = r.page;
      inputs = r.inputs.now;
      consumed = r.consumed;
    } };

    ghost invariant = { λ r. (r.page.steps + r.left ≤ STEPS_LIMIT) × (r.consumed ≤ r.page.steps) };
}

// The moment of the first turn, and the inputs after it.
fn next_load(inputs: &[PageInput]) -> Result<(u64, &[PageInput]), End>
    ensures { MatchResult result (λ pair. inputs.now ≡ Load pair.0 ∷ pair.1.now)
        (λ end. (s : State) → s.turns ≡ 0 → EndsIdle s inputs.now end) }
{
    match inputs {
        [PageInput::Load { t }, others @ ..] => Ok((*t, others)),
        [] => Err(End::Finished),
        [input, ..] => Err(End::Diverged {
            wanted: Want::Load,
            found: LogItem::of_input(input).word(),
        }),
    }
}

// How the run ends where the first turn is over.
fn after_turn(inputs: &[PageInput]) -> End
    ensures { (s : State) → s.turns ≢ 0 → EndsIdle s inputs.now result }
{
    match inputs {
        [] => End::Finished,
        [input, ..] => End::Diverged {
            wanted: Want::Turn,
            found: LogItem::of_input(input).word(),
        },
    }
}

// The next reading of the clock, and the inputs after it.
fn next_now(inputs: &[PageInput]) -> Result<(u64, &[PageInput]), End>
    ensures { MatchResult result (λ pair. inputs.now ≡ Now pair.0 ∷ pair.1.now)
        (λ end. EndsClock inputs.now end) }
{
    match inputs {
        [PageInput::Now { v }, others @ ..] => Ok((*v, others)),
        [] => Err(End::Cut), // No reading is left.
        [input, ..] => Err(End::Diverged {
            wanted: Want::Now,
            found: LogItem::of_input(input).word(),
        }),
    }
}

// The next random word, and the inputs after it.
fn next_rand(inputs: &[PageInput]) -> Result<(u32, &[PageInput]), End>
    ensures { MatchResult result (λ pair. inputs.now ≡ Rand pair.0 ∷ pair.1.now)
        (λ end. EndsDraw inputs.now end) }
{
    match inputs {
        [PageInput::Rand { w }, others @ ..] => Ok((*w, others)),
        [] => Err(End::Cut),
        [input, ..] => Err(End::Diverged {
            wanted: Want::Rand,
            found: LogItem::of_input(input).word(),
        }),
    }
}

impl<'a> InputsRun<'a> {
    /// The run before its first step.
    pub fn new(
        alloc: Global,
        statements: &[Statement],
        inputs: &'a [PageInput],
        budget: u64,
    ) -> Result<InputsRun<'a>, NoMemory>
        requires { budget ≤ STEPS_LIMIT }
        ensures { IfOk result
            (λ run. (replay_rest run ≡ from_inputs budget statements.now inputs.now)
            × (run.consumed ≡ 0)) }
    {
        let page = ThinPage::load(alloc, statements)?;
        Ok(InputsRun {
            page,
            left: budget,
            inputs,
            consumed: 0,
        })
    }

    fn is_over(&self) -> bool
        ensures { result ≡ is_over self.now.state.left self.now.inputs }
    {
        if self.page.runs() {
            return false;
        }
        match self.inputs {
            [] => true,
            _ => false,
        }
    }

    // Starts the first turn, which is a step.
    fn start_turn(&mut self) -> Option<End>
        requires idle { runs self.old.state.left ≡ false }
        requires on { 1 ≤ self.old.left }
        ensures { Went result self.old self.new }
    {
        if self.page.turns() > 0 {
            return Some(after_turn(self.inputs));
        }
        let (t, others) = match next_load(self.inputs) {
            Ok(found) => found,
            Err(end) => return Some(end),
        };
        self.page.begin(t);
        self.inputs = others;
        self.left -= 1;
        self.consumed += 1;
        None
    }

    // Makes a step that asks nothing.
    fn pass(&mut self) -> Result<(), NoMemory>
        requires busy { runs self.old.state.left ≡ true }
        requires asks { asks self.old.state.left ≡ Question.Nothing }
        requires on { 1 ≤ self.old.left }
        ensures { OnOk result (Stepped self.old self.new) }
    {
        self.page.step(0)?;
        self.left -= 1;
        Ok(())
    }

    // Makes a step that asks the clock, with the next input.
    fn read_clock(&mut self) -> Result<Option<End>, NoMemory>
        requires busy { runs self.old.state.left ≡ true }
        requires asks { asks self.old.state.left ≡ Question.Clock }
        requires on { 1 ≤ self.old.left }
        ensures { IfOk result (λ end. Went end self.old self.new) }
    {
        let (v, others) = match next_now(self.inputs) {
            Ok(found) => found,
            Err(end) => return Ok(Some(end)),
        };
        self.page.step(v)?;
        self.inputs = others;
        self.left -= 1;
        self.consumed += 1;
        Ok(None)
    }

    // Makes a step that asks for a random word, with the next input.
    fn draw(&mut self) -> Result<Option<End>, NoMemory>
        requires busy { runs self.old.state.left ≡ true }
        requires asks { asks self.old.state.left ≡ Question.Word }
        requires on { 1 ≤ self.old.left }
        ensures { IfOk result (λ end. Went end self.old self.new) }
    {
        let (w, others) = match next_rand(self.inputs) {
            Ok(found) => found,
            Err(end) => return Ok(Some(end)),
        };
        self.page.step(w as u64)?;
        self.inputs = others;
        self.left -= 1;
        self.consumed += 1;
        Ok(None)
    }

    /// Makes the next page step, or tells how the run ends here.
    pub fn step(&mut self) -> Result<Option<End>, NoMemory>
        ensures { IfOk result (λ end. Went end self.old self.new) }
    {
        if self.is_over() {
            return Ok(Some(End::Finished));
        }
        if self.left == 0 {
            return Ok(Some(End::Budget));
        }
        if !self.page.runs() {
            return Ok(self.start_turn());
        }
        match self.page.asks() {
            Question::Nothing => {
                self.pass()?;
                Ok(None)
            }
            Question::Clock => self.read_clock(),
            Question::Word => self.draw(),
        }
    }

    pub fn page(&self) -> &ThinPage
        ensures { result.now ≡ self.now.state }
    {
        &self.page
    }

    /// The number of the inputs that were consumed.
    pub fn consumed(&self) -> u64
        ensures is { result ≡ self.now.consumed }
        ensures few { result ≤ STEPS_LIMIT }
    {
        self.consumed
    }
}

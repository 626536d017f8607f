// The run of a thin page over arrivals, as it is recorded.
ghost use Rattle.std.specs.Prelude.{◌≡◌, ◌+◌, ◌≤◌, ◌<◌, true, false, [], ◌∷◌, drop, All, IfOk};
ghost use Rattle.std.specs.Prelude.{IfSome, OnOk, MatchOption, option_to_list};
ghost use Rattle.arrival_file.specs.Ranges.{IsInRange};
ghost use Rattle.mugshot_cli.specs.ThinPage.Machine.{asks, runs};
ghost use Rattle.input_log.specs.declared.item.TheConstants.{STEPS_LIMIT};
ghost use Rattle.arrival_file.specs.declared.limits.TheConstants.{WORD_END};
ghost use Rattle.mug_text.specs.declared.limits.TheConstants.{SAFE_END};
ghost use Rattle.page_inputs.specs.Inputs.{IsInput};
ghost use Rattle.page_inputs.specs.declared.input.PageInput.TheVariants.{Now, Rand};
ghost use Rattle.mugshot_cli.specs.ThinPage.Run.{ends, first_or, is_finished, moment, plain, steps};
ghost use Rattle.mugshot_cli.specs.declared.thin_page.end.PlainEnd.{PlainEnd};
ghost use Rattle.mugshot_cli.specs.ThinPage.inner.PlainState.{IsAhead, RunsOn, rest_of, run_end};

use crate::thin_page::end::PlainEnd;
use crate::thin_page::page::{Question, ThinPage};
use crate::thin_page::reading::Statement;
use arrival_file::{Arrival, Turn};
use mug_text::NoMemory;
use page_inputs::PageInput;
use std::alloc::Global;
use std::marker::Model;

/// A page that runs over arrivals, within a budget of page steps.
#[derive(Drop)]
pub struct PlainRun<'a> {
    page: ThinPage,
    // The page steps that are left of the budget.
    left: u64,
    arrivals: &'a [Arrival],
    // What answers the running turn's questions.
    t: u64,
    nows: &'a [u64],
    rands: &'a [u32],
}

impl<'a> Model for PlainRun<'a> {
    ghost use Rattle.std.specs.Prelude.{◌≡◌, ◌+◌, ◌≤◌, ◌<◌, All};
    ghost use Rattle.mug_text.specs.declared.limits.TheConstants.{SAFE_END};
    ghost use Rattle.arrival_file.specs.declared.limits.TheConstants.{WORD_END};
    ghost use Rattle.arrival_file.specs.Ranges.{IsInRange};
    ghost use Rattle.input_log.specs.declared.item.TheConstants.{STEPS_LIMIT};
    ghost use Rattle.mugshot_cli.specs.ThinPage.inner.PlainState.{PlainState};

    ghost Value = { PlainState };

    ghost view = { λ r. record {
      left = r.left;
      state = r.page;
      answers = record { t = r.t; nows = r.nows.now; rands = r.rands.now };
      arrivals = r.arrivals.now;
    } };

    ghost invariant = { λ r. (r.page.steps + r.left ≤ STEPS_LIMIT) × (r.t < SAFE_END)
        × All (λ v. v < SAFE_END) r.nows.now × All (λ w. w < WORD_END) r.rands.now
        × All IsInRange r.arrivals.now };
}

// The first of the values, or this one where there is none, and the others.
fn next_now(values: &[u64], otherwise: u64) -> (u64, &[u64])
    ensures first { result.0 ≡ first_or otherwise values.now }
    ensures others { result.1.now ≡ drop 1 values.now }
{
    match values {
        [first, others @ ..] => (*first, others),
        [] => (otherwise, values),
    }
}

// The first of the words, or 0 where there is none, and the others.
fn next_rand(words: &[u32]) -> (u32, &[u32])
    ensures first { result.0 ≡ first_or 0 words.now }
    ensures others { result.1.now ≡ drop 1 words.now }
{
    match words {
        [word, others @ ..] => (*word, others),
        [] => (0, words),
    }
}

fn moment(turn: Turn) -> u64
    ensures { result ≡ moment turn }
{
    match turn {
        Turn::Load { t } => t,
    }
}

impl<'a> PlainRun<'a> {
    /// The run before its first step.
    pub fn new(
        alloc: Global,
        statements: &[Statement],
        arrivals: &'a [Arrival],
        budget: u64,
    ) -> Result<PlainRun<'a>, NoMemory>
        requires in_range { All IsInRange arrivals.now }
        requires early { budget ≤ STEPS_LIMIT }
        ensures { IfOk result (λ run. rest_of run ≡ plain budget statements.now arrivals.now) }
    {
        let page = ThinPage::load(alloc, statements)?;
        Ok(PlainRun {
            page,
            left: budget,
            arrivals,
            t: 0,
            nows: &[],
            rands: &[],
        })
    }

    fn is_finished(&self) -> bool
        ensures { result ≡ is_finished self.now.state.left self.now.arrivals }
    {
        if self.page.runs() {
            return false;
        }
        match self.arrivals {
            [] => true,
            _ => false,
        }
    }

    /// How the run ends here, where it does.
    pub fn end(&self) -> Option<PlainEnd>
        ensures { MatchOption result (RunsOn self.now)
            (λ end. rest_of self.now ≡ ends self.now.state (run_end end)) }
    {
        if self.is_finished() {
            return Some(PlainEnd::Finished);
        }
        if self.left == 0 {
            return Some(PlainEnd::Budget);
        }
        None
    }

    // Starts the next turn, which is a step.
    fn start_turn(&mut self) -> Option<PageInput>
        requires idle { runs self.old.state.left ≡ false }
        requires on { RunsOn self.old }
        ensures { MatchOption result ⊥
            (λ item. IsInput item × (self.new.left + 1 ≡ self.old.left)
            × (rest_of self.old ≡ steps self.old.state (item ∷ []) (rest_of self.new))) }
    {
        let (arrival, others) = self.arrivals.split_first()?;
        let t = moment(arrival.turn);
        self.page.begin(t);
        self.left -= 1;
        self.t = t;
        self.nows = arrival.nows.as_slice();
        self.rands = arrival.rands.as_slice();
        self.arrivals = others;
        Some(PageInput::Load { t })
    }

    // Makes a step that asks nothing.
    fn pass(&mut self) -> Result<(), NoMemory>
        requires busy { runs self.old.state.left ≡ true }
        requires asks { asks self.old.state.left ≡ Question.Nothing }
        requires on { RunsOn self.old }
        ensures { OnOk result
            ((self.new.left + 1 ≡ self.old.left)
            × (rest_of self.old ≡ steps self.old.state [] (rest_of self.new))) }
    {
        self.page.step(0)?;
        self.left -= 1;
        Ok(())
    }

    // Makes a step that asks the clock, and gives what it read.
    fn read_clock(&mut self) -> Result<u64, NoMemory>
        requires busy { runs self.old.state.left ≡ true }
        requires asks { asks self.old.state.left ≡ Question.Clock }
        requires on { RunsOn self.old }
        ensures { IfOk result
            (λ v. (v < SAFE_END) × (self.new.left + 1 ≡ self.old.left)
            × (rest_of self.old ≡ steps self.old.state (Now v ∷ []) (rest_of self.new))) }
    {
        let (v, others) = next_now(self.nows, self.t);
        self.page.step(v)?;
        self.nows = others;
        self.left -= 1;
        Ok(v)
    }

    // Makes a step that asks for a random word, and gives the word.
    fn draw(&mut self) -> Result<u32, NoMemory>
        requires busy { runs self.old.state.left ≡ true }
        requires asks { asks self.old.state.left ≡ Question.Word }
        requires on { RunsOn self.old }
        ensures { IfOk result
            (λ w. (w < WORD_END) × (self.new.left + 1 ≡ self.old.left)
            × (rest_of self.old ≡ steps self.old.state (Rand w ∷ []) (rest_of self.new))) }
    {
        let (w, others) = next_rand(self.rands);
        self.page.step(w as u64)?;
        self.rands = others;
        self.left -= 1;
        Ok(w)
    }

    // Makes a page step, and gives the input that it consumed.
    fn page_step(&mut self) -> Result<Option<PageInput>, NoMemory>
        requires on { RunsOn self.old }
        ensures { IfOk result
            (λ input. IfSome input IsInput × (self.new.left + 1 ≡ self.old.left)
            × (rest_of self.old ≡ steps self.old.state (option_to_list input) (rest_of self.new))) }
    {
        if !self.page.runs() {
            return Ok(self.start_turn());
        }
        match self.page.asks() {
            Question::Nothing => {
                self.pass()?;
                Ok(None)
            }
            Question::Clock => {
                let v = self.read_clock()?;
                Ok(Some(PageInput::Now { v }))
            }
            Question::Word => {
                let w = self.draw()?;
                Ok(Some(PageInput::Rand { w }))
            }
        }
    }

    /// Runs up to the next input, and gives it; none is left where the run has ended.
    pub fn next(&mut self) -> Result<Option<PageInput>, NoMemory>
        ensures { IfOk result
            (λ input. MatchOption input
            (IsAhead [] (rest_of self.old) (rest_of self.new)
            × ((end : PlainEnd) × (rest_of self.new ≡ ends self.new.state (run_end end))))
            (λ item. IsInput item × IsAhead (item ∷ []) (rest_of self.old) (rest_of self.new))) }
    {
        'steps: while self.end().is_none() {
            if let Some(item) = self.page_step()? {
                return Ok(Some(item));
            }
        }
        Ok(None)
    }

    pub fn page(&self) -> &ThinPage
        ensures { result.now ≡ self.now.state }
    {
        &self.page
    }
}

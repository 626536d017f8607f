// A thin page that runs, one step at a time.
ghost use Rattle.std.specs.Prelude.{◌≡◌, ◌<◌, ◌++◌, true, drop, count_by, decimal, IfOk, OnOk};
ghost use Rattle.std.specs.Prelude.{OnErr};
ghost use Rattle.input_log.specs.declared.item.TheConstants.{STEPS_LIMIT};
ghost use Rattle.mugshot_cli.specs.ThinPage.Machine.{advanced, asks, begun, counts_of, first_of, is_question};
ghost use Rattle.mugshot_cli.specs.ThinPage.Machine.{line_text, runs, spaced, start_state};
ghost use Rattle.mugshot_cli.specs.ThinPage.Machine.{values_of};

use crate::counts::Counts;
use crate::thin_page::reading::{Argument, Statement};
use crate::thin_page::turn_steps::turn_moves;
use itoa::Buffer;
use mug_text::{Bytes, Listed, NoMemory};
use std::alloc::Global;
use std::marker::Model;

/// What one step of a turn does.
#[derive(Debug, Drop)]
pub enum Move {
    /// Asks nothing, and adds no console line.
    Pass,
    /// The call of `Date.now`: asks the clock.
    Clock,
    /// The call of `Math.random`: asks for a random word.
    Draw,
    /// The call of `console.log`: adds a line.
    Print(Listed<Argument>),
}

/// What a step asks from outside.
#[derive(Clone, Copy, Debug, PartialEq, Eq)]
pub enum Question {
    Nothing,
    Clock,
    Word,
}

/// A thin page, its turn and its console.
#[derive(Drop)]
pub struct ThinPage {
    alloc: Global,
    turn: Vec<Move>,
    at: usize,
    steps: u64,
    turns: u64,
    clock: u64,
    given: Vec<u64>,
    console: Vec<Bytes>,
}

impl Model for ThinPage {
    ghost use Rattle.std.specs.Prelude.{◌≤◌, drop, length};
    ghost use Rattle.mugshot_cli.specs.ThinPage.Machine.{State};

    ghost Value = { State };

    ghost view = { λ p. record {
      turn = p.turn.items;
      steps = p.steps;
      turns = p.turns;
      clock = p.clock;
      left = drop p.at p.turn.items;
      given = p.given.items;
      console = p.console.items;
    } };

    ghost invariant = { λ p. (p.at ≤ length p.turn.items) × (p.turns ≤ p.steps) };
}

// The numbers of the arguments, of which those that ask take the answers in their order.
fn values(alloc: Global, arguments: &[Argument], answers: &[u64]) -> Result<Vec<u64>, NoMemory>
    ensures { IfOk result (λ numbers. numbers.items ≡ values_of arguments.now answers.now) }
{
    let mut numbers = Vec::new(alloc);
    let mut left = answers;
    for argument in arguments {
        let n = match argument {
            Argument::Number(n) => *n,
            Argument::Now | Argument::Rand => {
                let (first, others) = split_first(left);
                left = others;
                first
            }
        };
        numbers.push(n)?;
    }
    Ok(numbers)
}

// The first answer, and the others.
fn split_first(answers: &[u64]) -> (u64, &[u64])
    ensures first { result.0 ≡ first_of answers.now }
    ensures others { result.1.now ≡ drop 1 answers.now }
{
    match answers {
        [first, others @ ..] => (*first, others),
        [] => (0, answers),
    }
}

fn push_number(line: &mut Vec<u8>, n: u64) -> Result<(), NoMemory>
    ensures { OnOk result (line.new.items ≡ line.old.items ++ decimal n) }
{
    line.extend_from_slice(Buffer::new().format(n).as_bytes())?;
    Ok(())
}

// The numbers with a space between them.
fn spaced(alloc: Global, numbers: &[u64]) -> Result<Bytes, NoMemory>
    ensures { IfOk result (λ line. line ≡ spaced numbers.now) }
{
    let mut line = Vec::new(alloc);
    if let [first, others @ ..] = numbers {
        push_number(&mut line, *first)?;
        for n in others {
            line.extend_from_slice(b" ")?;
            push_number(&mut line, *n)?;
        }
    }
    Ok(Bytes::from_vec(line))
}

fn is_question(argument: &Argument) -> bool
    ensures { result ≡ is_question argument.now }
{
    match argument {
        Argument::Now | Argument::Rand => true,
        Argument::Number(_) => false,
    }
}

// The number of the arguments that ask.
fn questions(arguments: &[Argument]) -> usize
    ensures { result ≡ count_by is_question arguments.now }
{
    arguments
        .iter()
        .filter(|argument| is_question(argument))
        .count()
}

// The line of a call whose questions were answered last.
fn line(alloc: Global, arguments: &[Argument], given: &[u64]) -> Result<Bytes, NoMemory>
    ensures { IfOk result (λ line. line ≡ line_text arguments.now given.now) }
{
    let before = given.len().saturating_sub(questions(arguments));
    let numbers = values(alloc, arguments, &given[before..])?;
    spaced(alloc, &numbers)
}

impl ThinPage {
    /// The page before its first step.
    pub fn load(alloc: Global, statements: &[Statement]) -> Result<ThinPage, NoMemory>
        ensures { IfOk result (λ page. page ≡ start_state statements.now) }
    {
        let turn = turn_moves(alloc, statements)?;
        let at = turn.len();
        Ok(ThinPage {
            alloc,
            turn,
            at,
            steps: 0,
            turns: 0,
            clock: 0,
            given: Vec::new(alloc),
            console: Vec::new(alloc),
        })
    }

    /// Whether a turn runs.
    pub fn runs(&self) -> bool
        ensures { result ≡ runs self.now.left }
    {
        match &self.turn[self.at..] {
            [] => false,
            _ => true,
        }
    }

    /// What the next step asks.
    pub fn asks(&self) -> Question
        ensures { result ≡ asks self.now.left }
    {
        match &self.turn[self.at..] {
            [Move::Clock, ..] => Question::Clock,
            [Move::Draw, ..] => Question::Word,
            _ => Question::Nothing,
        }
    }

    /// Starts a turn, which is a step.
    pub fn begin(&mut self, t: u64)
        requires { self.old.steps < STEPS_LIMIT }
        ensures { self.new ≡ begun self.old t }
    {
        self.steps += 1;
        self.turns += 1;
        self.clock = t;
        self.at = 0;
        self.given.clear();
    }

    /// Makes the next step of the running turn; the answer counts where the step asks.
    pub fn step(&mut self, answer: u64) -> Result<(), NoMemory>
        requires runs { runs self.old.left ≡ true }
        requires early { self.old.steps < STEPS_LIMIT }
        ensures ok { OnOk result (self.new ≡ advanced self.old self.old.left answer) }
        ensures err { OnErr result (self.new ≡ self.old) }
    {
        match &self.turn[self.at] {
            Move::Pass => {}
            Move::Clock | Move::Draw => {
                self.given.push(answer)?;
            }
            Move::Print(arguments) => {
                let line = line(self.alloc, arguments.as_slice(), &self.given)?;
                self.console.push(line)?;
            }
        }
        self.at += 1;
        self.steps += 1;
        Ok(())
    }

    /// What is counted so far; a thin page has no inserted code.
    pub fn counts(&self) -> Counts
        ensures { result ≡ counts_of self.now }
    {
        Counts {
            steps: self.steps,
            hidden: 0,
            calls: 0,
            nested: 0,
        }
    }

    /// The number of turns that were started.
    pub fn turns(&self) -> u64
        ensures { result ≡ self.now.turns }
    {
        self.turns
    }

    /// The moment of the last turn.
    pub fn clock(&self) -> u64
        ensures { result ≡ self.now.clock }
    {
        self.clock
    }

    /// The lines of the console.
    pub fn console(&self) -> &[Bytes]
        ensures { result.now ≡ self.now.console }
    {
        self.console.as_slice()
    }
}

// The words of a command line.
ghost use Rattle.std.specs.Prelude.{◌≡◌, ◌≢◌, ◌↔◌, ◌≤◌, ℕ, List, [], ◌∷◌, decimal, map, IfOk};
ghost use Rattle.std.specs.Prelude.{IsErrOf, IsTrue, MatchOption, string_bytes};
ghost use Rattle.input_log.specs.declared.item.TheConstants.{STEPS_LIMIT};
ghost use Rattle.mugshot_cli.specs.Command.{AreSteps, IsFileName, Spells, SpellsNone};
ghost use Rattle.mugshot_cli.specs.inner.Commands.{Asks, HasFiles, action_of};
ghost use Rattle.mugshot_cli.specs.declared.command.UsageFault.TheVariants as usage_fault;

use input_log::STEPS_LIMIT;
use mug_text::{Bytes, NoMemory, decimal_below};
use std::alloc::Global;
use thiserror::Error;

/// A command, with its files named by their bytes in UTF-8.
#[derive(Debug, Drop)]
pub enum Command {
    /// `list SESSION`
    List {
        session: Bytes,
    },
    /// `replay SESSION`
    Replay {
        session: Bytes,
    },
    /// `capture PAGE ARRIVALS SESSION [--steps N]`, with the budget in page steps.
    Capture {
        page: Bytes,
        arrivals: Bytes,
        session: Bytes,
        steps: u64,
    },
}

/// Why the words are no command.
#[derive(Clone, Copy, Debug, PartialEq, Eq, Error)]
pub enum UsageFault {
    #[error("usage")]
    Usage,
    #[error("out of memory")]
    NoMemory,
}

impl From<NoMemory> for UsageFault {
    ghost from_gives = { λ _ fault. fault ≡ usage_fault.NoMemory };

    fn from(_error: NoMemory) -> UsageFault {
        UsageFault::NoMemory
    }
}

/// The budget where none is given, in page steps.
pub const DEFAULT_STEPS: u64 = 10_000_000;

fn is_file_name(word: &str) -> bool
    ensures { IsTrue result ↔ IsFileName word.now }
{
    !word.is_empty() && !word.starts_with("--")
}

// A file's name.
fn file_name(alloc: Global, word: &str) -> Result<Bytes, UsageFault>
    ensures ok { IfOk result (λ name. IsFileName name × (name ≡ word.now)) }
    ensures usage { IsErrOf result UsageFault.Usage → IsFileName word.now → ⊥ }
{
    if !is_file_name(word) {
        return Err(UsageFault::Usage);
    }
    let name = Bytes::of(alloc, word.as_bytes())?;
    Ok(name)
}

// The one file that the words name.
fn one_file(alloc: Global, words: &[String]) -> Result<Bytes, UsageFault>
    ensures ok { IfOk result
        (λ name. IsFileName name × (map (λ word. string_bytes word) words.now ≡ name ∷ [])) }
    ensures usage { IsErrOf result UsageFault.Usage → (name : List ℕ) → IsFileName name
        → map (λ word. string_bytes word) words.now ≢ name ∷ [] }
{
    match words {
        [word] => file_name(alloc, word),
        _ => Err(UsageFault::Usage),
    }
}

// A budget as it is spelled.
fn budget_of(word: &str) -> Option<u64>
    ensures { MatchOption result ((n : ℕ) → 1 ≤ n → n ≤ STEPS_LIMIT → word.now ≢ decimal n)
        (λ n. (1 ≤ n) × (n ≤ STEPS_LIMIT) × (word.now ≡ decimal n)) }
{
    let n = decimal_below(word.as_bytes(), STEPS_LIMIT + 1)?;
    if n < 1 {
        return None;
    }
    Some(n)
}

// The budget that an option's words give.
fn steps_of(words: &[String]) -> Option<u64>
    ensures { MatchOption result
        ((n : ℕ) → AreSteps (map (λ word. string_bytes word) words.now) n → ⊥)
        (λ n. AreSteps (map (λ word. string_bytes word) words.now) n) }
{
    match words {
        [] => Some(DEFAULT_STEPS),
        [option, spelled] => {
            if option.as_str() != "--steps" {
                return None;
            }
            let n = budget_of(spelled)?;
            Some(n)
        }
        _ => None,
    }
}

// The files and the budget of a capture.
fn capture_of(alloc: Global, words: &[String]) -> Result<Command, UsageFault>
    ensures ok { IfOk result
        (λ command. HasFiles (map (λ word. string_bytes word) words.now) command) }
    ensures usage { IsErrOf result UsageFault.Usage → (c : Command)
        → HasFiles (map (λ word. string_bytes word) words.now) c → ⊥ }
{
    match words {
        [page, arrivals, session, option @ ..] => {
            let Some(steps) = steps_of(option) else {
                return Err(UsageFault::Usage);
            };
            let page = file_name(alloc, page)?;
            let arrivals = file_name(alloc, arrivals)?;
            let session = file_name(alloc, session)?;
            Ok(Command::Capture {
                page,
                arrivals,
                session,
                steps,
            })
        }
        _ => Err(UsageFault::Usage),
    }
}

/// Reads the words of a command line, without the program's name.
pub fn read_words(alloc: Global, words: &[String]) -> Result<Command, UsageFault>
    ensures command { IfOk result
        (λ command. Spells (map (λ word. string_bytes word) words.now) command) }
    ensures usage { IsErrOf result UsageFault.Usage
        → SpellsNone (map (λ word. string_bytes word) words.now) }
{
    match words {
        [name, files @ ..] => match name.as_str() {
            "list" => {
                let session = one_file(alloc, files)?;
                Ok(Command::List { session })
            }
            "replay" => {
                let session = one_file(alloc, files)?;
                Ok(Command::Replay { session })
            }
            "capture" => capture_of(alloc, files),
            _ => Err(UsageFault::Usage),
        },
        _ => Err(UsageFault::Usage),
    }
}

/// What a command does, without the names of its files.
#[derive(Clone, Copy, Debug, PartialEq, Eq)]
pub enum Action {
    List,
    Replay,
    /// With the budget in page steps.
    Capture { steps: u64 },
}

fn action_of(command: Command) -> Action
    ensures { result ≡ action_of command }
{
    match command {
        Command::List { session: _ } => Action::List,
        Command::Replay { session: _ } => Action::Replay,
        Command::Capture {
            page: _,
            arrivals: _,
            session: _,
            steps,
        } => Action::Capture { steps },
    }
}

/// Reads what the words of a command line do.
pub fn read_action(alloc: Global, words: &[String]) -> Result<Action, UsageFault>
    ensures action { IfOk result
        (λ action. Asks (map (λ word. string_bytes word) words.now) action) }
    ensures usage { IsErrOf result UsageFault.Usage
        → SpellsNone (map (λ word. string_bytes word) words.now) }
{
    let command = read_words(alloc, words)?;
    Ok(action_of(command))
}

// The steps of a thin page's turn.
ghost use Rattle.std.specs.Prelude.{◌≡◌, ◌++◌, [], ◌∷◌, flat_map, IfOk, OnOk};
ghost use Rattle.mugshot_cli.specs.ThinPage.Machine.{argument_moves, script_moves, statement_moves};
ghost use Rattle.mugshot_cli.specs.ThinPage.Machine.{turn_moves};
ghost use Rattle.mugshot_cli.specs.declared.thin_page.page.Move.TheVariants.{Pass, Clock, Draw};
ghost use Rattle.mugshot_cli.specs.declared.thin_page.page.Move.TheVariants.{Print};

use crate::thin_page::page::Move;
use crate::thin_page::reading::{Argument, Statement};
use mug_text::{Listed, NoMemory};
use std::alloc::Global;

fn push(moves: &mut Vec<Move>, next: Move) -> Result<(), NoMemory>
    ensures { OnOk result (moves.new.items ≡ moves.old.items ++ next ∷ []) }
{
    moves.push(next)?;
    Ok(())
}

// A call of a method without arguments: the object's name, the function, the call.
fn push_call(moves: &mut Vec<Move>, call: Move) -> Result<(), NoMemory>
    ensures { OnOk result (moves.new.items ≡ moves.old.items ++ (Pass ∷ Pass ∷ call ∷ [])) }
{
    push(moves, Move::Pass)?;
    push(moves, Move::Pass)?;
    push(moves, call)
}

fn push_argument(moves: &mut Vec<Move>, argument: Argument) -> Result<(), NoMemory>
    ensures { OnOk result (moves.new.items ≡ moves.old.items ++ argument_moves argument) }
{
    match argument {
        Argument::Now => push_call(moves, Move::Clock),
        Argument::Rand => push_call(moves, Move::Draw),
        Argument::Number(_) => Ok(()),
    }
}

fn push_arguments(moves: &mut Vec<Move>, arguments: &[Argument]) -> Result<(), NoMemory>
    ensures { OnOk result
        (moves.new.items ≡ moves.old.items ++ flat_map argument_moves arguments.now) }
{
    for argument in arguments {
        push_argument(moves, *argument)?;
    }
    Ok(())
}

fn push_log(alloc: Global, moves: &mut Vec<Move>, arguments: &[Argument]) -> Result<(), NoMemory>
    ensures { OnOk result
        (moves.new.items ≡ moves.old.items ++
        (Pass ∷ Pass ∷ (flat_map argument_moves arguments.now ++ Print arguments.now ∷ []))) }
{
    let copied = arguments.to_vec(alloc)?;
    push(moves, Move::Pass)?;
    push(moves, Move::Pass)?;
    push_arguments(moves, arguments)?;
    push(moves, Move::Print(Listed::of(copied)))
}

fn push_statement(
    alloc: Global,
    moves: &mut Vec<Move>,
    statement: &Statement,
) -> Result<(), NoMemory>
    ensures { OnOk result (moves.new.items ≡ moves.old.items ++ statement_moves statement.now) }
{
    match statement {
        Statement::Now => push_call(moves, Move::Clock),
        Statement::Rand => push_call(moves, Move::Draw),
        Statement::Log(arguments) => push_log(alloc, moves, arguments.as_slice()),
    }
}

fn push_script(
    alloc: Global,
    moves: &mut Vec<Move>,
    statements: &[Statement],
) -> Result<(), NoMemory>
    ensures { OnOk result (moves.new.items ≡ moves.old.items ++ script_moves statements.now) }
{
    if statements.is_empty() {
        return Ok(());
    }
    push(moves, Move::Pass)?;
    for statement in statements {
        push_statement(alloc, moves, statement)?;
    }
    Ok(())
}

/// The steps of a load turn behind its start.
pub fn turn_moves(alloc: Global, statements: &[Statement]) -> Result<Vec<Move>, NoMemory>
    ensures { IfOk result (λ moves. moves.items ≡ turn_moves statements.now) }
{
    let mut moves = Vec::new(alloc);
    push(&mut moves, Move::Pass)?;
    push_script(alloc, &mut moves, statements)?;
    push_call(&mut moves, Move::Pass)?;
    push(&mut moves, Move::Pass)?;
    Ok(moves)
}

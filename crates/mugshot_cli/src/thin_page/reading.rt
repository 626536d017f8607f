// A thin page: a script whose statements take a reading or log their arguments.
ghost use Rattle.std.specs.Prelude.{◌≡◌, ◌≢◌, ◌↔◌, ℕ, ◌<◌, List, ◌++◌, All, IfOk};
ghost use Rattle.std.specs.Prelude.{IsTrue, MatchOption};
ghost use Rattle.mugshot_cli.specs.ThinPage.inner.Parts.{AreStatements, EndsArgument, EndsDigits};
ghost use Rattle.mugshot_cli.specs.ThinPage.Reading.{EndsScript};
ghost use Rattle.mugshot_cli.specs.ThinPage.inner.Parts.{HasArguments, HasStatement};
ghost use Rattle.mugshot_cli.specs.ThinPage.Reading.{IsArgument, IsThin, argument_text};
ghost use Rattle.mugshot_cli.specs.ThinPage.inner.Parts.{IsDigit};
ghost use Rattle.mugshot_cli.specs.declared.thin_page.reading.Argument.{Argument};
ghost use Rattle.mugshot_cli.specs.declared.thin_page.reading.Statement.{Statement};

use mug_text::{Listed, NoMemory, SAFE_END, decimal_below};
use std::alloc::Global;

/// What a call logs.
#[derive(Clone, Copy, Debug, PartialEq, Eq)]
pub enum Argument {
    /// `Date.now()`
    Now,
    /// `Math.random()`
    Rand,
    /// A number in decimal digits.
    Number(u64),
}

#[derive(Debug, Drop)]
pub enum Statement {
    /// `Date.now()`
    Now,
    /// `Math.random()`
    Rand,
    /// `console.log(..)`
    Log(Listed<Argument>),
}

// The bytes behind this prefix.
fn past<'a>(bytes: &'a [u8], prefix: &[u8]) -> Option<&'a [u8]>
    ensures { MatchOption result ((more : List ℕ) → bytes.now ≢ prefix.now ++ more)
        (λ more. bytes.now ≡ prefix.now ++ more.now) }
{
    bytes.strip_prefix(prefix)
}

// The digits in front, and the bytes behind them.
fn split_digits(bytes: &[u8]) -> (&[u8], &[u8])
    ensures whole { bytes.now ≡ result.0.now ++ result.1.now }
    ensures digits { All IsDigit result.0.now }
    ensures ends { EndsDigits result.1.now }
{
    let mut len = 0;
    while len < bytes.len() && bytes[len] >= b'0' && bytes[len] <= b'9' {
        len += 1;
    }
    bytes.split_at(len)
}

// Whether a comma or a parenthesis stands in front.
fn ends_argument(bytes: &[u8]) -> bool
    ensures { IsTrue result ↔ EndsArgument bytes.now }
{
    !bytes.is_empty() && (bytes[0] == b',' || bytes[0] == b')')
}

// The argument, where it ends there.
fn ended(argument: Argument, more: &[u8]) -> Option<(Argument, &[u8])>
    ensures { MatchOption result (EndsArgument more.now → ⊥)
        (λ pair. EndsArgument more.now × (pair.0 ≡ argument) × (pair.1.now ≡ more.now)) }
{
    if ends_argument(more) {
        Some((argument, more))
    } else {
        None
    }
}

// The argument in front, and the bytes behind it.
fn read_argument(bytes: &[u8]) -> Option<(Argument, &[u8])>
    ensures { MatchOption result
        ((argument : Argument) (more : List ℕ) → IsArgument argument → EndsArgument more
        → bytes.now ≢ argument_text argument ++ more)
        (λ pair. IsArgument pair.0 × EndsArgument pair.1.now
        × (bytes.now ≡ argument_text pair.0 ++ pair.1.now)) }
{
    if let Some(more) = past(bytes, b"Date.now()") {
        return ended(Argument::Now, more);
    }
    if let Some(more) = past(bytes, b"Math.random()") {
        return ended(Argument::Rand, more);
    }
    let (digits, more) = split_digits(bytes);
    match decimal_below(digits, SAFE_END) {
        Some(n) => ended(Argument::Number(n), more),
        None => None,
    }
}

// The arguments in front, up to the parenthesis, and the bytes behind it.
fn read_arguments(
    alloc: Global,
    bytes: &[u8],
) -> Result<Option<(Listed<Argument>, &[u8])>, NoMemory>
    ensures { IfOk result
        (λ found. MatchOption found
        ((arguments : List Argument) (more : List ℕ) → HasArguments bytes.now arguments more → ⊥)
        (λ pair. HasArguments bytes.now pair.0 pair.1.now)) }
{
    let mut arguments = Vec::new(alloc);
    let mut rest = bytes;
    'arguments: while arguments.len() < 8 {
        let Some((argument, more)) = read_argument(rest) else {
            return Ok(None);
        };
        arguments.push(argument)?;
        if let Some(behind) = past(more, b")") {
            return Ok(Some((Listed::of(arguments), behind)));
        }
        let Some(next) = past(more, b",") else {
            return Ok(None);
        };
        rest = next;
    }
    Ok(None)
}

// The statement in front, and the bytes behind it.
fn read_statement(alloc: Global, bytes: &[u8]) -> Result<Option<(Statement, &[u8])>, NoMemory>
    ensures { IfOk result
        (λ found. MatchOption found
        ((statement : Statement) (more : List ℕ) → HasStatement bytes.now statement more → ⊥)
        (λ pair. HasStatement bytes.now pair.0 pair.1.now)) }
{
    if let Some(more) = past(bytes, b"Date.now()") {
        return Ok(Some((Statement::Now, more)));
    }
    if let Some(more) = past(bytes, b"Math.random()") {
        return Ok(Some((Statement::Rand, more)));
    }
    let Some(inner) = past(bytes, b"console.log(") else {
        return Ok(None);
    };
    match read_arguments(alloc, inner) {
        Ok(Some((arguments, more))) => Ok(Some((Statement::Log(arguments), more))),
        Ok(None) => Ok(None),
        Err(NoMemory) => Err(NoMemory),
    }
}

fn ends_script(bytes: &[u8]) -> bool
    ensures { IsTrue result ↔ EndsScript bytes.now }
{
    bytes == b"</script>".as_slice() || bytes == b";</script>".as_slice()
}

// The statements up to the end of the script.
fn read_statements(alloc: Global, bytes: &[u8]) -> Result<Option<Listed<Statement>>, NoMemory>
    ensures { IfOk result
        (λ found. MatchOption found
        ((statements : List Statement) → AreStatements bytes.now statements → ⊥)
        (λ statements. AreStatements bytes.now statements)) }
{
    let mut statements = Vec::new(alloc);
    let mut rest = bytes;
    'statements: loop {
        let (statement, more) = match read_statement(alloc, rest) {
            Ok(Some(read)) => read,
            Ok(None) => return Ok(None),
            Err(NoMemory) => return Err(NoMemory),
        };
        statements.push(statement)?;
        if ends_script(more) {
            return Ok(Some(Listed::of(statements)));
        }
        let Some(next) = past(more, b";") else {
            return Ok(None);
        };
        rest = next;
    }
}

/// Reads the statements of a thin page.
pub fn read_thin(alloc: Global, page: &[u8]) -> Result<Option<Listed<Statement>>, NoMemory>
    ensures { IfOk result
        (λ found. MatchOption found ((statements : List Statement) → IsThin page.now statements → ⊥)
        (λ statements. IsThin page.now statements)) }
{
    if page.is_empty() {
        return Ok(Some(Listed::of(Vec::new(alloc))));
    }
    match past(page, b"<script>") {
        Some(inner) => read_statements(alloc, inner),
        None => Ok(None),
    }
}

/// A page is of one list of statements. This function does nothing: its clause is the law.
pub fn a_page_has_one_list()
    ensures { (bytes : List ℕ) (a b : List Statement) → IsThin bytes a → IsThin bytes b → a ≡ b }
{}

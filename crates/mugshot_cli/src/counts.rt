// What a run counts.
ghost use Rattle.std.specs.Prelude.{◌≡◌, ◌+◌, ◌≤◌, ◌++◌, length};
ghost use Rattle.capture_engine.specs.declared.line.TheConstants.{LINE_LIMIT};
ghost use Rattle.mugshot_cli.specs.Printing.{counts_text};

use capture_engine::Line;

/// What is counted at the end of a run.
#[derive(Clone, Copy, Debug, PartialEq, Eq)]
pub struct Counts {
    /// Page steps.
    pub steps: u64,
    /// Steps of inserted code.
    pub hidden: u64,
    /// The calls that inserted code has counted.
    pub calls: u64,
    /// Those of them that began within another.
    pub nested: u64,
}

/// Puts the counts after what stands on a line: 190 bytes at most.
pub fn push_counts(line: &mut Line, counts: Counts)
    requires { length line.old + 190 ≤ LINE_LIMIT }
    ensures grown { line.new ≡ line.old ++ counts_text counts }
    ensures short { length line.new ≤ length line.old + 190 }
{
    line.push(b" steps=");
    line.push_number(counts.steps);
    line.push(b" hidden=");
    line.push_number(counts.hidden);
    line.push(b" calls=");
    line.push_number(counts.calls);
    line.push(b" nested=");
    line.push_number(counts.nested);
}

// The last line of a capture.
ghost use Rattle.std.specs.Prelude.{◌≡◌, ◌≤◌, length};
ghost use Rattle.mugshot_cli.specs.Capturing.{end_word, summary};
ghost use Rattle.mugshot_cli.specs.ThinPage.inner.PlainState.{run_end};

use crate::counts::{Counts, push_counts};
use crate::thin_page::end::PlainEnd;
use capture_engine::Line;

/// What a capture's last line says.
#[derive(Clone, Copy, Debug, PartialEq, Eq)]
pub struct Summary {
    pub end: PlainEnd,
    pub turns: u64,
    pub dropped: u64,
    pub counts: Counts,
    pub inputs: u64,
    pub frames: u64,
}

fn end_word(end: PlainEnd) -> &'static [u8]
    ensures word { result.now ≡ end_word (run_end end) }
    ensures short { length result.now ≤ 40 }
{
    match end {
        PlainEnd::Finished => b"done",
        PlainEnd::Budget => b"budget",
    }
}

impl Summary {
    pub fn line(self) -> Line
        ensures { result ≡ summary (run_end self.end) self.turns self.dropped self.counts
            self.inputs self.frames }
    {
        let mut line = Line::new();
        line.push(end_word(self.end));
        line.push(b" turns=");
        line.push_number(self.turns);
        line.push(b" dropped=");
        line.push_number(self.dropped);
        push_counts(&mut line, self.counts);
        line.push(b" inputs=");
        line.push_number(self.inputs);
        line.push(b" frames=");
        line.push_number(self.frames);
        line.push(b"\n");
        line
    }
}

// Captures the run of a page in a session.
ghost use Rattle.std.specs.Prelude.{◌≡◌, ◌≤◌, All, IfErr, IfOk, OnErr};
ghost use Rattle.arrival_file.specs.Ranges.{IsInRange};
ghost use Rattle.input_log.specs.Items.{IsItem};
ghost use Rattle.input_log.specs.declared.item.LogItem.TheVariants.{Head};
ghost use Rattle.input_log.specs.declared.item.TheConstants.{STEPS_LIMIT};
ghost use Rattle.capture_engine.specs.Outside.{shown};
ghost use Rattle.mugshot_cli.specs.Capturing.{CaptureDid};
ghost use Rattle.mugshot_cli.specs.Outside.{Stream, outside, supply};
ghost use Rattle.mugshot_cli.specs.ThinPage.Run.{plain};
ghost use Rattle.mugshot_cli.specs.inner.Material.{CapturesFrom, IsMaterial, MaterialRefused};
ghost use Rattle.mugshot_cli.specs.inner.Recording.{RecordsRun};
ghost use Rattle.mugshot_cli.specs.declared.capturing.CaptureOutcome.TheVariants as capture_outcome;

use crate::sources::{ArrivalsRefusal, Page, PageRefusal, read_file, read_thin_page};
use crate::thin_page::plain_run::PlainRun;
use crate::thin_page::recording::{RunOutcome, record_run};
use arrival_file::Arrivals;
use input_log::LogItem;
use mug_disk::Disk;
use mug_outside::{Sink, Source};
use mug_text::NoMemory;
use std::alloc::Global;

/// What `capture` comes to.
#[derive(Clone, Copy, Debug, PartialEq, Eq)]
pub enum CaptureOutcome {
    /// The session has bytes already.
    NotEmpty,
    /// The session's length isn't told.
    DiskFault,
    /// Before the session was written.
    NoMemory,
    Page(PageRefusal),
    Arrivals(ArrivalsRefusal),
    Ran(RunOutcome),
}

impl From<NoMemory> for CaptureOutcome {
    ghost from_gives = { λ _ outcome. outcome ≡ capture_outcome.NoMemory };

    fn from(_fault: NoMemory) -> CaptureOutcome {
        CaptureOutcome::NoMemory
    }
}

impl From<PageRefusal> for CaptureOutcome {
    ghost from_gives = { λ why outcome. outcome ≡ capture_outcome.Page why };

    fn from(why: PageRefusal) -> CaptureOutcome {
        CaptureOutcome::Page(why)
    }
}

impl From<ArrivalsRefusal> for CaptureOutcome {
    ghost from_gives = { λ why outcome. outcome ≡ capture_outcome.Arrivals why };

    fn from(why: ArrivalsRefusal) -> CaptureOutcome {
        CaptureOutcome::Arrivals(why)
    }
}

// What a run is made of.
#[derive(Debug, Drop)]
pub struct Material {
    pub page: Page,
    pub given: Arrivals,
}

// Reads what a run is made of.
fn read_material<P: Source, A: Source>(
    alloc: Global,
    page: &mut P,
    arrivals: &mut A,
) -> Result<Material, CaptureOutcome>
    ensures read { IfOk result
        (λ m. IsMaterial m (supply P.Source page.old) (supply A.Source arrivals.old)) }
    ensures refused { IfErr result
        (λ outcome. MaterialRefused outcome (supply P.Source page.old) (supply P.Source page.new)
        (supply A.Source arrivals.old) (supply A.Source arrivals.new)) }
{
    let page = read_thin_page(alloc, page)?;
    let given = read_file(alloc, arrivals)?;
    Ok(Material { page, given })
}

// Records the run that this is made of, in a session on an empty disk.
fn record<D: Disk, O: Sink>(
    alloc: Global,
    material: Material,
    budget: u64,
    disk: &mut D,
    out: &mut O,
) -> Result<RunOutcome, NoMemory>
    requires head { IsItem (Head material.given.base budget material.page.bytes) }
    requires ranges { All IsInRange material.given.turns }
    ensures records { IfOk result
        (λ outcome. RecordsRun outcome (Head material.given.base budget material.page.bytes) budget
        (plain budget material.page.statements material.given.turns)
        (shown D.Disk O.Sink disk.old out.old) (shown D.Disk O.Sink disk.new out.new)) }
    ensures same { OnErr result
        (shown D.Disk O.Sink disk.new out.new ≡ shown D.Disk O.Sink disk.old out.old) }
{
    let Material { page, given } = material;
    let Arrivals { base, turns } = given;
    let Page { bytes, statements } = page;
    let mut run = PlainRun::new(alloc, statements.as_slice(), turns.as_slice(), budget)?;
    let head = LogItem::Head {
        base,
        budget,
        page: bytes,
    };
    Ok(record_run(alloc, &head, &mut run, budget, disk, out))
}

// Records a run in a session on an empty disk.
fn captured<P: Source, A: Source, D: Disk, O: Sink>(
    alloc: Global,
    budget: u64,
    page: &mut P,
    arrivals: &mut A,
    disk: &mut D,
    out: &mut O,
) -> Result<RunOutcome, CaptureOutcome>
    requires least { 1 ≤ budget }
    requires most { budget ≤ STEPS_LIMIT }
    ensures { CapturesFrom result budget
        (supply P.Source page.old) (supply P.Source page.new)
        (supply A.Source arrivals.old) (supply A.Source arrivals.new)
        (shown D.Disk O.Sink disk.old out.old) (shown D.Disk O.Sink disk.new out.new) }
{
    let material = read_material(alloc, page, arrivals)?;
    let outcome = record(alloc, material, budget, disk, out)?;
    Ok(outcome)
}

/// Records the run of a page over the arrivals of a file, in a session on an empty disk. The budget
/// is in page steps.
pub fn capture<P: Source, A: Source, D: Disk, O: Sink>(
    alloc: Global,
    budget: u64,
    page: &mut P,
    arrivals: &mut A,
    disk: &mut D,
    out: &mut O,
) -> CaptureOutcome
    requires least { 1 ≤ budget }
    requires most { budget ≤ STEPS_LIMIT }
    ensures { (err err' : Stream) → CaptureDid result budget
        (outside P.Source A.Source D.Disk O.Sink page.old arrivals.old disk.old out.old err)
        (outside P.Source A.Source D.Disk O.Sink page.new arrivals.new disk.new out.new err') }
{
    match disk.len() {
        Ok(0) => {}
        Ok(_) => return CaptureOutcome::NotEmpty,
        Err(_) => return CaptureOutcome::DiskFault,
    }
    match captured(alloc, budget, page, arrivals, disk, out) {
        Ok(outcome) => CaptureOutcome::Ran(outcome),
        Err(outcome) => outcome,
    }
}

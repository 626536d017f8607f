// The paths of events in a page.
ghost use Rattle.event_dispatch.specs.Path.{IsThere};

use crate::words::{small, text_of};
use dom_tree::Dom;
use event_dispatch::{Target, path};
use html_profile::read_html;
use mug_text::{JText, NoMemory};
use std::alloc::Global;

/// The path of an event at a node of the page; both stand behind `;`.
pub fn left(alloc: Global, written: &str) -> Result<String, NoMemory> {
    let Some((page, words)) = written.split_once(" ; ") else {
        return Ok(String::from_str(alloc, "no target")?);
    };
    let document = match read_html(alloc, page.as_bytes()) {
        Ok(document) => document,
        Err(_) => return Ok(String::from_str(alloc, "no page")?),
    };
    let dom = Dom::from_document(alloc, &document)?;
    let mut words = words.split(" ");
    let target = words.next();
    let kind = text_of(alloc, words.next())?;
    match target {
        Some("window") => path_line(alloc, &dom, Target::Window, &kind),
        Some("request") => path_line(alloc, &dom, Target::Request(3), &kind),
        _ => at_node(alloc, &dom, small(target), &kind),
    }
}

fn at_node(alloc: Global, dom: &Dom, node: u32, kind: &JText) -> Result<String, NoMemory> {
    if node >= dom.count() {
        return Ok(String::from_str(alloc, "no node")?);
    }
    path_line(alloc, dom, Target::Node(node), kind)
}

fn path_line(alloc: Global, dom: &Dom, target: Target, kind: &JText) -> Result<String, NoMemory>
    requires { IsThere dom.now target }
{
    let targets = path(alloc, dom, target, kind)?;
    let mut out = String::new(alloc);
    for target in targets.as_slice() {
        out.push_str(target_line(alloc, *target)?.as_str())?;
    }
    Ok(out)
}

fn target_line(alloc: Global, target: Target) -> Result<String, NoMemory> {
    match target {
        Target::Window => Ok(String::from_str(alloc, "window|")?),
        Target::Node(node) => Ok(format!(in alloc; "{node}|")?),
        Target::Request(request) => Ok(format!(in alloc; "request {request}|")?),
    }
}

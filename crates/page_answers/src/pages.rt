// How a page is read.
ghost use Rattle.std.specs.Prelude.{◌<◌, length};

use crate::lines::fault_line;
use html_profile::{Content, Document, is_handler_name, read_html, read_whole};
use mug_text::{JText, NoMemory};
use std::alloc::Global;

/// A text as it is printed.
pub fn text_line(alloc: Global, text: &JText) -> Result<String, NoMemory> {
    let mut out = Vec::new(alloc);
    text.shown(&mut out)?;
    match String::from_utf8(out) {
        Ok(text) => Ok(text),
        Err(_) => Ok(String::from_str(alloc, "no text")?),
    }
}

/// The page that the bytes are.
pub fn read(alloc: Global, bytes: &[u8]) -> Result<String, NoMemory> {
    match read_html(alloc, bytes) {
        Ok(document) => document_line(alloc, &document),
        Err(fault) => fault_line(alloc, fault),
    }
}

/// The page that the bytes are with nothing taken out.
pub fn whole(alloc: Global, bytes: &[u8]) -> Result<String, NoMemory> {
    match read_whole(alloc, bytes) {
        Ok(document) => document_line(alloc, &document),
        Err(fault) => fault_line(alloc, fault),
    }
}

// The nodes, and behind ` ; ` the scripts, the handlers and the places of the names.
fn document_line(alloc: Global, document: &Document) -> Result<String, NoMemory> {
    let mut out = String::new(alloc);
    for id in 0..document.count() {
        out.push_str(node_line(alloc, document, id)?.as_str())?;
    }
    out.push_str(scripts_line(alloc, document)?.as_str())?;
    for handler in document.handlers() {
        let name = text_line(alloc, &handler.name)?;
        let text = text_line(alloc, &handler.text)?;
        let line = format!(in alloc; " handler {} {name} {text} {}", handler.node, handler.at)?;
        out.push_str(line.as_str())?;
    }
    for name in document.names() {
        let shown = text_line(alloc, &name.name)?;
        let mark = if is_handler_name(&name.name) { "!" } else { "" };
        let line = format!(in alloc; " name {} {shown}{mark} {}", name.node, name.at)?;
        out.push_str(line.as_str())?;
    }
    Ok(out)
}

fn node_line(alloc: Global, document: &Document, id: u32) -> Result<String, NoMemory>
    requires { id < length document.now.nodes }
{
    let node = document.node(id);
    let mut out = String::new(alloc);
    if let Some(parent) = node.parent {
        out.push_str(format!(in alloc; "{parent}")?.as_str())?;
    }
    match &node.content {
        Content::Document => out.push_str("#")?,
        Content::Text(text) => {
            out.push_str("'")?;
            out.push_str(text_line(alloc, text)?.as_str())?;
        }
        Content::Element { name, attributes } => {
            out.push_str("<")?;
            out.push_str(text_line(alloc, name)?.as_str())?;
            for attribute in attributes.as_slice() {
                let name = text_line(alloc, &attribute.name)?;
                let value = text_line(alloc, &attribute.value)?;
                out.push_str(format!(in alloc; " {name}={value}")?.as_str())?;
            }
        }
    }
    out.push_str("|")?;
    Ok(out)
}

fn scripts_line(alloc: Global, document: &Document) -> Result<String, NoMemory> {
    let mut out = String::new(alloc);
    for (number, script) in document.scripts().iter().enumerate() {
        let text = text_line(alloc, &script.text)?;
        let line = format!(in alloc; " script {} '{text} at", script.node)?;
        out.push_str(line.as_str())?;
        for unit in 0..script.text.len() {
            let place = document.script_byte(number, unit);
            out.push_str(format!(in alloc; " {place}")?.as_str())?;
        }
        if let Some(src) = &script.src {
            let src = text_line(alloc, src)?;
            out.push_str(format!(in alloc; " src '{src}")?.as_str())?;
        }
    }
    Ok(out)
}

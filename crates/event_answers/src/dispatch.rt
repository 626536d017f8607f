// What listeners come to, and whom a dispatch calls.
use crate::words::{none, small, text_line, text_of};
use event_dispatch::{Call, Listener, Listeners, Phase, Role, Stop, Walk};
use js_value::{Callable, Callee, HidId, ObjId, Value};
use mug_text::{JText, Listed, NoMemory};
use std::alloc::Global;

// Listeners, and the dispatches that are going on, the last one on top.
#[derive(Drop)]
struct Page {
    listeners: Listeners,
    walks: Vec<Walk>,
}

/// What each of the calls answers, and the listeners that are left.
pub fn left(alloc: Global, calls: &str) -> Result<String, NoMemory> {
    let mut page = Page {
        listeners: Listeners::new(alloc),
        walks: Vec::new(alloc),
    };
    let mut out = String::new(alloc);
    for call in calls.split(", ") {
        let answer = answered(alloc, &mut page, call)?;
        out.push_str(answer.as_str())?;
        out.push_str("; ")?;
    }
    for number in 0..page.listeners.given() {
        if let Some(listener) = page.listeners.listener(number) {
            out.push_str(listener_line(alloc, listener)?.as_str())?;
        }
    }
    Ok(out)
}

fn answered(alloc: Global, page: &mut Page, call: &str) -> Result<String, NoMemory> {
    let mut words = call.split(" ");
    let name = words.next().unwrap_or("");
    let first = words.next();
    let second = words.next();
    let third = words.next();
    let last = words.next();
    match name {
        "start" => start(alloc, page, first.unwrap_or(""), second, third.is_some()),
        "next" => next(alloc, page, first),
        _ => {
            let owner = ObjId {
                number: small(first),
            };
            let kind = text_of(alloc, second)?;
            changed(
                alloc,
                &mut page.listeners,
                name,
                owner,
                &kind,
                third.unwrap_or(""),
                last.is_some(),
            )
        }
    }
}

// The function that a word names: an object by its number, or behind `w` a wrap of it.
fn function(word: &str) -> Callable {
    match word.strip_prefix("w") {
        Some(word) => Callable::Wrap(
            HidId { number: 0 },
            Callee::Ref(ObjId {
                number: small(Some(word)),
            }),
        ),
        None => Callable::Ref(ObjId {
            number: small(Some(word)),
        }),
    }
}

fn changed(
    alloc: Global,
    listeners: &mut Listeners,
    name: &str,
    owner: ObjId,
    kind: &JText,
    word: &str,
    capture: bool,
) -> Result<String, NoMemory> {
    let f = function(word);
    match name {
        "add" => listeners.add(owner, kind, f, capture)?,
        "cut" => listeners.remove(owner, kind, &Value::from(f), capture),
        "on" => listeners.set_handler(owner, kind, Some(f))?,
        "off" => listeners.set_handler(owner, kind, None)?,
        "handler" => {
            return match listeners.handler(owner, kind) {
                Some(f) => function_line(alloc, f),
                None => none(alloc),
            };
        }
        _ => return Ok(String::from_str(alloc, "no call")?),
    }
    Ok(String::from_str(alloc, "ok")?)
}

fn push(owners: &mut Vec<ObjId>, word: &str) -> Result<(), NoMemory> {
    let owner = ObjId {
        number: small(Some(word)),
    };
    match owners.push(owner) {
        Ok(()) => Ok(()),
        Err(_) => Err(NoMemory),
    }
}

// Starts a dispatch along a path of objects.
fn start(
    alloc: Global,
    page: &mut Page,
    path: &str,
    kind: Option<&str>,
    bubbles: bool,
) -> Result<String, NoMemory> {
    let mut owners = Vec::new(alloc);
    for word in path.split("/") {
        push(&mut owners, word)?;
    }
    let kind = text_of(alloc, kind)?;
    let walk = Walk::new(Listed::of(owners), kind, bubbles);
    match page.walks.push(walk) {
        Ok(()) => Ok(String::from_str(alloc, "ok")?),
        Err(_) => Err(NoMemory),
    }
}

// The next call of the dispatch on top, which is taken away at its end.
fn next(alloc: Global, page: &mut Page, word: Option<&str>) -> Result<String, NoMemory> {
    let stop = match word {
        Some("stop") => Stop::AfterObject,
        Some("now") => Stop::Now,
        _ => Stop::Go,
    };
    let Some(walk) = page.walks.last_mut() else {
        return none(alloc);
    };
    match walk.next(&page.listeners, stop)? {
        Some(call) => call_line(alloc, &call),
        None => {
            let _ended = page.walks.pop();
            Ok(String::from_str(alloc, "end")?)
        }
    }
}

fn function_line(alloc: Global, f: Callable) -> Result<String, NoMemory> {
    match f {
        Callable::Ref(object) => {
            let number = object.number;
            Ok(format!(in alloc; "{number}")?)
        }
        Callable::Wrap(_, Callee::Ref(object)) => {
            let number = object.number;
            Ok(format!(in alloc; "w{number}")?)
        }
        _ => Ok(String::from_str(alloc, "native")?),
    }
}

// A call: what, where, in which phase, and whether it is a handler's.
fn call_line(alloc: Global, call: &Call) -> Result<String, NoMemory> {
    let f = function_line(alloc, call.f)?;
    let owner = call.owner.number;
    let phase = match call.phase {
        Phase::Capturing => "down",
        Phase::AtTarget => "at",
        Phase::Bubbling => "up",
    };
    let handler = if call.handler { " handler" } else { "" };
    Ok(format!(in alloc; "{f} {phase} {owner}{handler}")?)
}

// A listener: its number, its object, its type, what it calls, and what it was added as.
fn listener_line(alloc: Global, listener: &Listener) -> Result<String, NoMemory> {
    let number = listener.number;
    let owner = listener.owner.number;
    let kind = text_line(alloc, &listener.kind)?;
    let f = function_line(alloc, listener.f)?;
    let role = match listener.role {
        Role::Capture => "capture",
        Role::Bubble => "bubble",
        Role::Handler => "handler",
    };
    Ok(format!(in alloc; "{number} {owner} {kind} {f} {role}|")?)
}

// What requests come to.

use crate::words::{large, number_line, small, text_line, text_of};
use mug_text::NoMemory;
use request_model::{Flight, Request, RequestFault, Requests};
use std::alloc::Global;

/// What each of the calls answers, and the objects and flights that are left.
pub fn left(alloc: Global, calls: &str) -> Result<String, NoMemory> {
    let mut requests = Requests::new(alloc);
    let mut out = String::new(alloc);
    for call in calls.split(", ") {
        let answer = answered(alloc, &mut requests, call)?;
        out.push_str(answer.as_str())?;
        out.push_str("; ")?;
    }
    for at in 0..requests.count() {
        let line = request_line(alloc, requests.request(at))?;
        out.push_str(line.as_str())?;
    }
    for number in 0..requests.sent_count() {
        if let Some(flight) = requests.flight(number + 1) {
            let line = flight_line(alloc, flight, requests.in_flight(number + 1))?;
            out.push_str(line.as_str())?;
        }
    }
    Ok(out)
}

fn answered(alloc: Global, requests: &mut Requests, call: &str) -> Result<String, NoMemory> {
    let mut words = call.split(" ");
    let name = words.next().unwrap_or("");
    let first = small(words.next());
    let second = words.next();
    let third = words.next();
    match name {
        "make" => numbered(alloc, requests.make()),
        "flying" => Ok(format!(in alloc; "{}", requests.in_flight(first))?),
        "reply" => {
            let status = (large(second) % 1000) as u16;
            replied(alloc, requests, first, status, third)
        }
        "fail" => failed(alloc, requests, first),
        _ => changed(alloc, requests, name, first, second, third),
    }
}

fn changed(
    alloc: Global,
    requests: &mut Requests,
    name: &str,
    at: u32,
    second: Option<&str>,
    third: Option<&str>,
) -> Result<String, NoMemory> {
    if at >= requests.count() {
        return Ok(String::from_str(alloc, "no object")?);
    }
    match name {
        "open" => {
            let method = text_of(alloc, second)?;
            let url = text_of(alloc, third)?;
            let new = requests.set_up(at, &method, &url)?;
            Ok(format!(in alloc; "{new}")?)
        }
        "send" => numbered(alloc, requests.send(at)),
        "abort" => Ok(format!(in alloc; "{}", requests.abort(at))?),
        _ => Ok(String::from_str(alloc, "no call")?),
    }
}

fn numbered(alloc: Global, answer: Result<u32, RequestFault>) -> Result<String, NoMemory> {
    match answer {
        Ok(number) => Ok(format!(in alloc; "{number}")?),
        Err(fault) => Ok(format!(in alloc; "{fault}")?),
    }
}

fn replied(
    alloc: Global,
    requests: &mut Requests,
    number: u32,
    status: u16,
    body: Option<&str>,
) -> Result<String, NoMemory> {
    if !requests.in_flight(number) {
        return Ok(String::from_str(alloc, "dropped")?);
    }
    let body = text_of(alloc, body)?;
    requests.reply(number, status, body);
    Ok(String::from_str(alloc, "ok")?)
}

fn failed(alloc: Global, requests: &mut Requests, number: u32) -> Result<String, NoMemory> {
    if !requests.in_flight(number) {
        return Ok(String::from_str(alloc, "dropped")?);
    }
    requests.fail(number);
    Ok(String::from_str(alloc, "ok")?)
}

// An object: its state, its status, its text, and the number of its flight.
fn request_line(alloc: Global, request: &Request) -> Result<String, NoMemory> {
    let mut out = format!(in alloc; "{} {} ", request.ready_state(), request.status())?;
    if let Some(text) = request.text() {
        out.push_str(text_line(alloc, text)?.as_str())?;
    }
    out.push_str(" ")?;
    out.push_str(number_line(alloc, request.flight())?.as_str())?;
    out.push_str("|")?;
    Ok(out)
}

// What was sent: the object, the method, the URL, and whether it is in flight.
fn flight_line(alloc: Global, flight: &Flight, flying: bool) -> Result<String, NoMemory> {
    let request = flight.request;
    let method = text_line(alloc, &flight.method)?;
    let url = text_line(alloc, &flight.url)?;
    Ok(format!(in alloc; "{request} {method} {url} {flying}|")?)
}

// The requests of a page.
ghost use Rattle.std.specs.Prelude.{◌≡◌, ◌↔◌, ◌+◌, ◌<◌, ◌≤◌, ◌++◌, ◌∷◌, [], true, false, not, length, slice_get, Some, IfOk, OnOk, OnErr};
ghost use Rattle.std.specs.Option.{option_copied, option_and_then, option_map_or};
ghost use Rattle.request_model.specs.Request as one;
ghost use Rattle.request_model.specs.Requests as all;

use crate::{Flight, REQUEST_LIMIT, Request, RequestFault};
use mug_text::{JText, NoMemory};
use std::alloc::{AllocError, Global};
use std::marker::Model;

/// The objects of a page, by their places, and what was sent, by number from 1 on.
#[derive(Debug, Drop)]
pub struct Requests {
    requests: Vec<Request>,
    flights: Vec<Flight>,
}

impl Model for Requests {
    ghost use Rattle.request_model.specs.Requests.{RequestList, Fits};

    ghost Value = { RequestList };

    ghost view = { λ q. record { requests = q.requests.items; flights = q.flights.items } };

    ghost invariant = { λ q.
        Fits (record { requests = q.requests.items; flights = q.flights.items }) };
}

fn push_request(requests: &mut Vec<Request>, request: Request) -> Result<(), AllocError>
    ensures ok { OnOk result (requests.new.items ≡ requests.old.items ++ request ∷ []) }
    ensures err { OnErr result (requests.new.items ≡ requests.old.items) }
{
    requests.push(request)?;
    Ok(())
}

fn push_flight(flights: &mut Vec<Flight>, flight: Flight) -> Result<(), AllocError>
    ensures ok { OnOk result (flights.new.items ≡ flights.old.items ++ flight ∷ []) }
    ensures err { OnErr result (flights.new.items ≡ flights.old.items) }
{
    flights.push(flight)?;
    Ok(())
}

// What the object sends.
fn flight_from(request: &Request, at: u32) -> Result<Flight, NoMemory>
    requires { one.can_send request.now ≡ true }
    ensures { IfOk result (λ flight. all.IsFlightFrom request.now at flight) }
{
    let Request::Opened { method, url, .. } = request else {
        unreachable!()
    };
    Ok(Flight {
        request: at,
        method: method.copy()?,
        url: url.copy()?,
    })
}

// What was sent under this number.
fn flight_at(flights: &[Flight], number: u32) -> Option<&Flight>
    ensures { option_copied result ≡ all.flight_in number flights.now }
{
    if number == 0 {
        return None;
    }
    flights.get(number as usize - 1)
}

impl Requests {
    /// No object, and nothing that was sent.
    pub fn new(alloc: Global) -> Requests
        ensures { result ≡ all.no_requests }
    {
        Requests {
            requests: Vec::new(alloc),
            flights: Vec::new(alloc),
        }
    }

    /// How many objects there are.
    pub fn count(&self) -> u32
        ensures { result ≡ length self.now.requests }
    {
        self.requests.len() as u32
    }

    /// The object of this number, from 0 on.
    pub fn request(&self, at: u32) -> &Request
        requires { at < length self.now.requests }
        ensures { slice_get self.now.requests at ≡ Some result.now }
    {
        &self.requests[at as usize]
    }

    /// How many times something was sent; the numbers of flights are those from 1 up to this one.
    pub fn sent_count(&self) -> u32
        ensures { result ≡ length self.now.flights }
    {
        self.flights.len() as u32
    }

    /// What was sent under this number.
    pub fn flight(&self, number: u32) -> Option<&Flight>
        ensures { option_copied result ≡ all.flight_at number self.now }
    {
        flight_at(&self.flights, number)
    }

    /// A new object, not opened. Its number is that of the objects before it.
    pub fn make(&mut self) -> Result<u32, RequestFault>
        ensures number { IfOk result (λ at. at ≡ length self.old.requests) }
        ensures made { OnOk result (self.new ≡ all.made self.old) }
        ensures full { result ≡ Err RequestFault.Full ↔ (REQUEST_LIMIT ≤ length self.old.requests) }
        ensures state { result ≡ Err RequestFault.State → ⊥ }
        ensures unchanged { OnErr result (self.new ≡ self.old) }
    {
        let at = self.requests.len();
        if at >= REQUEST_LIMIT {
            return Err(RequestFault::Full);
        }
        push_request(&mut self.requests, Request::Unsent)?;
        Ok(at as u32)
    }

    /// Opens the object for this method and URL, and gives up a flight; whether its state was
    /// another than 1.
    pub fn set_up(&mut self, at: u32, method: &JText, url: &JText) -> Result<bool, NoMemory>
        requires { at < length self.old.requests }
        ensures new { IfOk result (λ new.
            new ≡ not (all.is_opened (slice_get self.old.requests at))) }
        ensures opened { OnOk result (self.new ≡ all.opened at method.now url.now self.old) }
        ensures unchanged { OnErr result (self.new ≡ self.old) }
    {
        let method = method.copy()?;
        let url = url.copy()?;
        let request = &mut self.requests[at as usize];
        let before = request.ready_state();
        *request = Request::Opened {
            method,
            url,
            flight: None,
        };
        Ok(before != 1)
    }

    /// Sends the object's request, under the next number.
    pub fn send(&mut self, at: u32) -> Result<u32, RequestFault>
        requires { at < length self.old.requests }
        ensures number { IfOk result (λ number. number ≡ length self.old.flights + 1) }
        ensures sent { OnOk result (self.new ≡ all.sent at self.old) }
        ensures state { result ≡ Err RequestFault.State ↔ (all.can_be_sent at self.old ≡ false) }
        ensures full { result ≡ Err RequestFault.Full ↔
            ((all.can_be_sent at self.old ≡ true) × (REQUEST_LIMIT ≤ length self.old.flights)) }
        ensures unchanged { OnErr result (self.new ≡ self.old) }
    {
        let request = &self.requests[at as usize];
        if !request.can_send() {
            return Err(RequestFault::State);
        }
        if self.flights.len() >= REQUEST_LIMIT {
            return Err(RequestFault::Full);
        }
        let flight = flight_from(request, at)?;
        push_flight(&mut self.flights, flight)?;
        let number = self.flights.len() as u32;
        let request = &mut self.requests[at as usize];
        request.wait(number);
        Ok(number)
    }

    /// Aborts the object's request; whether it was in flight. Then it is done with status 0; a done
    /// one is as if it was never opened, and any other stays as it is.
    pub fn abort(&mut self, at: u32) -> bool
        requires { at < length self.old.requests }
        ensures is { result ≡ option_map_or one.waits (slice_get self.old.requests at) false }
        ensures after { self.new ≡ all.aborted at self.old }
    {
        let request = &mut self.requests[at as usize];
        request.abort()
    }

    /// Ends a flight with a reply.
    pub fn reply(&mut self, number: u32, status: u16, body: JText)
        requires { all.is_in_flight number self.old ≡ true }
        ensures { self.new ≡ all.replied number status body self.old }
    {
        let at = self.owner(number);
        self.requests[at as usize] = Request::Done {
            status,
            text: Some(body),
        };
    }

    /// Ends a flight with a failure.
    pub fn fail(&mut self, number: u32)
        requires { all.is_in_flight number self.old ≡ true }
        ensures { self.new ≡ all.failed number self.old }
    {
        let at = self.owner(number);
        self.requests[at as usize] = Request::Done {
            status: 0,
            text: None,
        };
    }

    /// Whether what was sent under this number is in flight: its object still waits for it.
    pub fn in_flight(&self, number: u32) -> bool
        ensures { result ≡ all.is_in_flight number self.now }
    {
        match flight_at(&self.flights, number) {
            Some(flight) => {
                let request = &self.requests[flight.request as usize];
                matches!(request.flight(), Some(waited) if waited == number)
            }
            None => false,
        }
    }

    // The object that sent this.
    fn owner(&self, number: u32) -> u32
        requires { all.is_in_flight number self.now ≡ true }
        ensures is { option_and_then (λ f. Some f.request) (all.flight_at number self.now) ≡
            Some result }
        ensures there { result < length self.now.requests }
    {
        match flight_at(&self.flights, number) {
            Some(flight) => flight.request,
            None => unreachable!(),
        }
    }
}

// A request object, and a flight.
ghost use Rattle.std.specs.Prelude.{◌≡◌, ◌<◌, IfSome};
ghost use Rattle.std.specs.Option.{option_copied};
ghost use Rattle.request_model.specs.Request as spec;

use mug_text::JText;

/// An XMLHttpRequest object.
#[derive(Debug, Drop)]
pub enum Request {
    /// State 0: not opened.
    Unsent,
    /// State 1: opened, with the method and the URL that were given, and the number of its flight
    /// from `send` on.
    Opened {
        method: JText,
        url: JText,
        flight: Option<u32>,
    },
    /// State 4: done, with the status, 0 where there was no reply, and the response text, which is
    /// empty where there is none.
    Done {
        status: u16,
        text: Option<JText>,
    },
}

/// What was sent under a number.
#[derive(Debug, Drop)]
pub struct Flight {
    /// The number of the object that sent it.
    pub request: u32,
    /// What the last `open` before was given.
    pub method: JText,
    pub url: JText,
}

impl Request {
    /// The state: 0, 1 or 4 (XMLHttpRequest Standard, 3.6.1).
    pub fn ready_state(&self) -> u8
        ensures is { result ≡ spec.ready_state self.now }
        ensures small { result < 5 }
    {
        match self {
            Request::Unsent => 0,
            Request::Opened { .. } => 1,
            Request::Done { .. } => 4,
        }
    }

    /// The status of the reply, or 0.
    pub fn status(&self) -> u16
        ensures { result ≡ spec.status self.now }
    {
        match self {
            Request::Done { status, .. } => *status,
            _ => 0,
        }
    }

    /// The response text; where there is none it is empty.
    pub fn text(&self) -> Option<&JText>
        ensures { spec.or_empty (option_copied result) ≡ spec.text self.now }
    {
        match self {
            Request::Done {
                text: Some(text),
                ..
            } => Some(text),
            _ => None,
        }
    }

    /// The number of the flight for which the object waits.
    pub fn flight(&self) -> Option<u32>
        ensures { result ≡ spec.flight_of self.now }
    {
        match self {
            Request::Opened { flight, .. } => *flight,
            _ => None,
        }
    }

    /// Whether the object is opened and not sent.
    pub fn can_send(&self) -> bool
        ensures { result ≡ spec.can_send self.now }
    {
        match self {
            Request::Opened { flight, .. } => flight.is_none(),
            _ => false,
        }
    }

    // Waits for a flight from now on.
    pub(crate) fn wait(&mut self, number: u32)
        ensures { self.new ≡ spec.waiting number self.old }
    {
        if let Request::Opened { flight, .. } = self {
            *flight = Some(number);
        }
    }

    // What `abort` makes of the object; whether it was in flight.
    pub(crate) fn abort(&mut self) -> bool
        ensures is { result ≡ spec.waits self.old }
        ensures after { self.new ≡ spec.after_abort self.old }
    {
        let waits = self.flight().is_some();
        if waits {
            *self = Request::Done {
                status: 0,
                text: None,
            };
        } else if self.ready_state() == 4 {
            *self = Request::Unsent;
        }
        waits
    }
}

// Marks: what ends a part of a page, and where it first stands.
ghost use Rattle.std.specs.Prelude.{◌≡◌, ◌+◌, ◌≤◌, length, IsTrue};
ghost use Rattle.html_profile.specs.Marks.{opens_lowered, begins, ends_name, name_of, opens_markup, closes_raw, stands, place, before, from};

/// The elements with raw text.
#[derive(Clone, Copy, Debug, PartialEq, Eq)]
pub(crate) enum Raw {
    Script,
    Style,
    Title,
    Textarea,
}

/// What ends a part of a page.
#[derive(Clone, Copy, Debug, PartialEq, Eq)]
pub(crate) enum Mark {
    /// `-->`
    CommentEnd,
    /// `>`
    TagEnd,
    /// What begins another piece than text.
    Markup,
    /// What ends a tag's name.
    NameEnd,
    /// What ends an attribute's name.
    AttributeEnd,
    /// What ends a value without quotes.
    ValueEnd,
    /// The quote of a value.
    Quote(u8),
    /// The end tag of an element with raw text.
    RawEnd(Raw),
    /// Anything but white space.
    Ink,
    /// Anything but white space and `/`.
    Solid,
}

impl Raw {
    /// The element's name.
    pub(crate) fn name(self) -> &'static [u8]
        ensures { result.now ≡ name_of self }
    {
        match self {
            Raw::Script => b"script",
            Raw::Style => b"style",
            Raw::Title => b"title",
            Raw::Textarea => b"textarea",
        }
    }
}

pub(crate) fn ends_name(byte: u8) -> bool
    ensures { result ≡ ends_name byte }
{
    byte.is_ascii_whitespace() || byte == b'/' || byte == b'>'
}

/// Whether the text begins with these bytes, where its letters are lowered.
pub(crate) fn opens_lowered(text: &[u8], bytes: &[u8]) -> bool
    ensures is { result ≡ opens_lowered text.now bytes.now }
    ensures bound { IsTrue result → length bytes.now ≤ length text.now }
{
    let mut text = text;
    for byte in bytes {
        let Some((first, rest)) = text.split_first() else {
            return false;
        };
        if first.to_ascii_lowercase() != *byte {
            return false;
        }
        text = rest;
    }
    true
}

fn opens_markup(text: &[u8]) -> bool
    ensures { result ≡ opens_markup text.now }
{
    match text {
        [b'<', next, ..] => next.is_ascii_alphabetic() || matches!(*next, b'!' | b'/' | b'?'),
        _ => false,
    }
}

fn closes_raw(name: &[u8], text: &[u8]) -> bool
    ensures { result ≡ closes_raw name.now text.now }
{
    if !text.starts_with(b"</") || !opens_lowered(&text[2..], name) {
        return false;
    }
    match text[2 + name.len()..].first() {
        Some(next) => ends_name(*next),
        None => true,
    }
}

impl Mark {
    /// Whether this mark stands at the front of the text.
    pub(crate) fn stands(self, text: &[u8]) -> bool
        ensures { result ≡ stands self text.now }
    {
        let Some(first) = text.first() else {
            return false;
        };
        let first = *first;
        match self {
            Mark::CommentEnd => text.starts_with(b"-->"),
            Mark::TagEnd => first == b'>',
            Mark::Markup => opens_markup(text),
            Mark::NameEnd => ends_name(first),
            Mark::AttributeEnd => ends_name(first) || first == b'=',
            Mark::ValueEnd => first.is_ascii_whitespace() || first == b'>',
            Mark::Quote(quote) => first == quote,
            Mark::RawEnd(raw) => closes_raw(raw.name(), text),
            Mark::Ink => !first.is_ascii_whitespace(),
            Mark::Solid => !(first.is_ascii_whitespace() || first == b'/'),
        }
    }

    /// The first place at which this mark stands, or the end.
    #[tactic(auto, using(crate::proofs::Places::place_here))]
    pub(crate) fn place(self, text: &[u8]) -> usize
        ensures place { result ≡ place self text.now }
        ensures within { result ≤ length text.now }
    {
        for index in 0..text.len() {
            if self.stands(&text[index..]) {
                return index;
            }
        }
        text.len()
    }

    /// What stands before that place, and what stands from it on.
    pub(crate) fn split(self, text: &[u8]) -> (&[u8], &[u8])
        ensures before { result.0.now ≡ before self text.now }
        ensures from { result.1.now ≡ from self text.now }
        ensures whole { length result.0.now + length result.1.now ≡ length text.now }
    {
        text.split_at(self.place(text))
    }
}

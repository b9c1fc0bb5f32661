//! What is wrong at one place.
ghost use Rattle.std.specs.Prelude.{◌≡◌};

use crate::lines::Line;
use crate::text::Text;
use std::alloc::Global;

/// Bytes of a line, from the first to before the last.
#[derive(Clone, Copy)]
pub struct Span {
    pub start: usize,
    pub end: usize,
}

impl Span {
    pub fn of(start: usize, end: usize) -> Self {
        Span { start, end }
    }
}

/// The page that has the rule.
#[derive(Clone, Copy)]
pub enum Page {
    CallLines,
    Queues,
    Blocks,
    Lines,
    Faults,
    Sandboxes,
    Images,
    Trace,
    Checking,
    Kernel,
    Help,
}

impl Page {
    /// Where it is.
    pub fn text(self) -> &'static str {
        match self {
            Page::CallLines => "docs/script.md, Call lines",
            Page::Queues => "docs/mq.md",
            Page::Blocks => "docs/script.md, Blocks",
            Page::Lines => "docs/script.md, Lines and words",
            Page::Faults => "docs/script.md, Faults",
            Page::Sandboxes => "docs/script.md, Several sandboxes",
            Page::Images => "docs/images.md",
            Page::Trace => "docs/trace.md",
            Page::Checking => "docs/trace.md, Checking a trace",
            Page::Kernel => "docs/kernel.md",
            Page::Help => "./pico --help",
        }
    }
}

/// What is wrong with a word: what is expected in its place, and which bytes of the line are at fault.
#[derive(Clone, Copy)]
pub struct Wrong<'a> {
    pub what: Text<'a>,
    pub expected: Text<'a>,
    pub span: Span,
}

/// What is wrong with a line: besides the form that the line should have, and the page.
#[derive(Clone, Copy)]
pub struct Fault<'a> {
    pub wrong: Wrong<'a>,
    pub form: Text<'a>,
    pub page: Page,
}

impl<'a> Wrong<'a> {
    pub fn new(what: Text<'a>, expected: Text<'a>, span: Span) -> Self {
        Wrong {
            what,
            expected,
            span,
        }
    }

    /// The fault of a line that should have this form.
    pub fn fault(self, form: &'static str, page: Page) -> Fault<'a> {
        let wrong = self;
        let form = Text::plain(form);
        Fault { wrong, form, page }
    }
}

impl<'a> Fault<'a> {
    /// A fault whose line has no form.
    pub fn new(what: Text<'a>, expected: Text<'a>, span: Span, page: Page) -> Self {
        Wrong::new(what, expected, span).fault("", page)
    }
}

/// A further line that helps: its number, its bytes, and what it tells.
#[derive(Clone, Copy)]
pub struct Other<'a> {
    pub number: usize,
    pub line: &'a [u8],
    pub what: Text<'a>,
}

/// One thing that is wrong. A line is there where it is at a place, and names where some are expected; these are told
/// behind what is expected.
#[derive(Drop)]
pub struct Finding<'a> {
    pub fault: Fault<'a>,
    pub line: Option<&'a [u8]>,
    pub number: Option<usize>,
    pub names: Vec<&'a [u8]>,
    pub other: Option<Other<'a>>,
}

impl<'a> Finding<'a> {
    /// What is wrong with a line.
    pub fn at(alloc: Global, line: Line<'a>, fault: Fault<'a>, other: Option<Other<'a>>) -> Self
        ensures { result.number ≡ Some line.entry.number }
    {
        Finding {
            fault,
            line: Some(line.text),
            number: Some(line.number),
            names: Vec::new(alloc),
            other,
        }
    }

    /// What is wrong with no line to show.
    pub fn without_line(
        alloc: Global,
        what: Text<'a>,
        expected: Text<'a>,
        number: Option<usize>,
        page: Page,
    ) -> Self
        ensures { result.number ≡ number }
    {
        let fault = Fault::new(what, expected, Span::of(0, 0), page);
        Finding {
            fault,
            line: None,
            number,
            names: Vec::new(alloc),
            other: None,
        }
    }
}

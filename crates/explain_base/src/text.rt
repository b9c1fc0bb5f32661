//! Texts of a few pieces: what is told, with bytes that were refused in it.

/// What a trace's totals count.
#[derive(Clone, Copy)]
pub struct Totals {
    pub entries: usize,
    pub processes: usize,
    pub not_ready: usize,
    pub refused: usize,
}

/// The names of all signals, in the table's order.
pub static SIGNALS: [&str; 10] = [
    "HUP", "INT", "QUIT", "KILL", "USR1", "USR2", "PIPE", "ALRM", "TERM", "CHLD",
];

/// How a piece is written.
#[derive(Clone, Copy)]
pub enum Style {
    /// All of its bytes.
    Whole,
    /// Its bytes between back quotes, cut where they are long.
    Said,
    /// Its bytes, cut where they are long.
    Cut,
    /// Its bytes, cut where they are longer than a reply.
    Reply,
    /// Its bytes in small letters.
    Lowered,
    /// Each byte by its two hexadecimal digits, as a text spells it.
    Spelled,
    /// Those of the signals that stand in its bytes, joined by commas.
    Signals,
    /// Its bytes so many times.
    Repeated,
    /// The byte of that number.
    Byte,
    /// Its bytes, and its number.
    Counted,
    /// The same, and a back quote.
    CountedLast,
    /// Its number with a comma behind each thousand.
    Grouped,
    /// So many nodes.
    Nodes,
    /// The lower of its bounds.
    Bound,
    /// `BYTES is a number from LOW to HIGH`.
    Range,
}

/// A piece of a text: bytes, a number or two bounds, and how they are written. It has a place for each of these, and no
/// enum with parts: a check follows each part of each variant wherever a text goes.
#[derive(Clone, Copy)]
pub struct Piece<'a> {
    pub style: Style,
    pub bytes: &'a [u8],
    pub number: usize,
    pub low: i64,
    pub high: i64,
}

impl<'a> Piece<'a> {
    /// Bytes.
    pub fn of(style: Style, bytes: &'a [u8]) -> Self {
        Piece::counted(style, bytes, 0)
    }

    /// Bytes and a number.
    pub fn counted(style: Style, bytes: &'a [u8], number: usize) -> Self {
        Piece {
            style,
            bytes,
            number,
            low: 0,
            high: 0,
        }
    }

    /// Bytes and two bounds.
    pub fn bounded(style: Style, bytes: &'a [u8], low: i64, high: i64) -> Self {
        Piece {
            style,
            bytes,
            number: 0,
            low,
            high,
        }
    }

    pub fn plain(text: &'static str) -> Self {
        Piece::of(Style::Whole, text.as_bytes())
    }

    pub fn whole(bytes: &'a [u8]) -> Self {
        Piece::of(Style::Whole, bytes)
    }

    pub fn number(number: usize) -> Self {
        Piece::counted(Style::Counted, &[], number)
    }

    pub fn grouped(number: usize) -> Self {
        Piece::counted(Style::Grouped, &[], number)
    }

    /// One byte.
    pub fn byte(byte: u8) -> Self {
        Piece::counted(Style::Byte, &[], usize::from(byte))
    }

    /// `NAME is a number from LOW to HIGH`.
    pub fn range(name: &'static str, low: i64, high: i64) -> Self {
        Piece::bounded(Style::Range, name.as_bytes(), low, high)
    }
}

/// A text of up to four pieces.
#[derive(Clone, Copy)]
pub struct Text<'a> {
    pub first: Piece<'a>,
    pub second: Piece<'a>,
    pub third: Piece<'a>,
    pub fourth: Piece<'a>,
}

impl<'a> Text<'a> {
    /// The text that has nothing in it.
    pub fn none() -> Self {
        Text::plain("")
    }

    pub fn plain(text: &'static str) -> Self {
        Text::one(Piece::plain(text))
    }

    pub fn one(first: Piece<'a>) -> Self {
        Text::two(first, Piece::plain(""))
    }

    pub fn two(first: Piece<'a>, second: Piece<'a>) -> Self {
        Text::three(first, second, Piece::plain(""))
    }

    pub fn three(first: Piece<'a>, second: Piece<'a>, third: Piece<'a>) -> Self {
        Text::four(first, second, third, Piece::plain(""))
    }

    pub fn four(first: Piece<'a>, second: Piece<'a>, third: Piece<'a>, fourth: Piece<'a>) -> Self {
        Text {
            first,
            second,
            third,
            fourth,
        }
    }

    /// A line of totals.
    pub fn totals(totals: Totals) -> Self {
        Text::four(
            Piece::counted(Style::Counted, b"totals entries ", totals.entries),
            Piece::counted(Style::Counted, b" processes ", totals.processes),
            Piece::counted(Style::Counted, b" notready ", totals.not_ready),
            Piece::counted(Style::Counted, b" refused ", totals.refused),
        )
    }

    /// That a line of these totals is expected.
    pub fn totals_due(totals: Totals) -> Self {
        Text::four(
            Piece::counted(Style::Counted, b"a line `totals entries ", totals.entries),
            Piece::counted(Style::Counted, b" processes ", totals.processes),
            Piece::counted(Style::Counted, b" notready ", totals.not_ready),
            Piece::counted(Style::CountedLast, b" refused ", totals.refused),
        )
    }

    /// Bytes between back quotes, and what is told of them.
    pub fn said(bytes: &'a [u8], behind: &'static str) -> Self {
        Text::two(Piece::of(Style::Said, bytes), Piece::plain(behind))
    }

    /// The same with words before it.
    pub fn said_in(before: &'static str, bytes: &'a [u8], behind: &'static str) -> Self {
        Text::three(
            Piece::plain(before),
            Piece::of(Style::Said, bytes),
            Piece::plain(behind),
        )
    }

    /// All of these bytes between words.
    pub fn whole_in(before: &'static str, bytes: &'a [u8], behind: &'static str) -> Self {
        Text::three(
            Piece::plain(before),
            Piece::whole(bytes),
            Piece::plain(behind),
        )
    }
}

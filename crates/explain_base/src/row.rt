//! Text that can be printed safely, row by row.
ghost use Rattle.std.specs.Prelude.{◌≡◌, ◌<◌, ◌≤◌, ◌↔◌, IsTrue, OnOk, vec_len};
ghost use Rattle.std.specs.List.{All};
ghost use Rattle.explain_base.specs.Shown.{IsShown};

use crate::text::{Piece, SIGNALS, Style, Text};
use crate::words::without_blanks;
use std::alloc::{AllocError, Global};

// How much is shown of a word, and of a reply.
const WORD: usize = 40;

const REPLY: usize = 60;

/// Printable bytes, and line feeds.
#[derive(Drop)]
pub struct Row {
    bytes: Vec<u8>,
    ghost shown: { All IsShown bytes.items },
}

/// Whether the byte can be printed.
pub fn is_printable(byte: u8) -> bool
    ensures { IsTrue result ↔ ((32 ≤ byte) × (byte ≤ 126)) }
{
    byte >= b' ' && byte <= b'~'
}

// The digit of a number below 16.
fn hex_digit(number: u8) -> u8 {
    if number < 10 {
        number.saturating_add(b'0')
    } else {
        number.saturating_sub(10).saturating_add(b'a')
    }
}

impl Row {
    pub fn new(alloc: Global) -> Self {
        Row {
            bytes: Vec::new(alloc),
        }
    }

    pub fn len(&self) -> usize {
        self.bytes.len()
    }

    pub fn as_slice(&self) -> &[u8] {
        self.bytes.as_slice()
    }

    /// Its bytes, which are printable ones and line feeds.
    pub fn into_bytes(self) -> Vec<u8>
        ensures same { result.items ≡ self.bytes.items }
        ensures shown { All IsShown result.items }
    {
        self.bytes
    }

    // A byte that can be printed.
    fn push_byte(&mut self, byte: u8) -> Result<(), AllocError> {
        if is_printable(byte) {
            self.bytes.push(byte)?;
        }
        Ok(())
    }

    /// Ends a row.
    pub fn end(&mut self) -> Result<(), AllocError>
        ensures { OnOk result (0 < vec_len self.new.bytes) }
    {
        self.bytes.push(b'\n')?;
        Ok(())
    }

    // A byte by its two hexadecimal digits.
    fn push_spelled(&mut self, byte: u8) -> Result<(), AllocError> {
        self.push_byte(b'\\')?;
        self.push_byte(b'x')?;
        self.push_byte(hex_digit(byte >> 4))?;
        self.push_byte(hex_digit(byte & 15))
    }

    /// Bytes, each that can't be printed by its digits.
    pub fn push(&mut self, bytes: &[u8]) -> Result<(), AllocError> {
        for byte in bytes {
            if is_printable(*byte) {
                self.push_byte(*byte)?;
            } else {
                self.push_spelled(*byte)?;
            }
        }
        Ok(())
    }

    pub fn push_str(&mut self, text: &str) -> Result<(), AllocError> {
        self.push(text.as_bytes())
    }

    /// So many times a byte.
    pub fn push_times(&mut self, byte: u8, count: usize) -> Result<(), AllocError> {
        for _ in 0..count {
            self.push_byte(byte)?;
        }
        Ok(())
    }

    /// A line, with a blank for each tab.
    pub fn push_line(&mut self, line: &[u8]) -> Result<(), AllocError> {
        for byte in line {
            if *byte == b'\t' {
                self.push_byte(b' ')?;
            } else {
                self.push(&[*byte])?;
            }
        }
        Ok(())
    }

    /// A row without the blanks at its end, and a line feed.
    pub fn push_row(&mut self, row: &Row) -> Result<(), AllocError>
        ensures { OnOk result (0 < vec_len self.new.bytes) }
    {
        self.push(without_blanks(row.as_slice()))?;
        self.end()
    }

    fn push_number(&mut self, alloc: Global, number: usize) -> Result<(), AllocError> {
        let digits = number.to_string(alloc)?;
        self.push_str(digits.as_str())
    }

    fn push_signed(&mut self, alloc: Global, number: i64) -> Result<(), AllocError> {
        let digits = number.to_string(alloc)?;
        self.push_str(digits.as_str())
    }

    // A number with a comma behind each thousand.
    fn push_grouped(&mut self, alloc: Global, number: usize) -> Result<(), AllocError> {
        let digits = number.to_string(alloc)?;
        let mut left = digits.len();
        for digit in digits.as_bytes() {
            if left % 3 == 0 && left != digits.len() {
                self.push_byte(b',')?;
            }
            self.push_byte(*digit)?;
            left = left.saturating_sub(1);
        }
        Ok(())
    }

    // Bytes, or where they are long the first of them and two dots.
    fn push_cut(&mut self, alloc: Global, bytes: &[u8], most: usize) -> Result<(), AllocError> {
        let mut whole = Row::new(alloc);
        whole.push(bytes)?;
        if whole.len() <= most {
            return self.push(whole.as_slice());
        }
        for byte in whole.as_slice().iter().take(most.saturating_sub(2)) {
            self.push_byte(*byte)?;
        }
        self.push_str("..")
    }

    fn push_range(&mut self, alloc: Global, piece: &Piece) -> Result<(), AllocError> {
        self.push(piece.bytes)?;
        self.push_str(" is a number from ")?;
        self.push_signed(alloc, piece.low)?;
        self.push_str(" to ")?;
        self.push_signed(alloc, piece.high)
    }

    fn push_said(&mut self, alloc: Global, bytes: &[u8]) -> Result<(), AllocError> {
        self.push_str("`")?;
        self.push_cut(alloc, bytes, WORD)?;
        self.push_str("`")
    }

    fn push_lowered(&mut self, bytes: &[u8]) -> Result<(), AllocError> {
        for byte in bytes {
            self.push(&[byte.to_ascii_lowercase()])?;
        }
        Ok(())
    }

    fn push_all_spelled(&mut self, bytes: &[u8]) -> Result<(), AllocError> {
        for byte in bytes {
            self.push_spelled(*byte)?;
        }
        Ok(())
    }

    fn push_nodes(&mut self, alloc: Global, count: usize) -> Result<(), AllocError> {
        self.push_number(alloc, count)?;
        self.push_str(if count == 1 { " node" } else { " nodes" })
    }

    // Those of the signals that stand in the list.
    fn push_signals(&mut self, listed: &[u8]) -> Result<(), AllocError> {
        let mut between: &[u8] = b"";
        for word in &SIGNALS {
            let name = word.as_bytes();
            if listed.split(|byte| *byte == b',').any(|it| it == name) {
                self.push(between)?;
                self.push(name)?;
                between = b",";
            }
        }
        Ok(())
    }

    // So many times these bytes.
    fn push_repeated(&mut self, bytes: &[u8], count: usize) -> Result<(), AllocError> {
        for _ in 0..count {
            self.push(bytes)?;
        }
        Ok(())
    }

    // The byte of that number, where it is a printable one.
    fn push_numbered(&mut self, number: usize) -> Result<(), AllocError> {
        match u8::try_from(number) {
            Ok(byte) => self.push_byte(byte),
            Err(_) => Ok(()),
        }
    }

    fn push_counted(&mut self, alloc: Global, piece: &Piece) -> Result<(), AllocError> {
        self.push(piece.bytes)?;
        self.push_number(alloc, piece.number)
    }

    // A piece that is bytes.
    fn push_bytes(&mut self, alloc: Global, piece: &Piece) -> Result<(), AllocError> {
        let bytes = piece.bytes;
        match piece.style {
            Style::Said => self.push_said(alloc, bytes),
            Style::Cut => self.push_cut(alloc, bytes, WORD),
            Style::Reply => self.push_cut(alloc, bytes, REPLY),
            Style::Lowered => self.push_lowered(bytes),
            Style::Spelled => self.push_all_spelled(bytes),
            Style::Signals => self.push_signals(bytes),
            _ => self.push(bytes),
        }
    }

    fn push_piece(&mut self, alloc: Global, piece: &Piece) -> Result<(), AllocError> {
        match piece.style {
            Style::Repeated => self.push_repeated(piece.bytes, piece.number),
            Style::Byte => self.push_numbered(piece.number),
            Style::Counted => self.push_counted(alloc, piece),
            Style::CountedLast => {
                self.push_counted(alloc, piece)?;
                self.push_str("`")
            }
            Style::Grouped => self.push_grouped(alloc, piece.number),
            Style::Nodes => self.push_nodes(alloc, piece.number),
            Style::Bound => self.push_signed(alloc, piece.low),
            Style::Range => self.push_range(alloc, piece),
            _ => self.push_bytes(alloc, piece),
        }
    }

    /// A text, piece by piece.
    pub fn push_text(&mut self, alloc: Global, text: &Text) -> Result<(), AllocError> {
        self.push_piece(alloc, &text.first)?;
        self.push_piece(alloc, &text.second)?;
        self.push_piece(alloc, &text.third)?;
        self.push_piece(alloc, &text.fourth)
    }
}

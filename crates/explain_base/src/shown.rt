//! How a finding is shown: the line with a mark under the word, what is expected, a further line, the form and the
//! page.
ghost use Rattle.std.specs.Prelude.{◌<◌, IfOk, vec_len};
ghost use Rattle.std.specs.List.{All};
ghost use Rattle.explain_base.specs.Shown.{IsShown};

use crate::finding::{Finding, Other, Span};
use crate::row::{Row, is_printable};
use std::alloc::{AllocError, Global};

// The columns of a line that are shown about its mark.
const WIDTH: usize = 100;
// How many names are told.
const NAMES: usize = 8;

// A line as it is shown, and the columns of its mark.
#[derive(Drop)]
struct Marked {
    row: Row,
    first: usize,
    last: usize,
}

// The column at which a byte of a line is shown.
fn column_of(line: &[u8], at: usize) -> usize {
    let mut column = at.saturating_sub(line.len());
    for byte in line.iter().take(at) {
        let size = if is_printable(*byte) || *byte == b'\t' {
            1
        } else {
            4
        };
        column = column.saturating_add(size);
    }
    column
}

// Of a long line the part about the mark is shown.
fn with_mark(alloc: Global, line: &[u8], span: Span) -> Result<Marked, AllocError> {
    let mut row = Row::new(alloc);
    row.push_line(line)?;
    let first = column_of(line, span.start);
    let last = column_of(line, span.end).max(first.saturating_add(1));
    if row.len() <= WIDTH {
        return Ok(Marked { row, first, last });
    }
    let cut = first
        .saturating_sub(WIDTH / 3)
        .min(row.len().saturating_sub(WIDTH));
    part_of(
        alloc,
        &row,
        cut,
        first.saturating_sub(cut),
        last.saturating_sub(cut),
    )
}

// The columns of a row from one of them on, and the mark, which is told from there on.
fn part_of(
    alloc: Global,
    whole: &Row,
    cut: usize,
    first: usize,
    last: usize,
) -> Result<Marked, AllocError> {
    let head = if cut > 0 { ".." } else { "" };
    let is_cut = cut.saturating_add(WIDTH) < whole.len();
    let mut row = Row::new(alloc);
    row.push_str(head)?;
    for byte in whole.as_slice().iter().skip(cut).take(WIDTH) {
        row.push(&[*byte])?;
    }
    if is_cut {
        row.push_str("..")?;
    }
    let first = first.saturating_add(head.len());
    let last = last.saturating_add(head.len()).min(row.len());
    Ok(Marked {
        row,
        first,
        last: last.max(first.saturating_add(1)),
    })
}

// How many digits a number has.
fn digits_of(alloc: Global, number: usize) -> Result<usize, AllocError> {
    Ok(number.to_string(alloc)?.len())
}

// The columns for the numbers of lines.
fn width_of(alloc: Global, finding: &Finding) -> Result<usize, AllocError> {
    let mut width = 4;
    if let Some(number) = finding.number {
        width = digits_of(alloc, number)?.max(width);
    }
    if let Some(other) = &finding.other {
        width = digits_of(alloc, other.number)?.max(width);
    }
    Ok(width)
}

// What stands before a line: its number, or none.
fn front(alloc: Global, number: Option<usize>, width: usize) -> Result<Row, AllocError> {
    let mut row = Row::new(alloc);
    match number {
        Some(number) => {
            let digits = number.to_string(alloc)?;
            row.push_times(b' ', width.saturating_sub(digits.len()))?;
            row.push_str(digits.as_str())?;
        }
        None => row.push_times(b' ', width)?,
    }
    Ok(row)
}

// What is expected, with the names behind it.
fn expected(alloc: Global, finding: &Finding) -> Result<Row, AllocError> {
    let mut row = Row::new(alloc);
    row.push_text(alloc, &finding.fault.wrong.expected)?;
    let mut between: &[u8] = b"";
    for name in finding.names.iter().take(NAMES) {
        row.push(between)?;
        row.push(name)?;
        between = b", ";
    }
    if finding.names.len() > NAMES {
        row.push_str(", ..")?;
    }
    Ok(row)
}

// A row that begins with `=`.
fn push_told(
    alloc: Global,
    told: &mut Row,
    width: usize,
    word: &str,
    what: &Row,
) -> Result<(), AllocError> {
    let mut row = front(alloc, None, width)?;
    row.push_str(" = ")?;
    row.push_str(word)?;
    row.push(what.as_slice())?;
    told.push_row(&row)
}

// The line with its mark, and what is expected beside that or below it.
fn push_marked(
    alloc: Global,
    told: &mut Row,
    width: usize,
    finding: &Finding,
    line: &[u8],
) -> Result<(), AllocError> {
    let Marked { row, first, last } = with_mark(alloc, line, finding.fault.wrong.span)?;
    let mut numbered = front(alloc, finding.number, width)?;
    numbered.push_str(" | ")?;
    numbered.push(row.as_slice())?;
    told.push_row(&numbered)?;
    let mut mark = front(alloc, None, width)?;
    mark.push_str(" | ")?;
    mark.push_times(b' ', first)?;
    mark.push_times(b'^', last.saturating_sub(first))?;
    let what = expected(alloc, finding)?;
    if mark.len().saturating_add(what.len()) < WIDTH + 20 {
        mark.push_str(" ")?;
        mark.push(what.as_slice())?;
        return told.push_row(&mark);
    }
    told.push_row(&mark)?;
    push_told(alloc, told, width, "", &what)
}

// A further line, and what it tells.
fn push_other(
    alloc: Global,
    told: &mut Row,
    width: usize,
    other: &Other,
) -> Result<(), AllocError> {
    let line = with_mark(alloc, other.line, Span::of(0, 0))?;
    let mut row = front(alloc, Some(other.number), width)?;
    row.push_str(" | ")?;
    row.push(line.row.as_slice())?;
    told.push_row(&row)?;
    let mut what = Row::new(alloc);
    what.push_text(alloc, &other.what)?;
    if what.len() == 0 {
        return Ok(());
    }
    push_told(alloc, told, width, "", &what)
}

// What is wrong, at which line.
fn push_head(alloc: Global, told: &mut Row, finding: &Finding) -> Result<(), AllocError> {
    let mut row = Row::new(alloc);
    row.push_str("pico: ")?;
    if let Some(number) = finding.number {
        let digits = number.to_string(alloc)?;
        row.push_str("line ")?;
        row.push_str(digits.as_str())?;
        row.push_str(": ")?;
    }
    row.push_text(alloc, &finding.fault.wrong.what)?;
    told.push_row(&row)
}

// All but the page.
fn told_of(alloc: Global, finding: &Finding, width: usize) -> Result<Row, AllocError> {
    let mut told = Row::new(alloc);
    push_head(alloc, &mut told, finding)?;
    match finding.line {
        Some(line) => push_marked(alloc, &mut told, width, finding, line)?,
        None => {
            let what = expected(alloc, finding)?;
            if what.len() > 0 {
                push_told(alloc, &mut told, width, "", &what)?;
            }
        }
    }
    if let Some(other) = &finding.other {
        push_other(alloc, &mut told, width, other)?;
    }
    let mut form = Row::new(alloc);
    form.push_text(alloc, &finding.fault.form)?;
    if form.len() > 0 {
        push_told(alloc, &mut told, width, "form: ", &form)?;
    }
    Ok(told)
}

/// What is written for a finding, with a line feed behind each of its rows: some bytes, and all of them printable or
/// line feeds, whatever the bytes are that it was found in.
pub fn text_of(alloc: Global, finding: &Finding) -> Result<Vec<u8>, AllocError>
    ensures some { IfOk result (λ text. 0 < vec_len text) }
    ensures shown { IfOk result (λ text. All IsShown text.items) }
{
    let width = width_of(alloc, finding)?;
    let mut told = told_of(alloc, finding, width)?;
    let mut row = front(alloc, None, width)?;
    row.push_str(" = page: ")?;
    row.push_str(finding.fault.page.text())?;
    told.push_row(&row)?;
    Ok(told.into_bytes())
}

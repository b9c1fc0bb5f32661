//! Lines and words.

ghost use Rattle.std.specs.Prelude.{◌≡◌, ℕ, Some, None, false, ◌<◌, ◌≤◌, ◌+◌, ◌-◌, ◌%◌, ◌≢◌, ◌==◌, not, drop, take, slice_index, position, [], ◌∷◌, IfOk, OnOk, IfSome, MatchOption, length};
ghost use Rattle.std.specs.Int.{bit_at};
ghost use Rattle.std.specs.List.{position_or_len};
ghost use Rattle.script_reader.specs.Words.{lines_of, Marks, PartWords, MarksOf, EdgesFrom, EdgesBehind, is_blank as is_blank_of, rest_length, words_of, pieces as pieces_of, texts};

use crate::parts::cut;
use memchr::memchr;
use pico_base::Memory;
use std::alloc::Global;
use std::simd::prelude::*;

/// Where the first line feed is.
fn line_end(bytes: &[u8]) -> Option<usize>
    ensures { result ≡ position (λ b. b == 10) bytes.now }
{
    memchr(b'\n', bytes)
}

/// The first line of a text without its line feed, and what follows that; none where there is no byte. The last line
/// may lack its line feed.
pub fn next_line(bytes: &[u8]) -> Option<(&[u8], &[u8])>
    ensures lines { MatchOption result (lines_of bytes.now ≡ [])
        (λ x. lines_of bytes.now ≡ x.0.now ∷ lines_of x.1.now) }
    ensures behind { IfSome result (λ x. x.1.now ≡ drop (length x.0.now + 1) bytes.now) }
    ensures shorter { IfSome result (λ x. length x.1.now < length bytes.now) }
{
    match line_end(bytes) {
        Some(at) => Some((&bytes[..at], &bytes[at + 1..])),
        None if bytes.is_empty() => None,
        None => Some((bytes, &bytes[bytes.len()..])),
    }
}

/// How many bytes are looked at together, where a line isn't among the shortest.
const LANES: usize = 64;

/// How many bytes are looked at first. Most lines end among them.
const FEW: usize = 32;

/// Which of the first 32 bytes are line feeds.
fn few_feeds_in(text: &[u8]) -> u64
    requires { 32 ≤ length text.now }
    ensures { MarksOf 32 (λ b. b == 10) text.now result }
{
    u8x32::from_slice(text)
        .simd_eq(u8x32::splat(b'\n'))
        .to_bitmask()
}

/// Which of the first 32 bytes are blanks.
fn few_blanks_in(text: &[u8]) -> u64
    requires { 32 ≤ length text.now }
    ensures { MarksOf 32 is_blank_of text.now result }
{
    let lanes = u8x32::from_slice(text);
    let blanks = lanes.simd_eq(u8x32::splat(b' '))
        | lanes.simd_eq(u8x32::splat(b'\t'))
        | lanes.simd_eq(u8x32::splat(b'\r'));
    blanks.to_bitmask()
}

/// Which of the first 64 bytes are line feeds.
fn feeds_in(text: &[u8]) -> u64
    requires { 64 ≤ length text.now }
    ensures { Marks (λ b. b == 10) text.now result }
{
    u8x64::from_slice(text)
        .simd_eq(u8x64::splat(b'\n'))
        .to_bitmask()
}

/// Which of the first 64 bytes are blanks.
fn blanks_in(text: &[u8]) -> u64
    requires { 64 ≤ length text.now }
    ensures { Marks is_blank_of text.now result }
{
    let lanes = u8x64::from_slice(text);
    let blanks = lanes.simd_eq(u8x64::splat(b' '))
        | lanes.simd_eq(u8x64::splat(b'\t'))
        | lanes.simd_eq(u8x64::splat(b'\r'));
    blanks.to_bitmask()
}

/// Where the first set bit from here on is, or 64 or more.
fn next_set(mask: u64, from: usize) -> usize
    requires { from < 64 }
    ensures low { from ≤ result }
    ensures clear { (k : ℕ) → from ≤ k → k < result → bit_at mask k ≡ 0 }
    ensures set { result < 64 → bit_at mask result ≡ 1 }
{
    from + (mask >> from).trailing_zeros() as usize
}

/// Where the first line feed is, if it is among the first 32 bytes.
fn nearest_line_end(text: &[u8]) -> Option<usize>
    requires { 32 ≤ length text.now }
    ensures value { IfSome result (λ at. position (λ b. b == 10) text.now ≡ Some at) }
    ensures near { IfSome result (λ at. at < 32) }
{
    let at = next_set(few_feeds_in(text), 0);
    if at < FEW { Some(at) } else { None }
}

/// Where the first line feed is, if it is near.
fn near_line_end(text: &[u8]) -> Option<usize>
    requires { 64 ≤ length text.now }
    ensures value { IfSome result (λ at. position (λ b. b == 10) text.now ≡ Some at) }
    ensures near { IfSome result (λ at. at < 64) }
    ensures far { result ≡ None → (k : ℕ) → k < 64 → (slice_index text.now k == 10) ≡ false }
{
    let at = next_set(feeds_in(text), 0);
    if at < LANES { Some(at) } else { None }
}

/// Where the first line feed is, if it isn't among the first 64 bytes, but among the next 64.
#[inline(always)]
fn second_line_end(text: &[u8]) -> Option<usize>
    requires room { 64 ≤ length text.now }
    requires far { (k : ℕ) → k < 64 → (slice_index text.now k == 10) ≡ false }
    ensures value { IfSome result (λ at. position (λ b. b == 10) text.now ≡ Some at) }
{
    if text.len() < 2 * LANES {
        return None;
    }
    let at = near_line_end(&text[LANES..])?;
    Some(LANES + at)
}

/// The mask with this bit, too.
fn with_bit(mask: u64, at: usize) -> u64
    requires { at < 64 }
    ensures set { bit_at result at ≡ 1 }
    ensures kept { (k : ℕ) → k < at → bit_at result k ≡ bit_at mask k }
{
    mask | (1 << at)
}

/// The mask's bits below this one.
fn bits_below(mask: u64, count: usize) -> u64
    requires { count < 64 }
    ensures kept { (k : ℕ) → k < count → bit_at result k ≡ bit_at mask k }
    ensures over { (k : ℕ) → count ≤ k → bit_at result k ≡ 0 }
{
    mask & ((1 << count) - 1)
}

/// Where the words of a short line may begin and end, a bit for each byte.
#[derive(Clone, Copy)]
pub(crate) struct Stops {
    /// Which bytes are blanks, or the line's end.
    ends: u64,
    /// Which bytes aren't blanks.
    solids: u64,
}

/// The masks of the first line, of this length.
fn stops_in(text: &[u8], len: usize) -> Stops
    requires room { 64 ≤ length text.now }
    requires short { len < 64 }
    ensures { PartWords (take len text.now) result.ends result.solids }
{
    let blanks = blanks_in(text);
    Stops {
        ends: with_bit(blanks, len),
        solids: bits_below(!blanks, len),
    }
}

/// The masks of the first line, of this length, which is below 32.
fn few_stops_in(text: &[u8], len: usize) -> Stops
    requires room { 32 ≤ length text.now }
    requires short { len < 32 }
    ensures { PartWords (take len text.now) result.ends result.solids }
{
    let blanks = few_blanks_in(text);
    Stops {
        ends: with_bit(blanks, len),
        solids: bits_below(!blanks, len),
    }
}

/// The next line as `next_line` gives it, and where its words may begin and end, where it is a short one.
#[inline(always)]
pub(crate) fn marked_line(text: &[u8]) -> Option<(&[u8], &[u8], Option<Stops>)>
    ensures lines { MatchOption result (lines_of text.now ≡ [])
        (λ x. lines_of text.now ≡ x.0.now ∷ lines_of x.1.now) }
    ensures shorter { IfSome result (λ x. length x.1.now < length text.now) }
    ensures stops { IfSome result (λ x. IfSome x.2 (λ s. PartWords x.0.now s.ends s.solids)) }
{
    if text.len() >= LANES {
        if let Some(at) = nearest_line_end(text) {
            return Some((&text[..at], &text[at + 1..], Some(few_stops_in(text, at))));
        }
        if let Some(at) = near_line_end(text) {
            return Some((&text[..at], &text[at + 1..], Some(stops_in(text, at))));
        }
        if let Some(at) = second_line_end(text) {
            return Some((&text[..at], &text[at + 1..], None));
        }
    }
    let (line, after) = next_line(text)?;
    Some((line, after, None))
}

pub(crate) fn is_blank(byte: u8) -> bool
    ensures { result ≡ is_blank_of byte }
{
    byte == b' ' || byte == b'\t' || byte == b'\r'
}

/// Where the first quote is.
fn first_quote(bytes: &[u8]) -> Option<usize>
    ensures { result ≡ position (λ b. b == 34) bytes.now }
{
    memchr(b'"', bytes)
}

/// How many bytes stand before the first quote.
#[tactic(auto, using(crate::proofs::Cuts::else_length, crate::proofs::Cuts::place_within))]
fn quote_len(bytes: &[u8]) -> usize
    ensures value { result ≡ position_or_len (λ b. b == 34) bytes.now }
    ensures within { result ≤ length bytes.now }
{
    first_quote(bytes).unwrap_or(bytes.len())
}

/// Where the first byte from here on is that isn't blank, or the length.
fn solid_from(line: &[u8], start: usize) -> usize
    requires { start ≤ length line.now }
    ensures value { result ≡ start + position_or_len (λ b. not (is_blank_of b)) (drop start line.now) }
    ensures within { result ≤ length line.now }
{
    let mut at = start;
    while at < line.len() && is_blank(line[at]) {
        at += 1;
    }
    at
}

/// Where the first blank from here on is, or the length.
fn blank_from(line: &[u8], start: usize) -> usize
    requires { start ≤ length line.now }
    ensures value { result ≡ start + position_or_len is_blank_of (drop start line.now) }
    ensures within { result ≤ length line.now }
{
    let mut at = start;
    while at < line.len() && !is_blank(line[at]) {
        at += 1;
    }
    at
}

/// Where the word ends that begins here.
fn word_end(line: &[u8], start: usize) -> usize
    requires { start < length line.now }
    ensures value { result ≡ start + 1 + rest_length (slice_index line.now start) (drop (start + 1) line.now) }
    ensures within { result ≤ length line.now }
{
    let behind = start + 1;
    if line[start] == b'"' {
        blank_from(line, behind + quote_len(&line[behind..]))
    } else {
        blank_from(line, behind)
    }
}

/// Where the first word from here on begins and ends; none where there are only blanks.
fn word_from(line: &[u8], from: usize) -> Option<(usize, usize)>
    requires { from ≤ length line.now }
    ensures words { MatchOption result (words_of (drop from line.now) ≡ [])
        (λ x. words_of (drop from line.now) ≡ take (x.1 - x.0) (drop x.0 line.now) ∷ words_of (drop x.1 line.now)) }
    ensures order { IfSome result (λ x. (from ≤ x.0) × (x.0 < x.1) × (x.1 ≤ length line.now)) }
{
    let start = solid_from(line, from);
    if start == line.len() {
        None
    } else {
        Some((start, word_end(line, start)))
    }
}

/// The first word of a line, and what follows it; none where there are only blanks.
pub fn next_word(bytes: &[u8]) -> Option<(&[u8], &[u8])>
    ensures words { MatchOption result (words_of bytes.now ≡ [])
        (λ x. words_of bytes.now ≡ x.0.now ∷ words_of x.1.now) }
    ensures shorter { IfSome result (λ x. length x.1.now < length bytes.now) }
{
    let (start, end) = word_from(bytes, 0)?;
    Some((&bytes[start..end], &bytes[end..]))
}

/// Where the first blank from here on is, or the length.
fn marked_blank(line: &[u8], stops: Stops, start: usize) -> usize
    requires stops { PartWords line.now stops.ends stops.solids }
    requires inside { start ≤ length line.now }
    ensures value { result ≡ start + position_or_len is_blank_of (drop start line.now) }
    ensures within { result ≤ length line.now }
{
    next_set(stops.ends, start)
}

/// The mask's bits from this one on.
fn bits_from(mask: u64, start: usize) -> u64
    requires { start < 64 }
    ensures under { (k : ℕ) → k < start → bit_at result k ≡ 0 }
    ensures kept { (k : ℕ) → start ≤ k → k < 64 → bit_at result k ≡ bit_at mask k }
{
    (mask >> start) << start
}

/// The mask without this bit.
fn without_bit(mask: u64, at: usize) -> u64
    requires { at < 64 }
    ensures clear { bit_at result at ≡ 0 }
    ensures kept { (k : ℕ) → k < 64 → k ≢ at → bit_at result k ≡ bit_at mask k }
{
    mask & !(1 << at)
}

/// Which bits differ from the one below them. Below the first there is none that is set.
fn changes_in(mask: u64) -> u64
    ensures first { bit_at result 0 ≡ bit_at mask 0 }
    ensures others { (k : ℕ) → 0 < k → k < 64 → bit_at result k ≡ (bit_at mask k + bit_at mask (k - 1)) % 2 }
{
    mask ^ (mask << 1)
}

/// Where words begin and end from here on, by the bytes that aren't blanks.
fn edges_from(solids: u64, start: usize) -> u64
    requires { start < 64 }
    ensures { EdgesFrom solids result start }
{
    changes_in(bits_from(solids, start))
}

/// Where the next word begins, and the edges behind that; none where there are only blanks.
fn marked_start(line: &[u8], stops: Stops, edges: u64, at: usize) -> Option<(usize, u64)>
    requires stops { PartWords line.now stops.ends stops.solids }
    requires inside { at ≤ length line.now }
    requires edges { EdgesFrom stops.solids edges at }
    ensures none { result ≡ None → at + position_or_len (λ b. not (is_blank_of b)) (drop at line.now)
        ≡ length line.now }
    ensures some { IfSome result (λ x. x.0 ≡ at + position_or_len (λ b. not (is_blank_of b)) (drop at line.now)) }
    ensures within { IfSome result (λ x. x.0 < length line.now) }
    ensures set { IfSome result (λ x. bit_at stops.solids x.0 ≡ 1) }
    ensures edges { IfSome result (λ x. EdgesBehind stops.solids x.1 x.0) }
{
    let start = next_set(edges, 0);
    if start < LANES {
        Some((start, without_bit(edges, start)))
    } else {
        None
    }
}

/// Where the word ends that begins here without a quote, and the edges from there on.
fn plain_end(line: &[u8], stops: Stops, edges: u64, start: usize) -> (usize, u64)
    requires stops { PartWords line.now stops.ends stops.solids }
    requires inside { start < length line.now }
    requires set { bit_at stops.solids start ≡ 1 }
    requires edges { EdgesBehind stops.solids edges start }
    ensures value { result.0 ≡ start + 1 + position_or_len is_blank_of (drop (start + 1) line.now) }
    ensures within { result.0 ≤ length line.now }
    ensures edges { EdgesFrom stops.solids result.1 result.0 }
{
    let end = next_set(edges, 0);
    (end, without_bit(edges, end))
}

/// Where the word ends that begins here with a quote, and the edges from there on.
fn quoted_end(line: &[u8], stops: Stops, start: usize) -> (usize, u64)
    requires stops { PartWords line.now stops.ends stops.solids }
    requires inside { start < length line.now }
    requires quoted { slice_index line.now start ≡ 34 }
    ensures value { result.0 ≡ start + 1 + rest_length (slice_index line.now start) (drop (start + 1) line.now) }
    ensures within { result.0 ≤ length line.now }
    ensures edges { EdgesFrom stops.solids result.1 result.0 }
{
    let behind = start + 1;
    let end = marked_blank(line, stops, behind + quote_len(&line[behind..]));
    (end, edges_from(stops.solids, end))
}

/// Where the word ends that begins here, and the edges from there on.
fn marked_end(line: &[u8], stops: Stops, edges: u64, start: usize) -> (usize, u64)
    requires stops { PartWords line.now stops.ends stops.solids }
    requires inside { start < length line.now }
    requires set { bit_at stops.solids start ≡ 1 }
    requires edges { EdgesBehind stops.solids edges start }
    ensures value { result.0 ≡ start + 1 + rest_length (slice_index line.now start) (drop (start + 1) line.now) }
    ensures within { result.0 ≤ length line.now }
    ensures edges { EdgesFrom stops.solids result.1 result.0 }
{
    if line[start] == b'"' {
        quoted_end(line, stops, start)
    } else {
        plain_end(line, stops, edges, start)
    }
}

/// What `word_from` gives, and the edges behind the word.
fn marked_word(line: &[u8], stops: Stops, edges: u64, from: usize) -> Option<(usize, usize, u64)>
    requires stops { PartWords line.now stops.ends stops.solids }
    requires inside { from ≤ length line.now }
    requires edges { EdgesFrom stops.solids edges from }
    ensures words { MatchOption result (words_of (drop from line.now) ≡ [])
        (λ x. words_of (drop from line.now) ≡ take (x.1 - x.0) (drop x.0 line.now) ∷ words_of (drop x.1 line.now)) }
    ensures order { IfSome result (λ x. (from ≤ x.0) × (x.0 < x.1) × (x.1 ≤ length line.now)) }
    ensures edges { IfSome result (λ x. EdgesFrom stops.solids x.2 x.1) }
{
    match marked_start(line, stops, edges, from) {
        None => None,
        Some((start, inner)) => {
            let (end, behind) = marked_end(line, stops, inner, start);
            Some((start, end, behind))
        }
    }
}

/// Puts the words of a line in the place of others, by its masks.
fn put_marked_words<'a>(
    words: &mut Vec<&'a [u8]>,
    line: &'a [u8],
    stops: Stops,
) -> Result<(), Memory>
    requires { PartWords line.now stops.ends stops.solids }
    ensures { OnOk result (texts words.new.items ≡ words_of line.now) }
{
    words.clear();
    words.reserve(LANES)?;
    let mut at = 0;
    let mut edges = edges_from(stops.solids, 0);
    while let Some((start, end, behind)) = marked_word(line, stops, edges, at) {
        words.push_reserved(&line[start..end]);
        at = end;
        edges = behind;
    }
    Ok(())
}

/// Puts the words of a line in the place of others, byte after byte.
pub fn put_line_words<'a>(words: &mut Vec<&'a [u8]>, line: &'a [u8]) -> Result<(), Memory>
    ensures { OnOk result (texts words.new.items ≡ words_of line.now) }
{
    words.clear();
    let mut at = 0;
    while let Some((start, end)) = word_from(line, at) {
        words.push(&line[start..end])?;
        at = end;
    }
    Ok(())
}

/// Puts the words of a line in the place of others.
pub(crate) fn put_words<'a>(
    words: &mut Vec<&'a [u8]>,
    line: &'a [u8],
    stops: Option<Stops>,
) -> Result<(), Memory>
    requires { IfSome stops (λ s. PartWords line.now s.ends s.solids) }
    ensures { OnOk result (texts words.new.items ≡ words_of line.now) }
{
    match stops {
        Some(stops) => put_marked_words(words, line, stops),
        None => put_line_words(words, line),
    }
}

/// The pieces of a word between each two of these bytes.
pub(crate) fn pieces(alloc: Global, byte: u8, word: &[u8]) -> Result<Vec<&[u8]>, Memory>
    ensures { IfOk result (λ pieces. texts pieces.items ≡ pieces_of byte word.now) }
{
    let mut pieces = Vec::new(alloc);
    let mut rest = word;
    while let Some((piece, after)) = cut(byte, rest) {
        pieces.push(piece)?;
        rest = after;
    }
    pieces.push(rest)?;
    Ok(pieces)
}

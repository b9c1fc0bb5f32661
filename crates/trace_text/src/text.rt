//! Bytes and numbers put at the end of a text.
ghost use Rattle.std.specs.Prelude.{◌≡◌, ◌+◌, ◌/◌, ◌%◌, ◌^◌, ◌<◌, ◌≤◌, [], ◌∷◌, ◌++◌, codes, length, IfSome, IfNone, OnOk, true, false, nat_lt, if◌then◌else◌, nat_eq, ◌&&◌, nat_le};
ghost use Rattle.std.specs.List.{flat_map, list_all};
ghost use Rattle.std.specs.Fmt.{decimal, signed_decimal};
ghost use Rattle.kernel_model.specs.Texts.{escape, hex_digit, is_plain, is_letter_or_digit, is_repeated, message_text, quoted_text, repeated_text};

use itoa::Buffer;
use pico_base::Memory;

/// Adds these bytes.
#[inline]
pub fn push(out: &mut Vec<u8>, bytes: &[u8]) -> Result<(), Memory>
    ensures { OnOk result (out.new.items ≡ out.old.items ++ bytes.now) }
{
    out.extend_from_slice(bytes)?;
    Ok(())
}

/// Adds one byte.
#[inline(always)]
pub fn push_byte(out: &mut Vec<u8>, byte: u8) -> Result<(), Memory>
    ensures { OnOk result (out.new.items ≡ out.old.items ++ byte ∷ []) }
{
    out.push(byte)?;
    Ok(())
}

// Whether there is room for so many more bytes. Where a function asks first, and leaves what needs memory to another
// one, the compiler tests no room again, and the path that nearly all lines take saves no registers.
#[inline(always)]
pub(crate) fn has_room(out: &Vec<u8>, more: usize) -> bool {
    more <= out.capacity() - out.len()
}

// Adds bytes where room for them may have to be taken.
#[cold]
#[inline(never)]
pub(crate) fn push_growing(out: &mut Vec<u8>, bytes: &[u8]) -> Result<(), Memory>
    ensures { OnOk result (out.new.items ≡ out.old.items ++ bytes.now) }
{
    push(out, bytes)
}

// Adds bytes that the compiler knows.
#[inline(always)]
pub(crate) fn push_known(out: &mut Vec<u8>, bytes: &[u8]) -> Result<(), Memory>
    ensures { OnOk result (out.new.items ≡ out.old.items ++ bytes.now) }
{
    if has_room(out, bytes.len()) {
        return push(out, bytes);
    }
    push_growing(out, bytes)
}

// The digits of the numbers below a hundred, two for each.
static PAIRS: [u8; 200] =
    *b"0001020304050607080910111213141516171819202122232425262728293031323334353637383940414243444546474849\
       5051525354555657585960616263646566676869707172737475767778798081828384858687888990919293949596979899";

// Both digits of a number below a hundred, in one step.
#[inline(always)]
#[tactic(auto, using(crate::proofs::Digits::pair_at))]
fn pair(number: u8) -> (u8, u8)
    requires { number < 100 }
    ensures tens { result.0 ≡ 48 + number / 10 }
    ensures units { result.1 ≡ 48 + number % 10 }
{
    let from = usize::from(number) * 2;
    (PAIRS[from], PAIRS[from + 1])
}

// Adds a number of two digits.
#[tactic(auto, using(crate::proofs::Digits::two_digits))]
fn push_two_digits(out: &mut Vec<u8>, number: u8) -> Result<(), Memory>
    requires { (10 ≤ number) × (number < 100) }
    ensures { OnOk result (out.new.items ≡ out.old.items ++ decimal number) }
{
    let (tens, units) = pair(number);
    push(out, &[tens, units])
}

// Adds a number of three digits.
#[tactic(auto, using(crate::proofs::Digits::three_digits))]
fn push_three_digits(out: &mut Vec<u8>, number: u16) -> Result<(), Memory>
    requires { (100 ≤ number) × (number < 1000) }
    ensures { OnOk result (out.new.items ≡ out.old.items ++ decimal number) }
{
    let (tens, units) = pair((number % 100) as u8);
    push(out, &[b'0' + (number / 100) as u8, tens, units])
}

// Adds a number of four digits.
#[tactic(auto, using(crate::proofs::Digits::four_digits))]
fn push_four_digits(out: &mut Vec<u8>, number: u16) -> Result<(), Memory>
    requires { (1000 ≤ number) × (number < 10000) }
    ensures { OnOk result (out.new.items ≡ out.old.items ++ decimal number) }
{
    let (thousands, hundreds) = pair((number / 100) as u8);
    let (tens, units) = pair((number % 100) as u8);
    push(out, &[thousands, hundreds, tens, units])
}

// Adds any number. It stands apart, so that numbers of few digits need no buffer. To add those of more than four digits
// by parts takes more instructions than the buffer does.
#[inline(never)]
fn push_long_number(out: &mut Vec<u8>, number: u64) -> Result<(), Memory>
    ensures { OnOk result (out.new.items ≡ out.old.items ++ decimal number) }
{
    push(out, Buffer::new().format(number).as_bytes())
}

// Adds a number of more than one digit, where room may have to be taken.
#[inline(never)]
fn push_more_digits(out: &mut Vec<u8>, number: u64) -> Result<(), Memory>
    requires { 10 ≤ number }
    ensures { OnOk result (out.new.items ≡ out.old.items ++ decimal number) }
{
    if number < 100 {
        return push_two_digits(out, number as u8);
    }
    if number < 1000 {
        return push_three_digits(out, number as u16);
    }
    if number < 10000 {
        return push_four_digits(out, number as u16);
    }
    push_long_number(out, number)
}

// Adds a number of more than one digit.
#[inline(never)]
fn push_digits(out: &mut Vec<u8>, number: u64) -> Result<(), Memory>
    requires { 10 ≤ number }
    ensures { OnOk result (out.new.items ≡ out.old.items ++ decimal number) }
{
    if number < 1000 && has_room(out, 3) {
        if number < 100 {
            return push_two_digits(out, number as u8);
        }
        return push_three_digits(out, number as u16);
    }
    push_more_digits(out, number)
}

/// Adds a number in decimal digits.
#[tactic(auto, using(std::proofs::lemmas::Fmt::decimal_digit))]
#[inline]
pub fn push_number(out: &mut Vec<u8>, number: u64) -> Result<(), Memory>
    ensures { OnOk result (out.new.items ≡ out.old.items ++ decimal number) }
{
    // Most numbers of a trace have one digit.
    if number < 10 {
        return push_byte(out, b'0' + number as u8);
    }
    push_digits(out, number)
}

// Adds a number of two digits, and a byte behind it.
#[tactic(auto, using(crate::proofs::Digits::two_digits_then))]
fn push_two_digits_then(out: &mut Vec<u8>, number: u8, byte: u8) -> Result<(), Memory>
    requires { (10 ≤ number) × (number < 100) }
    ensures { OnOk result (out.new.items ≡ out.old.items ++ (decimal number ++ byte ∷ [])) }
{
    let (tens, units) = pair(number);
    push(out, &[tens, units, byte])
}

// Adds a number of one digit, and a byte behind it.
#[tactic(auto, using(crate::proofs::Digits::digit_then))]
fn push_digit_then(out: &mut Vec<u8>, digit: u8, byte: u8) -> Result<(), Memory>
    requires { digit < 10 }
    ensures { OnOk result (out.new.items ≡ out.old.items ++ (decimal digit ++ byte ∷ [])) }
{
    push(out, &[b'0' + digit, byte])
}

// Adds a number of three digits, and a byte behind it.
#[tactic(auto, using(crate::proofs::Digits::three_digits_then))]
fn push_three_digits_then(out: &mut Vec<u8>, number: u16, byte: u8) -> Result<(), Memory>
    requires { (100 ≤ number) × (number < 1000) }
    ensures { OnOk result (out.new.items ≡ out.old.items ++ (decimal number ++ byte ∷ [])) }
{
    let (tens, units) = pair((number % 100) as u8);
    push(out, &[b'0' + (number / 100) as u8, tens, units, byte])
}

// Adds any number, and a byte behind it.
#[inline(never)]
fn push_any_then(out: &mut Vec<u8>, number: u64, byte: u8) -> Result<(), Memory>
    ensures { OnOk result (out.new.items ≡ out.old.items ++ (decimal number ++ byte ∷ [])) }
{
    push_number(out, number)?;
    push_byte(out, byte)
}

// Adds a number of more than two digits, and a byte behind it.
#[inline(never)]
fn push_longer_then(out: &mut Vec<u8>, number: u64, byte: u8) -> Result<(), Memory>
    ensures { OnOk result (out.new.items ≡ out.old.items ++ (decimal number ++ byte ∷ [])) }
{
    if (100..1000).contains(&number) && has_room(out, 4) {
        return push_three_digits_then(out, number as u16, byte);
    }
    push_any_then(out, number, byte)
}

// Adds a number in decimal digits, and a byte behind it.
#[inline(always)]
pub(crate) fn push_number_then(out: &mut Vec<u8>, number: u64, byte: u8) -> Result<(), Memory>
    ensures { OnOk result (out.new.items ≡ out.old.items ++ (decimal number ++ byte ∷ [])) }
{
    if number < 100 && has_room(out, 3) {
        if number < 10 {
            return push_digit_then(out, number as u8, byte);
        }
        return push_two_digits_then(out, number as u8, byte);
    }
    push_longer_then(out, number, byte)
}

// A signed number as a byte, where it is one digit.
pub(crate) fn digit_of(number: i32) -> Option<u8>
    ensures { IfSome result (λ digit. (digit < 10) × (signed_decimal number ≡ decimal digit)) }
{
    if (0..10).contains(&number) {
        Some(number as u8)
    } else {
        None
    }
}

// What stands behind the sign of a negative number, where it is one digit.
#[tactic(auto, using(crate::proofs::Digits::signed_less))]
pub(crate) fn digit_less(number: i32) -> Option<u8>
    ensures { IfSome result (λ digit. (digit < 10) × (signed_decimal number ≡ 45 ∷ decimal digit)) }
{
    let less = number.unsigned_abs();
    if number < 0 && less < 10 {
        Some(less as u8)
    } else {
        None
    }
}

// Adds any signed number.
#[inline(never)]
fn push_long_signed(out: &mut Vec<u8>, number: i32) -> Result<(), Memory>
    ensures { OnOk result (out.new.items ≡ out.old.items ++ signed_decimal number) }
{
    push(out, Buffer::new().format(number).as_bytes())
}

/// Adds a signed number in decimal digits.
#[inline]
pub fn push_signed(out: &mut Vec<u8>, number: i32) -> Result<(), Memory>
    ensures { OnOk result (out.new.items ≡ out.old.items ++ signed_decimal number) }
{
    if number >= 0 {
        return push_number(out, number as u64);
    }
    push_long_signed(out, number)
}

// Adds any signed number, and a space.
#[inline(never)]
fn push_long_signed_and_space(out: &mut Vec<u8>, number: i32) -> Result<(), Memory>
    ensures { OnOk result (out.new.items ≡ out.old.items ++ (signed_decimal number ++ 32 ∷ [])) }
{
    push_long_signed(out, number)?;
    push_byte(out, b' ')
}

// Adds a signed number in decimal digits, and a space.
#[inline(always)]
pub(crate) fn push_signed_and_space(out: &mut Vec<u8>, number: i32) -> Result<(), Memory>
    ensures { OnOk result (out.new.items ≡ out.old.items ++ (signed_decimal number ++ 32 ∷ [])) }
{
    if number >= 0 {
        return push_number_then(out, number as u64, b' ');
    }
    push_long_signed_and_space(out, number)
}

// Whether a byte stands for itself between quotes.
fn plain(byte: u8) -> bool
    ensures { result ≡ is_plain byte }
{
    (32..=126).contains(&byte) && byte != b'"' && byte != b'\\'
}

fn letter_or_digit(byte: u8) -> bool
    ensures { result ≡ is_letter_or_digit byte }
{
    byte.is_ascii_alphanumeric()
}

// The lower-case hexadecimal digit of a number below 16.
fn hex(digit: u8) -> u8
    requires { digit < 16 }
    ensures { result ≡ hex_digit digit }
{
    if digit < 10 { b'0' + digit } else { 87 + digit }
}

fn push_escaped(out: &mut Vec<u8>, byte: u8) -> Result<(), Memory>
    ensures { OnOk result (out.new.items ≡ out.old.items ++ escape byte) }
{
    if plain(byte) {
        push_byte(out, byte)
    } else {
        push(out, &[b'\\', b'x', hex(byte / 16), hex(byte % 16)])
    }
}

// Each byte is tested, also behind one that isn't plain: so the loop has no early end and becomes vector code.
fn all_plain(text: &[u8]) -> bool
    ensures { result ≡ list_all is_plain text.now }
{
    let mut all = true;
    for byte in text {
        all &= plain(*byte);
    }
    all
}

// Most texts have no byte to escape, and are added at once.
#[tactic(auto, using(crate::proofs::Escapes::plain_text))]
fn push_escapes(out: &mut Vec<u8>, text: &[u8]) -> Result<(), Memory>
    ensures { OnOk result (out.new.items ≡ out.old.items ++ flat_map escape text.now) }
{
    if all_plain(text) {
        return push(out, text);
    }
    for byte in text {
        push_escaped(out, *byte)?;
    }
    Ok(())
}

// Adds a text that has no byte to escape.
#[inline(always)]
#[tactic(auto, using(crate::proofs::Escapes::plain_text))]
fn push_unescaped(out: &mut Vec<u8>, text: &[u8]) -> Result<(), Memory>
    requires { list_all is_plain text.now ≡ true }
    ensures { OnOk result (out.new.items ≡ out.old.items ++ flat_map escape text.now) }
{
    push(out, text)
}

// Adds a text in quotes, where it has no byte to escape.
fn push_plain(out: &mut Vec<u8>, text: &[u8]) -> Result<(), Memory>
    requires { list_all is_plain text.now ≡ true }
    ensures { OnOk result (out.new.items ≡ out.old.items ++ quoted_text text.now) }
{
    push_byte(out, b'"')?;
    push_unescaped(out, text)?;
    push_byte(out, b'"')
}

/// Adds these bytes in quotes, each that isn't plain as `\xHH`.
pub fn push_quoted(out: &mut Vec<u8>, text: &[u8]) -> Result<(), Memory>
    ensures { OnOk result (out.new.items ≡ out.old.items ++ quoted_text text.now) }
{
    if text.len() <= 64 && has_room(out, 66) && all_plain(text) {
        return push_plain(out, text);
    }
    push_long_quoted(out, text)
}

// Adds any bytes in quotes.
#[inline(never)]
fn push_long_quoted(out: &mut Vec<u8>, text: &[u8]) -> Result<(), Memory>
    ensures { OnOk result (out.new.items ≡ out.old.items ++ quoted_text text.now) }
{
    push_byte(out, b'"')?;
    push_escapes(out, text)?;
    push_byte(out, b'"')
}

// Whether 17 or more bytes, these and one before them, are the same letter or digit. They are the same where each is as
// the one before it, and to compare two slices is quicker than to look at each byte.
#[tactic(auto, using(crate::proofs::Runs::same_throughout))]
fn is_run(text: &[u8], first: u8, rest: &[u8]) -> bool
    requires { text.now ≡ first ∷ rest.now }
    ensures { result ≡ (is_letter_or_digit first && (nat_le 16 (length rest.now) && list_all (nat_eq first) rest.now)) }
{
    letter_or_digit(first) && 16 <= rest.len() && rest == &text[..rest.len()]
}

// Whether the text is printed by the one letter or digit that it repeats.
pub(crate) fn is_repeat(text: &[u8]) -> bool
    ensures { result ≡ is_repeated text.now }
{
    match text.split_first() {
        None => false,
        Some((first, rest)) => is_run(text, *first, rest),
    }
}

// Adds a byte that stands less than a hundred times, at once.
fn push_short_repeat(out: &mut Vec<u8>, count: u8, byte: u8) -> Result<(), Memory>
    requires { (10 ≤ count) × (count < 100) }
    ensures { OnOk result
        (out.new.items ≡ out.old.items ++ (codes "rep:" ++ decimal count ++ 58 ∷ byte ∷ [])) }
{
    let (tens, units) = pair(count);
    push(out, &[b'r', b'e', b'p', b':', tens, units, b':', byte])
}

#[inline(never)]
fn push_long_repeat(out: &mut Vec<u8>, count: u64, byte: u8) -> Result<(), Memory>
    ensures { OnOk result
        (out.new.items ≡ out.old.items ++ (codes "rep:" ++ decimal count ++ 58 ∷ byte ∷ [])) }
{
    push(out, b"rep:")?;
    push_number(out, count)?;
    push(out, &[b':', byte])
}

// Adds a byte that stands so many times.
fn push_repeat(out: &mut Vec<u8>, count: usize, byte: u8) -> Result<(), Memory>
    ensures { OnOk result
        (out.new.items ≡ out.old.items ++ (codes "rep:" ++ decimal count ++ 58 ∷ byte ∷ [])) }
{
    if (10..100).contains(&count) && has_room(out, 8) {
        return push_short_repeat(out, count as u8, byte);
    }
    push_long_repeat(out, count as u64, byte)
}

/// Adds a message's text, in quotes or by the byte that it repeats.
#[inline(always)]
pub fn push_message(out: &mut Vec<u8>, text: &[u8]) -> Result<(), Memory>
    ensures { OnOk result (out.new.items ≡ out.old.items ++ message_text text.now) }
{
    if !is_repeat(text) {
        return push_quoted(out, text);
    }
    push_repeat(out, text.len(), text[0])
}

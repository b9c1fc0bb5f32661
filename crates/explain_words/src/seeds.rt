//! What is wrong with the numbers of schedules.

use crate::explained::Told;
use crate::given::{Given, Seed, are_digits};
use explain_base::{Piece, Text};

// What is wrong with a number: the greatest is 2147483646.
fn wrong_number(value: &str) -> Option<Text<'_>> {
    let bytes = value.as_bytes();
    let is_negative = match value.strip_prefix("-") {
        Some(digits) => are_digits(digits),
        None => false,
    };
    if is_negative {
        Some(Text::whole_in("", bytes, " is below 0"))
    } else if !are_digits(value) {
        Some(Text::whole_in("`", bytes, "` is no number"))
    } else if value != "0" && value.starts_with("0") {
        Some(Text::whole_in(
            "`",
            bytes,
            "` begins with a zero, and numbers have one spelling",
        ))
    } else if is_above(bytes) {
        Some(Text::two(
            Piece::whole(bytes),
            Piece::plain(" is above the greatest number of a schedule"),
        ))
    } else {
        None
    }
}

// Whether digits with no zero in front are above the greatest number.
fn is_above(digits: &[u8]) -> bool {
    let greatest: &[u8] = b"2147483646";
    digits.len() > greatest.len() || (digits.len() == greatest.len() && digits > greatest)
}

fn wrong_seed(seed: Seed<'_>) -> Option<Told<'_>> {
    let what = match seed.value {
        Some(value) => wrong_number(value)?,
        None => Text::plain("`--seed` lacks its number"),
    };
    // the word itself, or the one behind it
    let place = if seed.is_joined {
        seed.place
    } else {
        seed.place.saturating_add(1)
    };
    let expected = Text::plain("a number from 0 to 2147483646");
    Some(Told::new(place, what, expected))
}

/// The first number that isn't in order.
pub fn wrong_seeds<'a>(given: &Given<'a>) -> Option<Told<'a>> {
    let first = wrong_seed(given.seed?);
    match given.second_seed {
        Some(second) => first.or(wrong_seed(second)),
        None => first,
    }
}

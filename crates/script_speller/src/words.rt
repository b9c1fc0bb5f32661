//! The words of a line, each put at the end of a text behind a blank.
ghost use Rattle.std.specs.Prelude.{◌≡◌, ◌+◌, ◌/◌, ◌%◌, ◌<◌, ◌≤◌, ◌&&◌, [], ◌∷◌, ◌++◌, length, nat_eq, nat_le, if◌then◌else◌, codes, IfOk, OnOk};
ghost use Rattle.std.specs.List.{flat_map, list_all};
ghost use Rattle.std.specs.Fmt.{decimal, signed_decimal};
ghost use Rattle.kernel_model.specs.Texts.{is_letter_or_digit, is_one_letter, quoted_text, repeated_text};
ghost use Rattle.kernel_model.specs.Trace as trace;
ghost use Rattle.script_speller.specs.Spelling as spec;

use pico_base::{Memory, SemStep, SigSet, Var};
use trace_text::{push, push_byte, push_number, push_quoted, push_set, push_signed, push_values};

/// Adds a word.
pub(crate) fn push_word(out: &mut Vec<u8>, word: &[u8]) -> Result<(), Memory>
    ensures { OnOk result (out.new.items ≡ out.old.items ++ 32 ∷ word.now) }
{
    push_byte(out, b' ')?;
    push(out, word)
}

/// Adds a word that is wanted.
pub(crate) fn push_flag(out: &mut Vec<u8>, wanted: bool, word: &[u8]) -> Result<(), Memory>
    ensures { OnOk result (out.new.items ≡ out.old.items ++ spec.behind_blanks (spec.flag_words wanted word.now)) }
{
    if wanted {
        push_word(out, word)?;
    }
    Ok(())
}

/// Adds a number.
pub(crate) fn push_decimal(out: &mut Vec<u8>, number: u32) -> Result<(), Memory>
    ensures { OnOk result (out.new.items ≡ out.old.items ++ 32 ∷ decimal number) }
{
    push_byte(out, b' ')?;
    push_number(out, u64::from(number))
}

/// Adds a message's type.
pub(crate) fn push_class(out: &mut Vec<u8>, class: i32) -> Result<(), Memory>
    ensures { OnOk result (out.new.items ≡ out.old.items ++ 32 ∷ signed_decimal class) }
{
    push_byte(out, b' ')?;
    push_signed(out, class)
}

/// Adds what stands behind a variable's letter.
fn push_variable_digits(out: &mut Vec<u8>, digits: u8) -> Result<(), Memory>
    requires { digits < 111 }
    ensures { OnOk result (out.new.items ≡ out.old.items ++ spec.variable_digits digits) }
{
    if digits == 0 {
        return Ok(());
    }
    if digits < 11 {
        return push_byte(out, b'0' + (digits - 1));
    }
    push(out, &[b'0' + (digits - 11) / 10, b'0' + (digits - 11) % 10])
}

/// Adds a variable's name.
#[tactic(auto, unfolding(crate::specs::Spelling::variable_text))]
pub(crate) fn push_variable(out: &mut Vec<u8>, variable: Var) -> Result<(), Memory>
    ensures { OnOk result (out.new.items ≡ out.old.items ++ spec.variable_text variable) }
{
    let index = variable.0;
    push_byte(out, b'a' + (index / 111) as u8)?;
    push_variable_digits(out, (index % 111) as u8)
}

/// Adds a variable, or the number in its place.
pub(crate) fn push_object(out: &mut Vec<u8>, from: Option<Var>, number: u32) -> Result<(), Memory>
    ensures { OnOk result (out.new.items ≡ out.old.items ++ 32 ∷ spec.object_text from number) }
{
    match from {
        None => push_decimal(out, number),
        Some(variable) => {
            push(out, b" $")?;
            push_variable(out, variable)
        }
    }
}

fn letter_or_digit(byte: u8) -> bool
    ensures { result ≡ is_letter_or_digit byte }
{
    byte.is_ascii_alphanumeric()
}

fn all_are(byte: u8, bytes: &[u8]) -> bool
    ensures { result ≡ list_all (nat_eq byte) bytes.now }
{
    bytes.iter().all(|other| byte == *other)
}

/// Whether the text is the same letter or digit throughout.
fn is_run(text: &[u8]) -> bool
    ensures { result ≡ is_one_letter text.now }
{
    match text {
        [] => false,
        [first, rest @ ..] => letter_or_digit(*first) && all_are(*first, rest),
    }
}

/// Whether the text is written by the letter or digit that it repeats.
fn is_counted(text: &[u8]) -> bool
    ensures { result ≡ (is_one_letter text.now && nat_le 6 (length text.now)) }
{
    is_run(text) && 6 <= text.len()
}

fn push_repeated(out: &mut Vec<u8>, text: &[u8]) -> Result<(), Memory>
    ensures { OnOk result (out.new.items ≡ out.old.items ++ repeated_text text.now) }
{
    match text {
        [] => Ok(()),
        [first, ..] => {
            push(out, b"rep:")?;
            push_number(out, text.len() as u64)?;
            push(out, &[b':', *first])
        }
    }
}

/// Adds a message's text.
#[tactic(auto, unfolding(crate::specs::Spelling::message_word))]
pub(crate) fn push_message(out: &mut Vec<u8>, text: &[u8]) -> Result<(), Memory>
    ensures { OnOk result (out.new.items ≡ out.old.items ++ 32 ∷ spec.message_word text.now) }
{
    push_byte(out, b' ')?;
    if is_counted(text) {
        push_repeated(out, text)
    } else {
        push_quoted(out, text)
    }
}

fn push_nowait(out: &mut Vec<u8>, nowait: bool) -> Result<(), Memory>
    ensures { OnOk result (out.new.items ≡ out.old.items ++ (if nowait then codes ":nowait" else [])) }
{
    if nowait {
        push(out, b":nowait")?;
    }
    Ok(())
}

fn push_step(out: &mut Vec<u8>, step: SemStep) -> Result<(), Memory>
    ensures { OnOk result (out.new.items ≡ out.old.items ++ 32 ∷ spec.step_word step) }
{
    push_decimal(out, u32::from(step.num))?;
    push_byte(out, b':')?;
    push_signed(out, step.add)?;
    push_nowait(out, step.nowait)
}

/// Adds the operations of a `semop`.
pub(crate) fn push_steps(out: &mut Vec<u8>, steps: &[SemStep]) -> Result<(), Memory>
    ensures { OnOk result
        (out.new.items ≡ out.old.items ++ flat_map (λ step. 32 ∷ spec.step_word step) steps.now) }
{
    for step in steps {
        push_step(out, *step)?;
    }
    Ok(())
}

/// Adds values joined by commas.
pub(crate) fn push_value_word(out: &mut Vec<u8>, values: &[u32]) -> Result<(), Memory>
    ensures { OnOk result (out.new.items ≡ out.old.items ++ 32 ∷ trace.values_text values.now) }
{
    push_byte(out, b' ')?;
    push_values(out, values)
}

/// Adds a set of signals.
pub(crate) fn push_set_word(out: &mut Vec<u8>, set: SigSet) -> Result<(), Memory>
    ensures { OnOk result (out.new.items ≡ out.old.items ++ 32 ∷ trace.set_text set) }
{
    push_byte(out, b' ')?;
    push_set(out, set)
}

//! A class as a number without a sign, which rises as the class does.
ghost use Rattle.std.specs.Prelude.{◌≡◌};
ghost use Rattle.index_links.specs.Keys.{key_of as key, class_of as class};

const HALF: u32 = 2147483648;

/// The number of a class.
#[inline]
pub(crate) fn key_of(class: i32) -> u32
    ensures { result ≡ key class }
{
    let bits = class.cast_unsigned();
    if bits < HALF {
        bits + HALF
    } else {
        bits - HALF
    }
}

/// The class of a number.
#[inline]
pub(crate) fn class_of(key: u32) -> i32
    ensures { result ≡ class key }
{
    if key < HALF {
        (key + HALF).cast_signed()
    } else {
        (key - HALF).cast_signed()
    }
}

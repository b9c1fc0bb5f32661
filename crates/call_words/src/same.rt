//! Whether a word is this one of so many bytes. The bytes are told one by one, without a call.
ghost use Rattle.std.specs.Prelude.{◌≡◌, bytes_eq};

/// Whether a word is this one of four bytes.
pub fn is_four(name: [u8; 4], word: &[u8]) -> bool
    ensures { result ≡ bytes_eq name word.now }
{
    match word {
        [a, b, c, d] => {
            (name[0] == *a) & ((name[1] == *b) & ((name[2] == *c) & (name[3] == *d)))
        }
        _ => false,
    }
}

/// Whether a word is this one of five bytes.
pub fn is_five(name: [u8; 5], word: &[u8]) -> bool
    ensures { result ≡ bytes_eq name word.now }
{
    match word {
        [a, b, c, d, e] => {
            (name[0] == *a)
                & ((name[1] == *b) & ((name[2] == *c) & ((name[3] == *d) & (name[4] == *e))))
        }
        _ => false,
    }
}

/// Whether a word is this one of six bytes.
pub fn is_six(name: [u8; 6], word: &[u8]) -> bool
    ensures { result ≡ bytes_eq name word.now }
{
    match word {
        [a, b, c, d, e, f] => {
            (name[0] == *a)
                & ((name[1] == *b)
                    & ((name[2] == *c) & ((name[3] == *d) & ((name[4] == *e) & (name[5] == *f)))))
        }
        _ => false,
    }
}

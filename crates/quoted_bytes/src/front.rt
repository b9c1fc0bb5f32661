//! What stands at the front of bytes.
ghost use Rattle.std.specs.Prelude.{◌≡◌, option_copied};
ghost use Rattle.quoted_bytes.specs.Front.{strip};

/// What follows this prefix; none where it doesn't stand at the front.
pub fn strip_front<'a>(bytes: &'a [u8], prefix: &[u8]) -> Option<&'a [u8]>
    ensures { option_copied result ≡ strip prefix.now bytes.now }
{
    bytes.strip_prefix(prefix)
}

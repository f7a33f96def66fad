//! The spaces at the front and at the end of a text.
ghost use Rattle.std.specs.Prelude.{◌≡◌, ◌≤◌, ◌+◌, length};
ghost use Rattle.std.specs.List.{prefix_len, suffix_len};
ghost use Rattle.fits_value.specs.Spelling.{is_space};

use crate::runs::{LANES, run_at, run_len};

/// How many spaces stand at the front.
pub(crate) fn spaces_len(text: &[u8]) -> usize
    ensures value { result ≡ prefix_len is_space text.now }
    ensures within { result ≤ length text.now }
{
    run_len(text, b' ')
}

/// How many bytes are left of a text without the spaces at its end.
pub fn trimmed_len(text: &[u8]) -> usize
    ensures value { result + suffix_len is_space text.now ≡ length text.now }
    ensures within { result ≤ length text.now }
{
    let mut len = text.len();
    'lanes: while LANES <= len && run_at(text, len - LANES, b' ') == LANES {
        len -= LANES;
    }
    'bytes: while 0 < len && text[len - 1] == b' ' {
        len -= 1;
    }
    len
}

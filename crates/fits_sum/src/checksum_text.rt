//! The sixteen characters that a checksum is written as.
ghost use Rattle.std.specs.Prelude.{◌≡◌, ◌≤◌};
ghost use Rattle.fits_sum.specs.ChecksumText as text;

/// Whether a character stands between digits and letters, or between capitals and small ones.
fn is_excluded(character: u8) -> bool
    ensures { result ≡ text.is_excluded character }
{
    matches!(character, b':'..=b'@' | b'['..=b'`')
}

/// The least number by which a pair is moved, one up and one down, so that neither is excluded.
fn least_move(first: u8, second: u8) -> u8
    requires first { first ≤ 200 }
    requires second { 16 ≤ second }
    ensures value { result ≡ text.least_move first second }
    ensures within { result ≤ 16 }
{
    for n in 0..16 {
        let excluded = is_excluded(first + n) | is_excluded(second - n);
        if !excluded {
            return n;
        }
    }
    16
}

/// The four characters of a byte.
#[tactic(auto, unfolding(crate::specs::ChecksumText::characters_of))]
fn characters_of(byte: u8) -> [u8; 4]
    ensures { result ≡ text.characters_of byte }
{
    let quarter = byte / 4 + b'0';
    let first = quarter + byte % 4;
    let n = least_move(first, quarter);
    let m = least_move(quarter, quarter);
    [first + n, quarter - n, quarter + m, quarter - m]
}

/// The text to write so that the whole of what has this sum with sixteen `0` sums to all ones.
pub fn encode(sum: u32) -> [u8; 16]
    ensures { result ≡ text.checksum_text sum }
{
    let [a, b, c, d] = (u32::MAX - sum).to_be_bytes();
    let [a0, a1, a2, a3] = characters_of(a);
    let [b0, b1, b2, b3] = characters_of(b);
    let [c0, c1, c2, c3] = characters_of(c);
    let [d0, d1, d2, d3] = characters_of(d);
    // A column for each byte, and the whole rotated right by one.
    [
        d3, a0, b0, c0, d0, a1, b1, c1, d1, a2, b2, c2, d2, a3, b3, c3,
    ]
}

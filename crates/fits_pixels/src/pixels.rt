//! One pixel, read and written in a list of bytes.
ghost use Rattle.std.specs.Prelude.{◌≡◌, ◌≤◌, ◌<◌, ◌*◌, ◌+◌, ◌-ℤ◌, ◌⊎◌, ◌↔◌, ℕ, pos, IsTrue, length, slice_index, slice_index_or};
ghost use Rattle.fits_pixels.specs.Pixels.{pixel, IsWidth, IsStorable, can_store, AreStorable, can_store_all};

use crate::pixels_8;
use crate::signed_pixel::SignedPixel;
use byteorder::{BigEndian, ByteOrder};

/// Whether pixels of so many bytes can store a number.
pub fn is_storable(width: usize, number: i128) -> bool
    requires { IsWidth width }
    ensures means { IsTrue result ↔ IsStorable width number }
    ensures value { result ≡ can_store width number }
{
    match width {
        1 => u8::try_from(number).is_ok(),
        2 => i16::try_from(number).is_ok(),
        4 => i32::try_from(number).is_ok(),
        _ => i64::try_from(number).is_ok(),
    }
}

/// Whether they can store a value less the offset.
pub fn stores(width: usize, value: i128, offset: i128) -> bool
    requires { IsWidth width }
    ensures { IsTrue result ↔ IsStorable width (value -ℤ offset) }
{
    match value.checked_sub(offset) {
        Some(number) => is_storable(width, number),
        None => false,
    }
}

/// Whether they can store each of these values less the offset.
pub fn are_storable(width: usize, values: &[i128], offset: i128) -> bool
    requires { IsWidth width }
    ensures means { IsTrue result ↔ AreStorable width offset values.now }
    ensures value { result ≡ can_store_all width offset values.now }
{
    for i in 0..values.len() {
        if !stores(width, values[i], offset) {
            return false;
        }
    }
    true
}

/// Stored pixel i.
pub fn pixel_at(bytes: &[u8], width: usize, i: usize) -> i64
    requires width { IsWidth width }
    requires within { (i + 1) * width ≤ length bytes.now }
    ensures { result ≡ pixel width bytes.now i }
{
    match width {
        1 => i64::from(pixels_8::read(bytes, i)),
        2 => i64::from(i16::read(bytes, i)),
        4 => i64::from(i32::read(bytes, i)),
        _ => i64::read(bytes, i),
    }
}

/// Writes stored pixel i.
pub fn put_pixel(bytes: &mut [u8], width: usize, i: usize, stored: i64)
    requires width { IsWidth width }
    requires within { (i + 1) * width ≤ length bytes.old }
    requires storable { IsStorable width stored }
    ensures long { length bytes.new ≡ length bytes.old }
    ensures here { pixel width bytes.new i ≡ stored }
    ensures other { (j : ℕ) → (j < i * width) ⊎ ((i + 1) * width ≤ j)
        → slice_index bytes.new j ≡ slice_index bytes.old j }
{
    let pixel = &mut bytes[i * width..];
    // A width that is known here is written as one number.
    match width {
        1 => BigEndian::write_int(pixel, stored, 1),
        2 => BigEndian::write_int(pixel, stored, 2),
        4 => BigEndian::write_int(pixel, stored, 4),
        _ => BigEndian::write_int(pixel, stored, 8),
    }
}

/// That each is below 256, which contracts are told of bytes where a body reads them.
pub fn read_bytes(bytes: &[u8])
    ensures { (k : ℕ) → slice_index bytes.now k < 256 }
{
    let _first = bytes.first();
}

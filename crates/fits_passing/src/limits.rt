//! The limits of a file.
ghost use Rattle.std.specs.Prelude.{◌≡◌};
ghost use Rattle.fits_passing.specs.Limits.{is_within_limits};

/// How many bytes a file has at most: 4,000,000 blocks, the bytes after its last HDU included.
pub const FILE_LIMIT: u64 = 11_520_000_000;

/// How many HDUs a file has at most.
pub const HDU_LIMIT: u64 = 10_000;

/// Whether a file of so many bytes and HDUs keeps to the limits.
pub fn within(bytes: u64, hdus: u64) -> bool
    ensures { result ≡ is_within_limits bytes hdus }
{
    bytes <= FILE_LIMIT && hdus <= HDU_LIMIT
}

//! HDUs in memory, where memory is refused.

use fits_fixtures::{PIXEL, hdu_of, holds, same};
use fits_hdu::{Hdu, HduFault};

#[test]
fn refused_memory_at_an_hdu(rt: HostRuntime) {
    let Ok(bytes) = hdu_of(rt.alloc(), PIXEL, 1) else {
        return;
    };
    let is_small = bytes.len() < 10_000;
    holds!(rt; is_small);
    for _ in 0..2 {
        match Hdu::open(rt.alloc(), &bytes, false) {
            Ok((hdu, len)) => same!(rt; (hdu.card_count(), len), (6, 5760)),
            Err(why) => same!(rt; why, HduFault::Memory),
        }
        // what has no END is found before any memory is asked for
        let why = Hdu::open(rt.alloc(), b"XTENSION", false).err();
        same!(rt; why, Some(HduFault::NoEnd));
    }
}

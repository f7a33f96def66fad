//! Sums of words, and the texts that they are written as.

use fits_fixtures::same;
use fits_sum::{all_are, card_total, datasum_text, encode, fold, total, words_total};
use std::test::Fail;

/// A sum, its checksum text and its digits: the first by the standard's appendix J, the others by hand.
const SUMS: &[(u32, &str, &str)] = &[
    (868_229_149, "hcHjjc9ghcEghc9g", "868229149"),
    (4_294_967_295, "0000000000000000", "4294967295"),
    (0, "orrrrooooooooooo", "0"),
    (0xD4D4_D4D4, "3AAAA6666AAAA333", "3570717908"),
    (0x02A7_21B5, "BpFiDoFgBoFgBoFg", "44507573"),
];

#[test]
fn sums_have_their_texts(rt: HostRuntime) -> Result<(), Fail> {
    for (sum, text, digits) in SUMS {
        same!(rt; encode(*sum).as_slice(), text.as_bytes(), sum);
        same!(rt; datasum_text(rt.alloc(), *sum)?.as_slice(), digits.as_bytes());
    }
    Ok(())
}

/// What the bytes of a block are, which of them is another, the block's total and its sum.
const BLOCKS: &[(u8, (usize, u8), u64, u32)] = &[
    (0, (0, 0), 0, 0),
    (0, (4, 255), 255 * 0x100_0000, 255 * 0x100_0000),
    (0, (2879, 1), 1, 1),
    // 720 words, whose end-around carries are 719
    (255, (0, 255), 720 * 0xFFFF_FFFF, 0xFFFF_FFFF),
    (1, (2, 0), 720 * 0x101_0101 - 0x100, 0xD2D2_D1D2),
];

#[test]
fn the_words_of_a_block_are_added_up(rt: HostRuntime) {
    for (byte, (place, other), wanted, sum) in BLOCKS {
        let mut block = [*byte; 2880];
        if let Some(changed) = block.get_mut(*place) {
            *changed = *other;
        }
        same!(rt; total(&block), *wanted);
        same!(rt; words_total(&block), *wanted);
        same!(rt; fold(*wanted), *sum);
        same!(rt; all_are(&block, *byte), byte == other);
    }
}

#[test]
fn the_words_of_a_card_are_added_up(rt: HostRuntime) {
    same!(rt; card_total(&[1; 80]), 20 * 0x101_0101);
}

//! Making the sums of an HDU right.
ghost use Rattle.std.specs.Prelude.{◌≡◌, ◌≤◌, ◌<◌, ◌+◌, ◌-◌, ◌^◌, ◌++◌, length, codes, Some};
ghost use Rattle.fits_card.specs.Card.{card_of_text};
ghost use Rattle.fits_card.specs.Change.{new_cards};
ghost use Rattle.fits_hdu.specs.Keyword.{replacing};

use super::Hdu;
use crate::keyword_cards::{count_of, replacement};
use crate::stamp_cards::StampCards;
use fits_card::{Card, Cards, Name};
use fits_passing::{CHECKSUM, DATASUM};
use fits_sum::{datasum_card, encode, fold};
use std::alloc::{AllocError, Global};

impl Hdu {
    ghost use Rattle.std.specs.Prelude.{◌≡◌, ◌≤◌, ◌+◌, ◌-◌, ◌^◌, length, Ok, Some, OnOk, OnErr};
    ghost use Rattle.fits_passing.specs.Hdu.{hdu_bytes};
    ghost use Rattle.fits_hdu.specs.Keyword.{own_count};
    ghost use Rattle.fits_hdu.specs.Stamp.{stamp_adds, stamped, with_keyword, IsOneCard, IsSumName};
    ghost use Rattle.fits_hdu.specs.State.{parts_of, IsDescribed, IsSeen, ReadsUpTo};
    ghost use Rattle.fits_passing.specs.Sums.{hdu_sum};
    ghost use Rattle.fits_passing.specs.Work.{apply_reads};
    ghost use Rattle.fits_hdu.specs.Work.{keyword_reads, plane_work, stamp_count_reads, stamp_reads};

    /// How many cards its header has when it is stamped. The cards that it reads are counted. It
    /// takes no memory.
    #[tactic(auto, using(crate::proofs::StampingLemmas::count_steps))]
    pub fn count_stamped(&mut self) -> usize
        ensures value { result ≡ length (stamped (parts_of self.old)).header.cards }
        ensures work { ReadsUpTo self.old self.new
            (stamp_count_reads self.old.header.header.cards) }
    {
        let checksum = count_of(self.keyword_cards(&CHECKSUM));
        let datasum = count_of(self.keyword_cards(&DATASUM));
        self.card_count() + 2 - checksum - datasum
    }

    /// Makes DATASUM and CHECKSUM right: each keeps its place, or comes after the last card, and
    /// loses its comment (FITS Standard 4.0, section 4.4.2.7 and Appendix J).
    ///
    /// Memory is asked for before anything changes. The cards that it reads are counted; nothing of
    /// the data unit is read.
    #[tactic(auto, using(crate::proofs::StampingLemmas::stamp_steps))]
    pub fn stamp(&mut self, alloc: Global) -> Result<(), AllocError>
        requires known { IsSeen self.old }
        requires small { length (hdu_bytes (parts_of self.old)) ≤ 2 ^ 34 - 2 ^ 13 }
        ensures ok { OnOk result (parts_of self.new ≡ stamped (parts_of self.old)) }
        ensures err { OnErr result (parts_of self.new ≡ parts_of self.old) }
        ensures room { OnErr result (self.new.header.room ≡ self.old.header.room) }
        ensures shape { self.new.header.shape ≡ self.old.header.shape }
        ensures pixel_work { plane_work self.new.plane ≡ plane_work self.old.plane }
        ensures least { self.old.header.reads ≤ self.new.header.reads }
        ensures work { self.new.header.reads
            ≤ self.old.header.reads + stamp_reads self.old.header.header.cards }
        ensures entry { self.new.entry ≡ self.old.entry }
        ensures kept { self.new.kept ≡ self.old.kept }
        ensures absent { self.new.absent ≡ self.old.absent }
        ensures described { IsDescribed self.old }
        ensures left { IsDescribed self.new }
    {
        let _described = self.card_count();
        let cards = StampCards::new(alloc)?;
        self.reserve_stamp()?;
        self.stamp_with(cards);
        Ok(())
    }

    /// Makes room for the cards that a stamp brings. It fails only where room was missing.
    pub fn reserve_stamp(&mut self) -> Result<(), AllocError>
        ensures ok { OnOk result (stamp_adds self.old.header.header.cards ≤ self.new.header.room) }
        ensures err { OnErr result (self.new.header.room ≡ self.old.header.room) }
        ensures rest { self.new ≡ record self.old { header = self.new.header } }
        ensures header { self.new.header ≡ record self.old.header { room = self.new.header.room } }
    {
        self.reserve(self.missing(&CHECKSUM) + self.missing(&DATASUM))
    }

    /// Makes DATASUM and CHECKSUM right, in room that was asked for before. It takes no memory.
    #[tactic(auto, using(crate::proofs::StampingLemmas::stamp_steps))]
    pub fn stamp_with(&mut self, cards: StampCards)
        requires known { IsSeen self.old }
        requires small { length (hdu_bytes (parts_of self.old)) ≤ 2 ^ 34 - 2 ^ 13 }
        requires room { stamp_adds self.old.header.header.cards ≤ self.old.header.room }
        ensures hdu { parts_of self.new ≡ stamped (parts_of self.old) }
        ensures shape { self.new.header.shape ≡ self.old.header.shape }
        ensures pixel_work { plane_work self.new.plane ≡ plane_work self.old.plane }
        ensures least { self.old.header.reads ≤ self.new.header.reads }
        ensures work { self.new.header.reads
            ≤ self.old.header.reads + stamp_reads self.old.header.header.cards }
        ensures entry { self.new.entry ≡ self.old.entry }
        ensures kept { self.new.kept ≡ self.old.kept }
        ensures absent { self.new.absent ≡ self.old.absent }
        ensures described { IsDescribed self.old }
        ensures left { IsDescribed self.new }
    {
        let _described = self.card_count();
        let StampCards {
            zeros,
            datasum,
            checksum,
        } = cards;
        let sum = datasum_card(self.datasum());
        self.set_card(&CHECKSUM, zeros.holding(checksum_card(&[b'0'; 16])));
        self.set_card(&DATASUM, datasum.holding(Card(sum)));
        let text = encode(self.sum());
        self.set_card(&CHECKSUM, checksum.holding(checksum_card(&text)));
    }

    // The sum of the whole of it.
    #[tactic(auto, using(crate::proofs::StampingLemmas::sum_steps), unfolding(fits_passing::specs::Sums::hdu_sum))]
    fn sum(&self) -> u32
        requires known { IsSeen self.now }
        requires small { length (hdu_bytes (parts_of self.now)) ≤ 2 ^ 34 }
        ensures { result ≡ hdu_sum (parts_of self.now) }
    {
        let _whole = self.card_count();
        let header = fold(self.header.total());
        fold(u64::from(header) + u64::from(self.datasum()))
    }

    // How many cards come where a keyword is set to one.
    fn missing(&self, name: &Name) -> usize
        ensures { result ≡ 1 - own_count self.now.header.header.cards name.now }
    {
        match self.header.lead(name) {
            Some(_) => 0,
            None => 1,
        }
    }

    // Sets one of the two keywords to one card. It takes no memory, and scans no block.
    #[tactic(auto, using(crate::proofs::StampingLemmas::set_steps))]
    fn set_card(&mut self, name: &Name, new: Cards)
        requires keyword { IsSumName name.now }
        requires one { IsOneCard name.now new }
        requires room { 1 ≤ self.old.header.room + own_count self.old.header.header.cards name.now }
        ensures hdu { parts_of self.new ≡ with_keyword name.now (Some new) (parts_of self.old) }
        ensures shape { self.new.header.shape ≡ self.old.header.shape }
        ensures room { self.new.header.room + 1
            ≡ self.old.header.room + own_count self.old.header.header.cards name.now }
        ensures pixel_work { plane_work self.new.plane ≡ plane_work self.old.plane }
        ensures least { self.old.header.reads ≤ self.new.header.reads }
        ensures work { self.new.header.reads ≤ self.old.header.reads
            + keyword_reads self.old.header.header.cards name.now + apply_reads }
        ensures entry { self.new.entry ≡ self.old.entry }
        ensures kept { self.new.kept ≡ self.old.kept }
        ensures absent { self.new.absent ≡ self.old.absent }
        ensures described { IsDescribed self.new }
    {
        let count = self.card_count();
        let old = self.keyword_cards(name);
        let change = replacement(count, old, new);
        self.apply(&change);
    }
}

// A text as the string of CHECKSUM.
fn checksum_card(text: &[u8; 16]) -> Card
    ensures { result ≡ card_of_text (codes "CHECKSUM= '" ++ (text.now ++ codes "'")) }
{
    let mut card = [b' '; 80];
    let (front, rest) = card.split_at_mut(11);
    front.copy_from_slice(b"CHECKSUM= '");
    let (characters, rest) = rest.split_at_mut(16);
    characters.copy_from_slice(text);
    rest[0] = b'\'';
    Card(card)
}

//! How rings are looked for, as bits of cards. What is found is a ring; that one is found isn't promised.

ghost use Rattle.std.specs.Prelude.{◌≡◌, ◌≢◌, ℕ, ◌<◌, ◌≤◌, ◌^◌, ◌↔◌, List};
ghost use Rattle.std.specs.Int.{bit_at};
ghost use Rattle.fc_bound.specs.Rings.{IsAmong};
ghost use Rattle.fc_bound.specs.inner.Tied.{IsTied, AreTiedBy, AreTiedIn, IsCard, IsWithin};

use crate::bits::{but_least, least, remove};
use crate::waiting_rows::Rows;

// The bits of all cards.
pub(crate) const CARDS: u64 = 0xf_ffff_ffff_ffff;

// Longer rings, by more than one card, aren't looked for.
const LONGEST: usize = 12;

// The least of these cards.
#[inline]
pub(crate) fn least_card(cards: u64) -> u8
    requires some { 0 < cards }
    requires below { cards < 2 ^ 52 }
    ensures below { result < 52 }
    ensures set { bit_at cards result ≡ 1 }
{
    least(cards)
}

// Of these cards those that wait beneath one of them and beneath which one of them waits.
#[inline]
pub(crate) fn tied(rows: &Rows, cards: u64) -> u64
    requires below { cards < 2 ^ 52 }
    ensures value { (c : ℕ) → (bit_at result c ≡ 1) ↔ IsTied rows.now cards c }
{
    let mut hosts = 0;
    let mut waiting = 0;
    let mut rest = cards;
    while rest != 0 {
        let card = least_card(rest);
        let guests = rows[card as usize].waiting & cards;
        waiting |= guests;
        if guests != 0 {
            hosts |= 1 << card;
        }
        rest = remove(rest, card);
    }
    hosts & waiting
}

// Whether each of these cards waits beneath one of them, and one of them beneath it.
#[inline]
fn are_tied(rows: &Rows, cards: u64) -> bool
    requires below { cards < 2 ^ 52 }
{
    let mut waiting = 0;
    let mut rest = cards;
    while rest != 0 {
        let card = least_card(rest);
        let guests = rows[card as usize].waiting & cards;
        if guests == 0 {
            return false;
        }
        waiting |= guests;
        rest = but_least(rest);
    }
    waiting == cards
}

// What is left of these cards where those that aren't tied go, again and again: the cards of each ring among them are.
#[inline]
pub(crate) fn pruned(rows: &Rows, cards: u64) -> u64
    requires below { cards < 2 ^ 52 }
    ensures within { IsWithin result cards }
    ensures most { result ≤ cards }
    ensures rings { (ring : List ℕ) → AreTiedBy rows.now ring → IsAmong cards ring → IsAmong result ring }
{
    if are_tied(rows, cards) {
        return cards;
    }
    let mut left = cards;
    let mut next = tied(rows, left);
    while next != left {
        left = next;
        next = tied(rows, left);
    }
    left
}

// A ring of a card and the least of these that is one with it; no cards where none is.
#[inline]
pub(crate) fn pair(rows: &Rows, others: u64, card: u8) -> u64
    requires others { others < 2 ^ 52 }
    requires card { card < 52 }
    ensures tied { AreTiedIn rows.now result }
    ensures within { (c : ℕ) → bit_at result c ≡ 1 → c ≢ card → bit_at others c ≡ 1 }
{
    let mut rest = others & rows[card as usize].waiting;
    while rest != 0 {
        let other = least_card(rest);
        if rows[other as usize].waiting >> card & 1 != 0 {
            return 1 << card | 1 << other;
        }
        rest = remove(rest, other);
    }
    0
}

// A shortest ring through a card, of cards that are able to be on it; no cards where none is found.
pub(crate) fn ring_through(rows: &Rows, able: u64, card: u8) -> u64
    requires able { able < 2 ^ 52 }
    requires card { card < 52 }
    requires own { bit_at able card ≡ 1 }
    ensures tied { AreTiedIn rows.now result }
    ensures within { IsWithin result able }
{
    let others = able & rows[card as usize].waiting;
    if others == 0 {
        return 0;
    }
    let pair = pair(rows, others, card);
    if pair != 0 {
        return pair;
    }
    long_ring_through(rows, able, card)
}

// Where a step from cards to those that wait beneath them leads.
#[derive(Clone, Copy)]
enum Reached {
    // That card waits beneath this one, the first of them beneath which it does.
    Again(u8),
    // It waits beneath none of them, but these do.
    Others(u64),
}

// The same where no ring of two is: what is found is tried before it counts, so that of the search for it nothing is promised.
pub(crate) fn long_ring_through(rows: &Rows, able: u64, card: u8) -> u64
    requires able { able < 2 ^ 52 }
    requires card { card < 52 }
    ensures tied { AreTiedIn rows.now result }
    ensures within { IsWithin result able }
{
    let ring = way_around(rows, able, card) & able;
    if tied(rows, ring) == ring { ring } else { 0 }
}

// A card and those of a shortest way from it back to it, each of which waits beneath the one before; no cards where none is found.
fn way_around(rows: &Rows, able: u64, card: u8) -> u64
    requires able { able < 2 ^ 52 }
    requires card { card < 52 }
{
    // The cards by the steps from that card to them: each waits beneath one that is a step less away.
    let mut layers = [0; LONGEST];
    let mut left = able & !(1 << card);
    let mut layer = left & rows[card as usize].waiting;
    for steps in 0..LONGEST {
        match reach(rows, layer, card) {
            Reached::Again(last) => return 1 << card | way(rows, &layers[..steps], last),
            Reached::Others(0) => return 0,
            Reached::Others(waiting) => {
                layers[steps] = layer;
                left &= !layer;
                layer = left & waiting;
            }
        }
    }
    0
}

// Where a step from these cards leads, of which one may have that card waiting beneath it.
#[inline]
fn reach(rows: &Rows, layer: u64, card: u8) -> Reached
    requires layer { layer < 2 ^ 52 }
    requires card { card < 52 }
    ensures below { IsCard result }
{
    let mut waiting = 0;
    let mut rest = layer;
    while rest != 0 {
        let last = least_card(rest);
        waiting |= rows[last as usize].waiting;
        if waiting >> card & 1 != 0 {
            return Reached::Again(last);
        }
        rest = remove(rest, last);
    }
    Reached::Others(waiting)
}

// The cards of a way to this one through these layers.
fn way(rows: &Rows, layers: &[u64], last: u8) -> u64
    requires last { last < 52 }
{
    let mut way = 1 << last;
    let mut to = last;
    for layer in layers.iter().rev() {
        to = host(rows, *layer & CARDS, to);
        way |= 1 << to;
    }
    way
}

// The least of these cards beneath which a card waits, itself where it waits beneath none.
#[inline]
fn host(rows: &Rows, cards: u64, card: u8) -> u8
    requires cards { cards < 2 ^ 52 }
    requires card { card < 52 }
    ensures below { result < 52 }
{
    let mut rest = cards;
    while rest != 0 {
        let host = least_card(rest);
        if rows[host as usize].waiting >> card & 1 != 0 {
            return host;
        }
        rest = remove(rest, host);
    }
    card
}

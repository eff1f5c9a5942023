//! How many lines of each kind a text has.
use memchr::memchr;
use std::simd::prelude::*;

/// How many lines came that change what is left.
#[derive(Clone, Copy)]
pub struct LineCounts {
    pub asks: u64,
    pub requests: u64,
    pub enters: u64,
    pub leaves: u64,
    pub deliveries: u64,
    pub losses: u64,
    pub repeats: u64,
    pub cancels: u64,
    pub withdrawals: u64,
}

/// How many bytes are looked at together for line feeds.
const BLOCK: usize = 64;

impl LineCounts {
    /// Counts the lines of a trace or of a mark log. The cost is linear in the text.
    pub fn of(text: &[u8]) -> LineCounts {
        let mut counts = LineCounts {
            asks: 0,
            requests: 0,
            enters: 0,
            leaves: 0,
            deliveries: 0,
            losses: 0,
            repeats: 0,
            cancels: 0,
            withdrawals: 0,
        };
        counts.add(text);
        let mut rest = text;
        for _ in 0..text.len() / BLOCK {
            let Some(after) = rest.get(BLOCK..) else {
                break;
            };
            // Which of the first 64 bytes are line feeds, by a bit for each. A line follows each of them.
            let mut feeds = u8x64::from_slice(rest)
                .simd_eq(u8x64::splat(b'\n'))
                .to_bitmask();
            for _ in 0..BLOCK {
                if feeds == 0 {
                    break;
                }
                let place = feeds.trailing_zeros() as usize;
                counts.add(rest.get(place.saturating_add(1)..).unwrap_or(b""));
                feeds &= feeds.wrapping_sub(1);
            }
            rest = after;
        }
        for _ in 0..BLOCK {
            let Some(place) = memchr(b'\n', rest) else {
                break;
            };
            rest = rest.get(place.saturating_add(1)..).unwrap_or(b"");
            counts.add(rest);
        }
        counts
    }

    /// Counts the first line of a text. Its first three letters tell which one it is, and each line has as many.
    fn add(&mut self, text: &[u8]) {
        let [first, second, third, ..] = text else {
            return;
        };
        match (*first, *second, *third) {
            (b'd', _, _) => self.deliveries = self.deliveries.saturating_add(1),
            (b'r', _, b'q') => self.requests = self.requests.saturating_add(1),
            (b'e', _, b't') => self.enters = self.enters.saturating_add(1),
            (b'l', b'e', _) => self.leaves = self.leaves.saturating_add(1),
            (b'a', _, _) => self.asks = self.asks.saturating_add(1),
            (b'l', b'o', _) => self.losses = self.losses.saturating_add(1),
            (b'r', _, b'p') => self.repeats = self.repeats.saturating_add(1),
            (b'c', _, _) => self.cancels = self.cancels.saturating_add(1),
            (b'w', _, _) => self.withdrawals = self.withdrawals.saturating_add(1),
            // A release shows in its mark. A send or a forget leaves nothing to count.
            _ => {}
        }
    }
}

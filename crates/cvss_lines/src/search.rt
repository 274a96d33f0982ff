//! The search for the first byte of some.
ghost use Rattle.std.specs.Prelude.{◌≡◌, ◌≢◌, ℕ, ◌+◌, ◌<◌, ◌≤◌, ◌==◌, if◌then◌else◌, length, slice_index};
ghost use Rattle.std.specs.Int.{trailing_zeros, w64};
ghost use Rattle.cvss_lines.specs.Search.{IsFirstOf};

use std::simd::prelude::*;

/// How many bytes one step of the search compares.
const LANES: usize = 16;

/// The index of the first byte that is one of two, or the length where there is none.
#[inline(always)]
pub fn either_or_len(bytes: &[u8], one: u8, other: u8) -> usize
    ensures { IsFirstOf one other bytes.now result }
{
    let mut at = 0;
    while bytes.len() - at >= LANES {
        let run = run_in_lanes(bytes, at, one).min(run_in_lanes(bytes, at, other));
        if run < LANES {
            return at + run;
        }
        at += LANES;
    }
    at + either_by_one(&bytes[at..], one, other)
}

/// The index of the first byte that is one of two, or the length where there is none, sought byte by
/// byte.
#[inline(always)]
fn either_by_one(bytes: &[u8], one: u8, other: u8) -> usize
    ensures { IsFirstOf one other bytes.now result }
{
    match bytes.iter().position(|byte| *byte == one || *byte == other) {
        Some(index) => index,
        None => bytes.len(),
    }
}

/// How many of the `LANES` bytes from `at` on are before the first of them that is this byte.
#[inline(always)]
fn run_in_lanes(bytes: &[u8], at: usize, byte: u8) -> usize
    requires { at + LANES ≤ length bytes.now }
    ensures within { result ≤ LANES }
    ensures before { (k : ℕ) → at ≤ k → k < at + result → slice_index bytes.now k ≢ byte }
    ensures found { result < LANES → slice_index bytes.now (at + result) ≡ byte }
{
    let same = u8x16::from_slice(&bytes[at..]).simd_eq(u8x16::splat(byte));
    first_set(same.to_bitmask())
}

/// The index of the lowest bit that is set, or `LANES` where none is.
#[inline(always)]
fn first_set(bits: u64) -> usize
    ensures { result ≡ (if bits == 0 then LANES else trailing_zeros w64 bits) }
{
    if bits == 0 {
        LANES
    } else {
        bits.trailing_zeros() as usize
    }
}

//! Whether a text stands in JSON as it is, without escapes.

ghost use Rattle.std.specs.Prelude.{◌≡◌, ◌+◌, ◌≤◌, length};
ghost use Rattle.std.specs.Bool.{OnTrue};
ghost use Rattle.json.specs.Print.{escape};
ghost use Rattle.json.specs.Written.{PlainBetween};

use std::simd::prelude::*;

/// Whether four bytes need no escape.
#[inline(always)]
fn is_plain_4(text: &[u8], at: usize) -> bool
    requires { at + 4 ≤ length text.now }
    ensures { OnTrue result (PlainBetween text.now at (at + 4)) }
{
    let v = u8x4::from_slice(&text[at..]);
    (v.simd_eq(u8x4::splat(b'"'))
        | v.simd_eq(u8x4::splat(b'\\'))
        | v.simd_lt(u8x4::splat(0x20))).to_bitmask()
        == 0
}

/// Whether eight bytes need no escape.
#[inline(always)]
fn is_plain_8(text: &[u8], at: usize) -> bool
    requires { at + 8 ≤ length text.now }
    ensures { OnTrue result (PlainBetween text.now at (at + 8)) }
{
    let v = u8x8::from_slice(&text[at..]);
    (v.simd_eq(u8x8::splat(b'"'))
        | v.simd_eq(u8x8::splat(b'\\'))
        | v.simd_lt(u8x8::splat(0x20))).to_bitmask()
        == 0
}

/// Whether sixteen bytes need no escape.
#[inline(always)]
fn is_plain_16(text: &[u8], at: usize) -> bool
    requires { at + 16 ≤ length text.now }
    ensures { OnTrue result (PlainBetween text.now at (at + 16)) }
{
    let v = u8x16::from_slice(&text[at..]);
    (v.simd_eq(u8x16::splat(b'"'))
        | v.simd_eq(u8x16::splat(b'\\'))
        | v.simd_lt(u8x16::splat(0x20))).to_bitmask()
        == 0
}

#[inline(always)]
fn are_few_plain(text: &[u8]) -> bool
    ensures { OnTrue result (PlainBetween text.now 0 (length text.now)) }
{
    for &byte in text {
        if byte == b'"' || byte == b'\\' || byte < 0x20 {
            return false;
        }
    }
    true
}

#[inline(never)]
fn are_many_plain(text: &[u8]) -> bool
    requires { 16 ≤ length text.now }
    ensures { OnTrue result (PlainBetween text.now 0 (length text.now)) }
{
    let mut at = 0;
    while text.len() - at > 16 {
        if !is_plain_16(text, at) {
            return false;
        }
        at += 16;
    }
    is_plain_16(text, text.len() - 16)
}

/// Whether a text needs no escape. Two looks that overlap cover a short text.
#[inline(always)]
fn is_plain_all(text: &[u8]) -> bool
    ensures { OnTrue result (PlainBetween text.now 0 (length text.now)) }
{
    let len = text.len();
    if len > 32 {
        are_many_plain(text)
    } else if len >= 16 {
        is_plain_16(text, 0) && is_plain_16(text, len - 16)
    } else if len >= 8 {
        is_plain_8(text, 0) && is_plain_8(text, len - 8)
    } else if len >= 4 {
        is_plain_4(text, 0) && is_plain_4(text, len - 4)
    } else {
        are_few_plain(text)
    }
}

/// Whether a text needs no escape. Where one is not known to need none, the answer is no.
#[inline(always)]
pub(crate) fn is_plain(text: &[u8]) -> bool
    ensures { OnTrue result (escape text.now ≡ text.now) }
{
    is_plain_all(text)
}

//! Bytes behind those of a text of JSON that is being written, with the comma before them.

ghost use Rattle.std.specs.Prelude.{◌≡◌, ◌+◌, ◌≤◌, [], ◌∷◌, ◌++◌, OnErr, OnOk, cond, length, vec_len, vec_capacity};

use std::alloc::AllocError;

/// Adds bytes for which there is room.
#[inline(always)]
fn put_slice(out: &mut Vec<u8>, bytes: &[u8])
    requires { vec_len out.old + length bytes.now ≤ vec_capacity out.old }
    ensures items { out.new.items ≡ out.old.items ++ bytes.now }
    ensures len { vec_len out.new ≡ vec_len out.old + length bytes.now }
    ensures capacity { vec_capacity out.old ≤ vec_capacity out.new }
{
    if out.extend_from_slice(bytes).is_err() {
        unreachable!();
    }
}

/// Adds a byte for which there is room.
#[inline(always)]
fn put_byte(out: &mut Vec<u8>, byte: u8)
    requires { vec_len out.old + 1 ≤ vec_capacity out.old }
    ensures items { out.new.items ≡ out.old.items ++ byte ∷ [] }
    ensures len { vec_len out.new ≡ vec_len out.old + 1 }
    ensures capacity { vec_capacity out.old ≤ vec_capacity out.new }
{
    if out.push(byte).is_err() {
        unreachable!();
    }
}

/// Adds a comma where one is wanted; there is room for it.
#[inline(always)]
fn put_comma(out: &mut Vec<u8>, comma: bool)
    requires { vec_len out.old + 1 ≤ vec_capacity out.old }
    ensures items { out.new.items ≡ out.old.items ++ cond comma (44 ∷ []) [] }
    ensures len { vec_len out.new ≤ vec_len out.old + 1 }
    ensures capacity { vec_capacity out.old ≤ vec_capacity out.new }
{
    if comma {
        put_byte(out, b',');
    }
}

/// Adds bytes, with a comma before them where one is wanted; or nothing, for want of memory.
#[inline(always)]
pub(crate) fn put(out: &mut Vec<u8>, comma: bool, bytes: &[u8]) -> Result<(), AllocError>
    ensures ok { OnOk result (out.new.items ≡ out.old.items ++ (cond comma (44 ∷ []) [] ++ bytes.now)) }
    ensures err { OnErr result (out.new.items ≡ out.old.items) }
{
    out.reserve(bytes.len() + 1)?;
    put_comma(out, comma);
    put_slice(out, bytes);
    Ok(())
}

/// Adds bytes in quotes, with a comma before them where one is wanted; or nothing, for want of memory.
#[inline(always)]
pub(crate) fn put_quoted(out: &mut Vec<u8>, comma: bool, bytes: &[u8]) -> Result<(), AllocError>
    ensures ok { OnOk result (out.new.items ≡ out.old.items ++ (cond comma (44 ∷ []) [] ++ 34 ∷ (bytes.now ++ 34 ∷ []))) }
    ensures err { OnErr result (out.new.items ≡ out.old.items) }
{
    out.reserve(bytes.len() + 3)?;
    put_comma(out, comma);
    put_byte(out, b'"');
    put_slice(out, bytes);
    put_byte(out, b'"');
    Ok(())
}

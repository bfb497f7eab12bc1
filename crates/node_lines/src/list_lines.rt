//! Whether a line begins as a JSON array does.

ghost use Rattle.std.specs.Prelude.{◌≡◌, ◌↔◌, IsTrue, take};
ghost use Rattle.json.specs.Word.{is_space};
ghost use Rattle.line_runs.specs.declared.lines.TheConstants.{KEPT_BYTES};
ghost use Rattle.node_lines.specs.ListLines.{BeginsList, IsListLine, IsSpace};

use line_runs::KEPT_BYTES;

/// Whether a byte is JSON space.
pub(crate) fn is_space(byte: u8) -> bool
    ensures test { result ≡ is_space byte }
    ensures space { IsTrue result ↔ IsSpace byte }
{
    byte == b' ' || byte == b'\t' || byte == b'\n' || byte == b'\r'
}

/// Whether the first byte that is no JSON space is `[`.
#[tactic(auto, using(crate::proofs::ListLemmas::so_far, crate::proofs::ListLemmas::one_more, crate::proofs::ListLemmas::found, crate::proofs::ListLemmas::not_found))]
fn begins_list(text: &[u8]) -> bool
    ensures { IsTrue result ↔ BeginsList text.now }
{
    for byte in text {
        if !is_space(*byte) {
            return *byte == b'[';
        }
    }
    false
}

/// Whether the first byte of a line that is no JSON space is `[`, among its first
/// [`KEPT_BYTES`](line_runs::KEPT_BYTES) bytes. Each line that is read as several events begins so.
pub fn is_list_line(line: &[u8]) -> bool
    ensures { IsTrue result ↔ IsListLine line.now }
{
    if line.len() > KEPT_BYTES {
        begins_list(&line[..KEPT_BYTES])
    } else {
        begins_list(line)
    }
}

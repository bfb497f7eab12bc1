//! Packets to lines, and rows to stored texts.

ghost use Rattle.std.specs.Prelude.{◌≡◌, ◌≤◌, length, IfOk, Ok, OnOk, string_bytes};
ghost use Rattle.json_text.specs.Line.{max_line};
ghost use Rattle.ocpi_types.specs.Rows.{key_of};
ghost use Rattle.ocpi_json.specs.Packets.{PacketFits, packet_in, packet_text};
ghost use Rattle.ocpi_json.specs.RowForms.{row_in, row_text};
ghost use Rattle.ocpi_json.specs.RowKeys.{KeyFits, key_text, kind_of_key, row_kind_word};

use crate::packets::write_members;
use crate::row_keys::kept_key;
use crate::rows::write_text;
use json_text::RecordWriter;
use ocpi_types::{Packet, Row};
use std::alloc::{AllocError, Global};

/// The line that spells a packet, without its line feed: no spaces, and the members of each object in the byte
/// order of their names. Where it is no longer than a line may be, it is read as that very packet. It fails for
/// want of memory alone.
#[tactic(auto, using(crate::proofs::WrittenPackets::packet_text_is, crate::proofs::WrittenPackets::packet_line_again))]
pub fn write_packet(alloc: Global, packet: &Packet) -> Result<String, AllocError>
    ensures text { IfOk result (λ s. string_bytes s ≡ packet_text packet.now) }
    ensures again { IfOk result (λ s. length (string_bytes s) ≤ max_line → packet_in (string_bytes s) ≡ Ok packet.now) }
    // What its types keep: of how long a line may be, `packet_lengths` says more.
    ensures fits { OnOk result (PacketFits packet.now) }
{
    let mut out = RecordWriter::new(alloc)?;
    write_members(packet, &mut out)?;
    Ok(out.into_text())
}

/// What the types of a row's key keep.
fn kept_row(row: &Row)
    ensures { KeyFits (key_of row.now) }
{
    kept_key(&row.key());
}

/// The text of a row in layout 2, which is stored under its kind and its key: no spaces, and the members of each object
/// in the byte order of their names. Beside that kind and that key it is read as that very row, whatever the row is. It
/// fails for want of memory alone.
#[tactic(auto, using(crate::proofs::WrittenRows::row_text_is, crate::proofs::WrittenRows::row_text_again))]
pub fn write_row(alloc: Global, row: &Row) -> Result<String, AllocError>
    ensures text { IfOk result (λ s. string_bytes s ≡ row_text row.now) }
    ensures again { IfOk result (λ s. row_in (row_kind_word (kind_of_key (key_of row.now))) (key_text (key_of row.now)) (string_bytes s) ≡ Ok row.now) }
{
    kept_row(row);
    let mut out = RecordWriter::new(alloc)?;
    write_text(row, &mut out)?;
    Ok(out.into_text())
}

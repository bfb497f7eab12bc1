//! Lines to packets, site lines, setups and events, and stored texts to rows.

ghost use Rattle.std.specs.Prelude.{◌≡◌, List, Ok, Err, IfOk};
ghost use Rattle.json_text.specs.declared.fault.JsonFault.TheVariants.{Syntax};
ghost use Rattle.json_text.specs.Line.{IsNoText};
ghost use Rattle.ocpi_json.specs.EventForms.{SpellsEvent, event_in};
ghost use Rattle.json_text.specs.Fault.{Gives};
ghost use Rattle.ocpi_json.specs.NodeEventForms.{SpellsNodeEvent, node_event_in};
ghost use Rattle.ocpi_json.specs.Packets.{SpellsPacket, packet_in};
ghost use Rattle.ocpi_json.specs.RowForms.{
  OthersAreAlike,
  RowTextsOf1AreRead,
  SpellsRow,
  row_in,
  row_in_1,
  row_laid_out,
};
ghost use Rattle.ocpi_json.specs.SetupForms.{SpellsSetup, setup_in};
ghost use Rattle.ocpi_json.specs.SiteLines.{SpellsSiteLine, site_in};
ghost use Rattle.ocpi_json.specs.declared.rows.RowLayout.TheVariants as layout;
ghost use Rattle.ocpi_types.specs.declared.events.Event.{Event};
ghost use Rattle.ocpi_types.specs.declared.node_events.NodeEvent.{NodeEvent};
ghost use Rattle.ocpi_types.specs.declared.packet.Packet.{Packet};
ghost use Rattle.ocpi_types.specs.declared.rows.Row.{Row};
ghost use Rattle.ocpi_types.specs.declared.setup.Node.{Node};
ghost use Rattle.ocpi_types.specs.declared.site.SiteLine.{SiteLine};

use crate::events::event_of_line;
use crate::node_events::node_event_of_line;
use crate::packets::packet_of_line;
use crate::row_kinds::RowKind;
use crate::rows::{RowLayout, row_of_text};
use crate::setups::setup_of_line;
use json_text::{JsonFault, Scratch, line_tree, text_tree};
use ocpi_forms::site_of_line;
use ocpi_types::{Event, NodeEvent, Packet, Row, Setup, SiteLine, Word};
use std::alloc::Global;

#[tactic(auto, unfolding(crate::specs::Packets::packet_in))]
fn packet_in(alloc: Global, scratch: &mut Scratch, line: &[u8]) -> Result<Packet, JsonFault>
    ensures exact { Gives result (packet_in line.now) }
    ensures unread { IsNoText line.now → result ≡ Err Syntax }
{
    let tree = line_tree(alloc, scratch, line)?;
    packet_of_line(alloc, &tree)
}

/// The packet that a line spells, without its line feed. `scratch` is memory for reading, whatever it holds: one is
/// kept and lent to each line.
///
/// Refused, in this order: a line of more than 1,048,576 bytes or that is no UTF-8 (`Syntax`); from left to right a
/// token that is no number of JSON (`BadNumberToken`) or a text that begins with `\u0001` (`TaggedText`); what is no
/// JSON, nests deeper than 127 or has a number as a name (`Syntax`); then the members in the order `from`, `to`,
/// `serial`, `request`, `kind`, `body` and its own: one that is absent or null (`Missing`), of another kind, length or
/// range (`WrongForm`), or no word of its list (`UnknownWord`); a kind that is not known (`UnknownKind`).
pub fn read_packet(alloc: Global, scratch: &mut Scratch, line: &[u8]) -> Result<Packet, JsonFault>
    // What is read is spelled so.
    ensures found { IfOk result (SpellsPacket line.now) }
    // What is spelled so is read, unless memory runs out.
    ensures only { (p : Packet) → SpellsPacket line.now p → Gives result (Ok p) }
    // Which packet, or which refusal, it is.
    ensures exact { Gives result (packet_in line.now) }
    // No memory is taken to refuse a line that is too long or no UTF-8.
    ensures unread { IsNoText line.now → result ≡ Err Syntax }
{
    packet_in(alloc, scratch, line)
}

#[tactic(auto, unfolding(crate::specs::SiteLines::site_in))]
fn site_in(alloc: Global, scratch: &mut Scratch, line: &[u8]) -> Result<SiteLine, JsonFault>
    ensures exact { Gives result (site_in line.now) }
    ensures unread { IsNoText line.now → result ≡ Err Syntax }
{
    let tree = line_tree(alloc, scratch, line)?;
    site_of_line(alloc, &tree)
}

/// The site line that a line spells, without its line feed. `scratch` as for [`read_packet`].
///
/// Refused as [`read_packet`] refuses, with the members `at`, `party`, `providers` and `site`, and those of the site's
/// records. The number of a list's elements is tried before them (`WrongForm` of the list's name), and a text that is
/// equal but for case to an earlier one from which it must differ is refused where it is read (`WrongForm`).
pub fn read_site(alloc: Global, scratch: &mut Scratch, line: &[u8]) -> Result<SiteLine, JsonFault>
    // What is read is spelled so.
    ensures found { IfOk result (SpellsSiteLine line.now) }
    // What is spelled so is read, unless memory runs out.
    ensures only { (l : SiteLine) → SpellsSiteLine line.now l → Gives result (Ok l) }
    // Which site line, or which refusal, it is.
    ensures exact { Gives result (site_in line.now) }
    // No memory is taken to refuse a line that is too long or no UTF-8.
    ensures unread { IsNoText line.now → result ≡ Err Syntax }
{
    site_in(alloc, scratch, line)
}

#[tactic(auto, unfolding(crate::specs::SetupForms::setup_in))]
fn setup_in(alloc: Global, scratch: &mut Scratch, line: &[u8]) -> Result<Setup, JsonFault>
    ensures exact { Gives result (setup_in line.now) }
    ensures unread { IsNoText line.now → result ≡ Err Syntax }
{
    let tree = line_tree(alloc, scratch, line)?;
    setup_of_line(alloc, &tree)
}

/// The setup that a line spells, without its line feed: the nodes of a run, one to 64, no two of one party. A node with
/// a site, which is neither absent nor null, is an operator, and one without is a provider. `scratch` as for
/// [`read_packet`].
///
/// Refused as [`read_site`] refuses, with the member `nodes` and, of each node in turn, `party`, `site` and the site's
/// own. Another number of nodes than these is `WrongForm` of `nodes`, told before any of them is looked at, and so is
/// an element that is no object. A party that is equal but for case to an earlier node's is `WrongForm` of `party`.
pub fn read_setup(alloc: Global, scratch: &mut Scratch, line: &[u8]) -> Result<Setup, JsonFault>
    // What is read is spelled so.
    ensures found { IfOk result (SpellsSetup line.now) }
    // What is spelled so is read, unless memory runs out.
    ensures only { (s : List Node) → SpellsSetup line.now s → Gives result (Ok s) }
    // Which setup, or which refusal, it is.
    ensures exact { Gives result (setup_in line.now) }
    // No memory is taken to refuse a line that is too long or no UTF-8.
    ensures unread { IsNoText line.now → result ≡ Err Syntax }
{
    setup_in(alloc, scratch, line)
}

#[tactic(auto, unfolding(crate::specs::EventForms::event_in))]
fn event_in(alloc: Global, scratch: &mut Scratch, line: &[u8]) -> Result<Event, JsonFault>
    ensures exact { Gives result (event_in line.now) }
    ensures unread { IsNoText line.now → result ≡ Err Syntax }
{
    let tree = line_tree(alloc, scratch, line)?;
    event_of_line(&tree)
}

/// The event that a line spells, without its line feed. `scratch` as for [`read_packet`].
///
/// Refused as [`read_packet`] refuses, with the members `event`, `node`, `at` and those of the event, in the order in
/// which its type names them; `at` is read past where the type has none. An event that is not known is `UnknownKind`,
/// told before `node` is looked at, and so is an order that is not known, told before its members are.
pub fn read_event(alloc: Global, scratch: &mut Scratch, line: &[u8]) -> Result<Event, JsonFault>
    // What is read is spelled so.
    ensures found { IfOk result (SpellsEvent line.now) }
    // What is spelled so is read, unless memory runs out.
    ensures only { (e : Event) → SpellsEvent line.now e → Gives result (Ok e) }
    // Which event, or which refusal, it is.
    ensures exact { Gives result (event_in line.now) }
    // No memory is taken to refuse a line that is too long or no UTF-8.
    ensures unread { IsNoText line.now → result ≡ Err Syntax }
{
    event_in(alloc, scratch, line)
}

#[tactic(auto, unfolding(crate::specs::NodeEventForms::node_event_in))]
fn node_event_in(alloc: Global, scratch: &mut Scratch, line: &[u8]) -> Result<NodeEvent, JsonFault>
    ensures exact { Gives result (node_event_in line.now) }
    ensures unread { IsNoText line.now → result ≡ Err Syntax }
{
    let tree = line_tree(alloc, scratch, line)?;
    node_event_of_line(alloc, &tree)
}

/// The event of one node that a line spells, without its line feed. `scratch` as for [`read_packet`].
///
/// Refused as [`read_event`] refuses, but a delivery has behind `at` the member `packet`: an object with the members of
/// a packet's line, whose faults are told as [`read_packet`] tells them. Beside it no `from` or `serial` is looked at.
pub fn read_node_event(
    alloc: Global,
    scratch: &mut Scratch,
    line: &[u8],
) -> Result<NodeEvent, JsonFault>
    // What is read is spelled so.
    ensures found { IfOk result (SpellsNodeEvent line.now) }
    // What is spelled so is read, unless memory runs out.
    ensures only { (e : NodeEvent) → SpellsNodeEvent line.now e → Gives result (Ok e) }
    // Which event, or which refusal, it is.
    ensures exact { Gives result (node_event_in line.now) }
    // No memory is taken to refuse a line that is too long or no UTF-8.
    ensures unread { IsNoText line.now → result ≡ Err Syntax }
{
    node_event_in(alloc, scratch, line)
}

#[tactic(auto, unfolding(crate::specs::RowForms::row_laid_out))]
fn row_laid_out(
    alloc: Global,
    scratch: &mut Scratch,
    layout: RowLayout,
    kind: &str,
    key: &str,
    text: &[u8],
) -> Result<Row, JsonFault>
    ensures { Gives result (row_laid_out layout kind.now key.now text.now) }
{
    let Some(kind) = RowKind::of_word(kind) else {
        return Err(JsonFault::UnknownKind);
    };
    let tree = text_tree(alloc, scratch, text)?;
    row_of_text(alloc, layout, kind, key, &tree)
}

#[tactic(auto, unfolding(crate::specs::RowForms::row_in))]
fn row_in(
    alloc: Global,
    scratch: &mut Scratch,
    kind: &str,
    key: &str,
    text: &[u8],
) -> Result<Row, JsonFault>
    ensures { Gives result (row_in kind.now key.now text.now) }
{
    row_laid_out(alloc, scratch, RowLayout::Two, kind, key, text)
}

/// The row that is stored in layout 2 under that kind and key with that text, of any length. `scratch` as for
/// [`read_packet`].
///
/// Refused, in this order: a kind of row that is not known (`UnknownKind`); the text as [`read_packet`] refuses, but
/// for its length, with the members of its kind in the order in which they are listed here; a key that is not of its
/// kind's form or not the row's own (`WrongForm` of `key`).
///
/// | kind | key | members of the text |
/// |---|---|---|
/// | `count` | `serial`, `request`, `session`, `cdr` or `reference` | `last` |
/// | `reply` | `PARTY/NUMBER` | `kind`, `body` |
/// | `token` | `PARTY/TYPE/UID` | the token's |
/// | `push` | `NUMBER` | `kind`, `body`, `to` |
/// | `service` | the EVSE's uid | none |
/// | `spent` | `PARTY/REFERENCE` | none |
/// | `mark` | `PARTY/RESERVATION` | `number` |
/// | `reservation` | `PARTY/RESERVATION` | `evse_uid`, `expiry_date`, `location_id`, `token` |
/// | `pending` | `PARTY/NUMBER` | `kind`, `body`, `connector_id`, `deadline`, `evse_uid` |
/// | `result` | `PARTY/NUMBER` | `result` |
/// | `session` | `PARTY/ID` | the session's |
/// | `cdr` | `PARTY/ID` | the charge detail record's, with `credit` always |
/// | `command` | `NUMBER` | `answer`, `kind`, `body`, `result`, `to` |
///
/// A `cdr` row without `credit` is `Missing` of `credit`; where that is true, `credit_reference_id` is required.
/// A `kind` in a text that is none of those that such a row carries is `UnknownKind`, told before `body` is looked at.
/// In a key numbers are in decimal digits without leading zeros, and texts have no letters `a` to `z`.
pub fn read_row(
    alloc: Global,
    scratch: &mut Scratch,
    kind: &str,
    key: &str,
    text: &[u8],
) -> Result<Row, JsonFault>
    // What is read is spelled so.
    ensures found { IfOk result (SpellsRow layout.Two kind.now key.now text.now) }
    // What is spelled so is read, unless memory runs out.
    ensures only { (r : Row) → SpellsRow layout.Two kind.now key.now text.now r → Gives result (Ok r) }
    // Which row, or which refusal, it is.
    ensures exact { Gives result (row_in kind.now key.now text.now) }
{
    row_in(alloc, scratch, kind, key, text)
}

#[tactic(auto, unfolding(crate::specs::RowForms::row_in_1))]
fn row_in_1(
    alloc: Global,
    scratch: &mut Scratch,
    kind: &str,
    key: &str,
    text: &[u8],
) -> Result<Row, JsonFault>
    ensures { Gives result (row_in_1 kind.now key.now text.now) }
{
    row_laid_out(alloc, scratch, RowLayout::One, kind, key, text)
}

/// As [`read_row`], of layout 1, which is read only to move an old store to layout 2. There the text of a `cdr` row is
/// as in a packet: `credit` may be absent, and stands with `credit_reference_id` in a credit. All else is as in layout
/// 2, and no row is written in layout 1.
pub fn read_row_1(
    alloc: Global,
    scratch: &mut Scratch,
    kind: &str,
    key: &str,
    text: &[u8],
) -> Result<Row, JsonFault>
    // What is read is spelled so.
    ensures found { IfOk result (SpellsRow layout.One kind.now key.now text.now) }
    // What is spelled so is read, unless memory runs out.
    ensures only { (r : Row) → SpellsRow layout.One kind.now key.now text.now r → Gives result (Ok r) }
    // Which row, or which refusal, it is.
    ensures exact { Gives result (row_in_1 kind.now key.now text.now) }
{
    row_in_1(alloc, scratch, kind, key, text)
}

/// A row of another kind than `cdr` is read alike by [`read_row_1`] and [`read_row`], so that its text is the same in
/// both layouts.
pub fn other_rows_are_alike()
    ensures { OthersAreAlike }
{}

/// The text of a row in layout 1 is read by [`read_row_1`] as that row, beside the row's kind and key, for each row
/// that its types can hold. So what an old store has of a row is read as the row that was put there.
pub fn row_texts_of_1_are_read()
    ensures { RowTextsOf1AreRead }
{}

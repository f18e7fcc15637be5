//! What is sent of a packet at a port.
//!
//! Layer: rows and packets; private. Called by `ordered` and `walking`.
ghost use Rattle.std.specs.Prelude.{◌≡◌, false, IfOk, option_map};
ghost use Rattle.nk_values.specs.Patterns.{Incoming, hits};
ghost use Rattle.nk_values.specs.Tables.{first};
ghost use Rattle.packet_tracer.specs.Orders.{IsStart};
ghost use Rattle.packet_tracer.specs.Advances.{sent_by};

use flow_index::{act, hits};
use nk_values::{Header, Pattern, Row, SentPacket, Tag};
use std::alloc::{AllocError, Global};

// What a row sends of a packet that came in by a port, if there is one.
pub(crate) fn sent_by(
    alloc: Global,
    row: Option<&Row>,
    port: u16,
    header: &Header,
    tag: Tag,
) -> Result<Vec<SentPacket>, AllocError>
    ensures { IfOk result (λ v. v.items ≡ sent_by (option_map (λ r. r.now) row.entry)
        (record { port = port; header = header.now; tag = tag })) }
{
    match row {
        None => Ok(Vec::new(alloc)),
        Some(row) => act(alloc, row.actions.as_slice(), port, header, tag),
    }
}

// The first row that hits, looked for from a place on before which none hits.
pub(crate) fn first_from<'a>(
    rows: &'a [Row],
    start: usize,
    port: u16,
    header: &Header,
    tag: Tag,
) -> Option<&'a Row>
    requires { IsStart rows.now header.now start }
    ensures { option_map (λ r. r.now) result ≡ first (record { port = port; header = header.now; tag = tag }) rows.now }
{
    first_hit(&rows[start..], port, header, tag)
}

// The first row that hits.
fn first_hit<'a>(rows: &'a [Row], port: u16, header: &Header, tag: Tag) -> Option<&'a Row>
    ensures { option_map (λ r. r.now) result ≡ first (record { port = port; header = header.now; tag = tag }) rows.now }
{
    for row in rows {
        if is_hit(&row.pattern, port, header, tag) {
            return Some(row);
        }
    }
    None
}

// Whether a packet hits a pattern. The destinations are compared first, since the rows of a port differ most in them.
fn is_hit(pattern: &Pattern, port: u16, header: &Header, tag: Tag) -> bool
    ensures { result ≡ hits pattern.now (record { port = port; header = header.now; tag = tag }) }
{
    may_hit(pattern, header) && hits(pattern, port, header, tag)
}

// Whether no destination is fixed to another one than the header's.
fn may_hit(pattern: &Pattern, header: &Header) -> bool
    ensures { (i : Incoming) → i.header ≡ header.now → result ≡ false → hits pattern.now i ≡ false }
{
    let frame = match pattern.dl_dst.get() {
        None => true,
        Some(number) => number == header.eth_dst,
    };
    frame
        && match pattern.nw_dst.get() {
            None => true,
            Some(prefix) => prefix.length != 32 || u64::from(prefix.address) == header.ip4_dst,
        }
}

//! Rows of lookups over a table of IPv4 addresses.

ghost use Rattle.std.specs.Prelude.{◌≡◌, length};
ghost use Rattle.forward.specs.Rows.{row_answer, Written, Right};

use address::Ipv4;
use rules::{RangeStore, Refusal};
use table::Table;

/// Looks the destinations up in turn and writes their hops, up to the first whose lookup refuses.
/// Answers that one's place, or the length of the destination row if there is none; hops at and behind it keep what they held.
/// Refuses `ShortBuffer` if the hop row is shorter than the destination row, and then writes nothing.
// Two rows of the caller's: one to read, one to write.
pub fn lookup_row<S: RangeStore<Kind = Ipv4>>(
    table: &S,
    destinations: &[u32],
    hops: &mut [u16],
) -> Result<usize, Refusal>
    ensures answer { result ≡ row_answer (S.RangeStore.rules table.now) destinations.now (length hops.old) }
    ensures written { Written (S.RangeStore.rules table.now) destinations.now hops.old hops.new result }
    ensures right { Right (S.RangeStore.rules table.now) destinations.now hops.old hops.new result }
{
    if hops.len() < destinations.len() {
        return Err(Refusal::ShortBuffer);
    }
    // The place is the answer, so a zip with the hops would have to be enumerated too.
    for (i, d) in destinations.iter().enumerate() {
        let Ok((_, _, hop)) = table.lookup(Ipv4::new(*d)) else {
            return Ok(i);
        };
        hops[i] = hop;
    }
    Ok(destinations.len())
}

//! Writes the bodies of the chunks that an operation on two sets gives, and remembers what their directory has.

ghost use Rattle.std.specs.Prelude.{◌≡◌, ◌+◌, ◌*◌, ◌^◌, ◌<◌, ◌≤◌, [], IfSome, length};
ghost use Rattle.bitpack_slices.specs.Follows.{Follow};
ghost use Rattle.bitpack_slices.specs.Operations.{those};
ghost use Rattle.bitpack_sets.specs.Sets.{body};
ghost use Rattle.bitpack_queries.specs.Gathered.{IsGathered};
ghost use Rattle.bitpack_queries.specs.Pairs.{IsMeeting, left, meets, positions_left};

use crate::gathered::{Gathered, put_body};
use crate::pairing::{Meeting, Pair};
use bitpack_sets::encoding::combining::{MOST_LISTED, write_combined};
use bitpack_slices::bitmap::writing::LONGEST_BLOCKS;
use bitpack_slices::combined::{retains_left, retains_right};

/// Writes the bodies of the set that a pair gives, if there is room for all. Of each chunk it writes the key, how many ids it has, and how many
/// bytes its body.
pub(crate) fn gather(
    mut pair: Pair,
    keys: &mut [u32],
    counts: &mut [u32],
    sizes: &mut [u32],
    out: &mut [u8],
) -> Gathered
    requires keys { positions_left pair ≤ length keys.old }
    requires counts { positions_left pair ≤ length counts.old }
    requires sizes { positions_left pair ≤ length sizes.old }
    ensures most { result.chunks ≤ positions_left pair.entry }
    ensures gathered { IsGathered (those (2 ^ 32) (left pair.entry)) keys.new counts.new sizes.new out.new result.count result.chunks result.size }
{
    let mut ids = [0; MOST_LISTED];
    let mut body = [0; LONGEST_BLOCKS];
    let mut gathered = Gathered::new();
    while let Some(meeting) = pair.next() {
        let (own, len) = put_meeting(&pair, meeting, &mut ids, &mut body, out, gathered.size);
        gathered.add(meeting.key, own, len, keys, counts, sizes);
    }
    gathered
}

/// Writes the body of the ids of a key that are in the answer, if there is room. Returns how many these are, and how many bytes the body has.
/// `ids` and `room` are work space.
fn put_meeting(
    pair: &Pair,
    meeting: Meeting,
    ids: &mut [u32; MOST_LISTED],
    room: &mut [u8; LONGEST_BLOCKS],
    out: &mut [u8],
    at: usize,
) -> (usize, usize)
    requires meeting { IsMeeting pair.now meeting }
    requires start { at ≤ 2 ^ 33 }
    ensures count { result.0 ≡ length (those 65536 (meets pair.now meeting)) }
    ensures few { result.1 ≤ 2 * result.0 }
    ensures body { 0 < result.0 → Follow (body (those 65536 (meets pair.now meeting))) out.old out.new at (at + result.1) }
    ensures none { result.0 ≡ 0 → Follow [] out.old out.new at at }
{
    if let Some((count, body)) = copied(pair, meeting) {
        put_body(body, out, at);
        return (count, body.len());
    }
    let a = pair.a.body(meeting.key, meeting.a.0, meeting.a.1);
    let b = pair.b.body(meeting.key, meeting.b.0, meeting.b.1);
    let (count, size) = write_combined(pair.operation, meeting.key, a, b, ids, room);
    put_body(&room[..size], out, at);
    (count, size)
}

/// How many ids a chunk has that is the answer's chunk too, and its body: only one set has ids of the key.
#[inline(always)]
fn copied<'b>(pair: &'b Pair, meeting: Meeting) -> Option<(usize, &'b [u8])>
    requires meeting { IsMeeting pair.now meeting }
    ensures some { IfSome result (λ coded. 0 < coded.0) }
    ensures small { IfSome result (λ coded. length coded.1.now ≤ 2 * coded.0) }
    ensures count { IfSome result (λ coded. coded.0 ≡ length (those 65536 (meets pair.now meeting))) }
    ensures body { IfSome result (λ coded. coded.1.now ≡ body (those 65536 (meets pair.now meeting))) }
{
    let (a, b) = (meeting.a, meeting.b);
    if b.0 == b.1 && a.0 < a.1 && retains_left(pair.operation) {
        return pair.a.coded(a.0);
    }
    if a.0 == a.1 && b.0 < b.1 && retains_right(pair.operation) {
        return pair.b.coded(b.0);
    }
    None
}

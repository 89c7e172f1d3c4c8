//! What is known of a set in chunks before its directory is written: the bodies of its chunks are at the start of the bytes.
//! FORMAT.md, "Chunks".

ghost use Rattle.std.specs.Prelude.{◌≡◌, ℕ, ◌⊎◌, ◌+◌, ◌*◌, ◌^◌, ◌<◌, ◌≤◌, List, None, [], IfSome, length, set, take};
ghost use Rattle.bitpack_slices.specs.Bitmaps.{has_bit};
ghost use Rattle.bitpack_slices.specs.Bodies.{IsRising};
ghost use Rattle.bitpack_slices.specs.Follows.{Follow};
ghost use Rattle.bitpack_slices.specs.Operations.{those};
ghost use Rattle.bitpack_sets.specs.Sets.{IsSet, body};
ghost use Rattle.bitpack_queries.specs.Folds.{has_number};
ghost use Rattle.bitpack_queries.specs.Gathered.{Fills, IsCounted, IsGathered};

use crate::folding::clear_highs;
use bitpack_sets::encoding::chunks::chunks_len;
use bitpack_sets::encoding::combining::{MOST_LISTED, write_listed};
use bitpack_sets::encoding::gathered::write_gathered;
use bitpack_sets::encoding::order::LONGEST_SET;
use bitpack_sets::few::MOST_FEW;
use bitpack_sets::{encode_to, encoded_len};
use bitpack_slices::bitmap::bodies::write_body;
use bitpack_slices::bitmap::unpacking::{count_bitmap, unpack_bitmap, unpack_bits};
use bitpack_slices::bitmap::writing::LONGEST_BLOCKS;
use bitpack_slices::combined::combined_words;
use bitpack_slices::{Operation, SetError};

/// How many ids and chunks a set has so far, and how many bytes their bodies.
#[derive(Clone, Copy)]
pub struct Gathered {
    pub count: usize,
    pub chunks: usize,
    pub size: usize,
}

impl Gathered {
    /// Before the first chunk.
    pub fn new() -> Gathered
        ensures { (result.count ≡ 0) × ((result.chunks ≡ 0) × (result.size ≡ 0)) }
    {
        Gathered {
            count: 0,
            chunks: 0,
            size: 0,
        }
    }

    /// Adds a chunk of `count` ids with a body of `size` bytes. A chunk without ids is none.
    pub fn add(
        &mut self,
        key: u32,
        count: usize,
        size: usize,
        keys: &mut [u32],
        counts: &mut [u32],
        sizes: &mut [u32],
    )
        requires few { count ≤ 65536 }
        requires small { size ≤ 2 * count }
        requires counted { self.old.count + count ≤ 2 ^ 32 }
        requires written { self.old.size ≤ 2 * self.old.count }
        requires room { 0 < count → (self.old.chunks < length keys.old) × ((self.old.chunks < length counts.old) × (self.old.chunks < length sizes.old)) }
        ensures count { self.new.count ≡ self.old.count + count }
        ensures size { self.new.size ≡ self.old.size + size }
        ensures none { count ≡ 0 → (self.new.chunks ≡ self.old.chunks) × ((keys.new ≡ keys.old) × ((counts.new ≡ counts.old) × (sizes.new ≡ sizes.old))) }
        ensures chunks { 0 < count → self.new.chunks ≡ self.old.chunks + 1 }
        ensures keys { 0 < count → keys.new ≡ set keys.old self.old.chunks key }
        ensures counts { 0 < count → counts.new ≡ set counts.old self.old.chunks count }
        ensures sizes { 0 < count → sizes.new ≡ set sizes.old self.old.chunks size }
    {
        if count > 0 {
            keys[self.chunks] = key;
            counts[self.chunks] = count as u32;
            sizes[self.chunks] = size as u32;
            self.chunks += 1;
            self.count += count;
            self.size += size;
        }
    }

    /// Writes the directory before the bodies, if the set is one in chunks and there is room for it. Returns its length in bytes, or `TooLong`, or
    /// `None` if its ids are so few, or so far apart, that it is no set in chunks.
    pub fn write(
        self,
        keys: &[u32],
        counts: &[u32],
        sizes: &[u32],
        out: &mut [u8],
    ) -> Option<Result<usize, SetError>>
        requires counted { IsCounted keys.now counts.now sizes.now self.count self.chunks self.size }
        ensures written { (ids : List ℕ) → IsRising 0 (2 ^ 32) ids → IsGathered ids keys.now counts.now sizes.now out.old self.count self.chunks self.size
            → IfSome result (λ written. Fills ids written out.old out.new) }
        ensures none { result ≡ None → (self.count ≤ 127) ⊎ (self.count < 4 * self.chunks) }
    {
        let (count, chunks) = (self.count, self.chunks);
        if count > LONGEST_SET {
            return Some(Err(SetError::TooLong(count)));
        }
        if count <= MOST_FEW || count < 4 * chunks {
            return None;
        }
        let len = chunks_len(count, chunks, self.size);
        if len <= out.len() {
            let (keys, counts, sizes) = (&keys[..chunks], &counts[..chunks], &sizes[..chunks]);
            write_gathered(count, self.size, keys, counts, sizes, &mut out[..len]);
        }
        Some(Ok(len))
    }
}

/// Writes the body of the numbers of a key after the bodies before it, if there is room. Their high bytes and bits are given; bits of other high
/// bytes are cleared. Returns how many numbers there are, and how many bytes the body has. `ids` and `room` are work space.
pub(crate) fn put_key(
    highs: &[u64; 4],
    words: &mut [u64; 1024],
    ids: &mut [u32; MOST_LISTED],
    room: &mut [u8; LONGEST_BLOCKS],
    out: &mut [u8],
    at: usize,
) -> (usize, usize)
    requires start { at ≤ 2 ^ 33 }
    ensures count { result.0 ≡ length (those 65536 (has_number highs.now words.old)) }
    ensures few { result.1 ≤ 2 * result.0 }
    ensures body { 0 < result.0 → Follow (body (those 65536 (has_number highs.now words.old))) out.old out.new at (at + result.1) }
    ensures none { result.0 ≡ 0 → Follow [] out.old out.new at at }
{
    let mut list = [0; 256];
    let many = unpack_bits(highs, 0, &mut list, 0);
    let count = count_bitmap(&list[..many], words);
    let size = if count <= MOST_LISTED {
        unpack_bitmap(&list[..many], words, 0, ids, 0);
        write_listed(&ids[..count], room)
    } else {
        clear_others(highs, words);
        write_body(words, count, room)
    };
    put_body(&room[..size], out, at);
    (count, size)
}

/// Clears the bits of all high bytes but these.
fn clear_others(highs: &[u64; 4], words: &mut [u64; 1024])
    ensures { (x : ℕ) → x < 65536 → has_bit words.new x ≡ has_number highs.now words.old x }
{
    let mut others = [0; 256];
    let mut room = [0; 1024];
    let rest = combined_words(Operation::AndNot, [u64::MAX; 4], *highs);
    let count = unpack_bits(&rest, 0, &mut others, 0);
    clear_highs(&others[..count], words, &mut room);
}

/// Writes a body, if there is room.
#[inline(always)]
pub fn put_body(body: &[u8], out: &mut [u8], at: usize)
    requires start { at ≤ 2 ^ 33 }
    ensures { Follow body.now out.old out.new at (at + length body.now) }
{
    let end = at + body.len();
    if end <= out.len() {
        out[at..end].copy_from_slice(body);
    }
}

/// Writes the encoding of ids, if there is room for it. Returns its length in bytes.
pub fn write_ids(ids: &[u32], out: &mut [u8]) -> Result<usize, SetError>
    requires set { IsSet ids.now }
    ensures { Fills ids.now result out.old out.new }
{
    let len = encoded_len(ids).unwrap();
    if len <= out.len() {
        encode_to(ids, out).unwrap();
    }
    Ok(len)
}

//! Writes a set whose first chunks are copied from another set.
//! FORMAT.md, "Chunks".

ghost use Rattle.std.specs.Prelude.{◌≡◌, ◌^◌, ◌≤◌};

use crate::directory::{Directory, begin_at, bodies_start, count_before, end_at, sum_at};
use crate::encoding::chunks::{head_len, write_entries, write_head};
use crate::encoding::measuring::{count_chunks, measure_bodies};
use crate::form::Form;
use crate::id_set::IdSet;
use bitpack_groups::{byte_count, write_at};

/// The chunks of a set in chunks that are copied if ids follow: all but the last.
#[derive(Clone, Copy)]
pub struct Front<'a> {
    pub(crate) directory: Directory<'a>,
}

impl<'a> Front<'a> {
    ghost use Rattle.std.specs.Prelude.{◌+◌, ◌-◌, ◌*◌, ◌<◌, ◌++◌, length};
    ghost use Rattle.std.specs.List.{concat};
    ghost use Rattle.bitpack_sets.specs.Fronts.{IsNext, front_ids};
    ghost use Rattle.bitpack_slices.specs.Bodies.{parts};
    ghost use Rattle.bitpack_sets.specs.Sets.{IsSet};
    ghost use Rattle.bitpack_sets.specs.Varints as varints;
    ghost use Rattle.bitpack_sets.specs.Sets.{in_chunks};
    ghost use Rattle.bitpack_sets.specs.Written.{bodies, directory, ends_encoding, keys_encoding, sums_encoding};

    /// How many chunks are copied.
    fn count(&self) -> usize
        ensures count { result ≡ length (parts 65536 (front_ids self.now)) }
        ensures chunks { result ≡ self.now.directory.chunks - 1 }
    {
        self.directory.chunks - 1
    }

    /// How many ids the copied chunks have.
    pub(crate) fn len(&self) -> usize
        ensures len { result ≡ length (front_ids self.now) }
        ensures few { result ≤ 2 ^ 28 }
    {
        count_before(
            self.directory.chunks,
            self.directory.rest,
            self.directory.chunks - 1,
        ) as usize
    }

    /// How many bytes the bodies of the copied chunks have.
    fn size(&self) -> usize
        ensures size { result ≡ length (concat (bodies (front_ids self.now))) }
        ensures few { result ≤ 2 ^ 29 }
    {
        begin_at(
            self.directory.chunks,
            self.directory.rest,
            self.directory.chunks - 1,
        ) as usize
    }

    /// Writes the ends of the bodies of the copied chunks, each of `size` bytes.
    fn copy_ends(&self, size: usize, out: &mut [u8])
        requires { length out.old ≡ length (ends_encoding size 0 (front_ids self.now)) }
        ensures { out.new ≡ ends_encoding size 0 (front_ids self.now) }
    {
        for chunk in 0..self.directory.chunks - 1 {
            write_at(
                chunk,
                size,
                end_at(self.directory.chunks, self.directory.rest, chunk),
                out,
            );
        }
    }

    /// Writes the sums of the copied chunks, each of `size` bytes.
    fn copy_sums(&self, size: usize, out: &mut [u8])
        requires { length out.old ≡ length (sums_encoding size 0 (front_ids self.now)) }
        ensures { out.new ≡ sums_encoding size 0 (front_ids self.now) }
    {
        for chunk in 0..self.directory.chunks - 1 {
            write_at(
                chunk,
                size,
                sum_at(self.directory.chunks, self.directory.rest, chunk),
                out,
            );
        }
    }

    /// Writes the keys, ends, sums and bodies of the copied chunks.
    fn copy(
        &self,
        end_size: usize,
        sum_size: usize,
        keys: &mut [u8],
        ends: &mut [u8],
        sums: &mut [u8],
        out: &mut [u8],
    )
        requires keys { length keys.old ≡ length (keys_encoding (front_ids self.now)) }
        requires ends { length ends.old ≡ length (ends_encoding end_size 0 (front_ids self.now)) }
        requires sums { length sums.old ≡ length (sums_encoding sum_size 0 (front_ids self.now)) }
        requires bodies { length out.old ≡ length (concat (bodies (front_ids self.now))) }
        ensures keys { keys.new ≡ keys_encoding (front_ids self.now) }
        ensures ends { ends.new ≡ ends_encoding end_size 0 (front_ids self.now) }
        ensures sums { sums.new ≡ sums_encoding sum_size 0 (front_ids self.now) }
        ensures bodies { out.new ≡ concat (bodies (front_ids self.now)) }
    {
        let count = self.count();
        let size = self.size();
        let start = bodies_start(self.directory.chunks, self.directory.rest);
        keys.copy_from_slice(&self.directory.rest[1..1 + 2 * count]);
        self.copy_ends(end_size, ends);
        self.copy_sums(sum_size, sums);
        out.copy_from_slice(&self.directory.rest[start..start + size]);
    }

    /// The number of chunks of these and of ids after them, and of the bytes of their bodies.
    pub(crate) fn measure(&self, ids: &[u32]) -> (usize, usize)
        requires set { IsSet ids.now }
        requires next { IsNext (front_ids self.now) ids.now }
        ensures chunks { result.0 ≡ length (parts 65536 (front_ids self.now ++ ids.now)) }
        ensures bodies { result.1 ≡ length (concat (bodies (front_ids self.now ++ ids.now))) }
        ensures few { result.0 ≤ length (front_ids self.now ++ ids.now) }
        ensures small { result.1 ≤ 2 * length (front_ids self.now ++ ids.now) }
    {
        let chunks = self.count() + count_chunks(ids);
        let bodies = self.size() + measure_bodies(ids);
        (chunks, bodies)
    }

    /// Writes the keys, the ends, the sums and the bodies of these chunks and of ids after them.
    fn write_entries(
        &self,
        ids: &[u32],
        end_size: usize,
        sum_size: usize,
        keys: &mut [u8],
        ends: &mut [u8],
        sums: &mut [u8],
        out: &mut [u8],
    )
        requires set { IsSet ids.now }
        requires next { IsNext (front_ids self.now) ids.now }
        requires keys { length keys.old ≡ length (keys_encoding (front_ids self.now ++ ids.now)) }
        requires sizes { (end_size ≤ 4) × (sum_size ≤ 4) }
        requires ends { length ends.old ≡ length (ends_encoding end_size 0 (front_ids self.now ++ ids.now)) }
        requires sums { length sums.old ≡ length (sums_encoding sum_size 0 (front_ids self.now ++ ids.now)) }
        requires bodies { length out.old ≡ length (concat (bodies (front_ids self.now ++ ids.now))) }
        ensures keys { keys.new ≡ keys_encoding (front_ids self.now ++ ids.now) }
        ensures ends { ends.new ≡ ends_encoding end_size 0 (front_ids self.now ++ ids.now) }
        ensures sums { sums.new ≡ sums_encoding sum_size 0 (front_ids self.now ++ ids.now) }
        ensures bodies { out.new ≡ concat (bodies (front_ids self.now ++ ids.now)) }
    {
        let (count, size) = (self.count(), self.size());
        let (own_keys, later_keys) = keys.split_at_mut(2 * count);
        let (own_ends, later_ends) = ends.split_at_mut(end_size * count);
        let (own_sums, later_sums) = sums.split_at_mut(sum_size * count);
        let (own_out, later_out) = out.split_at_mut(size);
        self.copy(end_size, sum_size, own_keys, own_ends, own_sums, own_out);
        write_entries(
            ids,
            size,
            self.len(),
            end_size,
            sum_size,
            later_keys,
            later_ends,
            later_sums,
            later_out,
        );
    }

    /// Writes the directory of these chunks and of ids after them, with ends and sums of these sizes, and their bodies.
    fn write_directory(
        &self,
        ids: &[u32],
        chunks: usize,
        end_size: usize,
        sum_size: usize,
        out: &mut [u8],
    )
        requires set { IsSet ids.now }
        requires next { IsNext (front_ids self.now) ids.now }
        requires chunks { chunks ≡ length (parts 65536 (front_ids self.now ++ ids.now)) }
        requires few { chunks ≤ 2 ^ 28 }
        requires sizes { (end_size ≤ 4) × (sum_size ≤ 4) }
        requires size { length out.old ≡ length (directory end_size sum_size (front_ids self.now ++ ids.now)) }
        ensures { out.new ≡ directory end_size sum_size (front_ids self.now ++ ids.now) }
    {
        let (keys, others) = out.split_at_mut(2 * chunks);
        let (ends, after) = others.split_at_mut(end_size * chunks);
        let (sums, last) = after.split_at_mut(sum_size * chunks);
        self.write_entries(ids, end_size, sum_size, keys, ends, sums, last);
    }

    /// Writes the set of the ids of these chunks and of ids after them. It has `chunks` chunks, and their bodies have
    /// `size` bytes.
    pub(crate) fn write(&self, ids: &[u32], chunks: usize, size: usize, out: &mut [u8])
        requires set { IsSet ids.now }
        requires next { IsNext (front_ids self.now) ids.now }
        requires most { length (front_ids self.now ++ ids.now) ≤ 2 ^ 28 }
        requires chunks { chunks ≡ length (parts 65536 (front_ids self.now ++ ids.now)) }
        requires few { chunks ≤ length (front_ids self.now ++ ids.now) }
        requires size { size ≡ length (concat (bodies (front_ids self.now ++ ids.now))) }
        requires room { length out.old ≡ length (in_chunks (front_ids self.now ++ ids.now)) }
        ensures { out.new ≡ in_chunks (front_ids self.now ++ ids.now) }
    {
        let count = self.len() + ids.len();
        let end_size = byte_count(size as u32);
        let sum_size = byte_count(count as u32);
        let len = head_len(count, chunks);
        let (head, rest) = out.split_at_mut(len);
        write_head(count, chunks, end_size, sum_size, head);
        self.write_directory(ids, chunks, end_size, sum_size, rest);
    }
}

impl<'a> IdSet<'a> {
    ghost use Rattle.std.specs.Prelude.{false, IfSome, IsNone};
    ghost use Rattle.bitpack_sets.specs.Fronts.{IsFront, front_ids};
    ghost use Rattle.bitpack_sets.specs.Opened.{ids};
    ghost use Rattle.bitpack_sets.specs.Written.{is_in_chunks};

    /// The chunks that are copied if ids follow. It is `None` if the set is not in chunks.
    pub(crate) fn front(&self) -> Option<Front<'a>>
        ensures front { IfSome result (λ front. IsFront (front_ids front) (ids self.now)) }
        ensures none { IsNone result → is_in_chunks (ids self.now) ≡ false }
    {
        match self.form() {
            Form::Chunks(directory) => Some(Front { directory }),
            _ => None,
        }
    }
}

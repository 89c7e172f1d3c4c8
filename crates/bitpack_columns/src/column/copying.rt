//! All values of a column, and the values of a range of positions.

ghost use Rattle.std.specs.Prelude.{◌≡◌, ◌+◌, ◌-◌, ◌*◌, ◌%◌, ◌<◌, ◌≤◌, ◌++◌, IfErr, OnErr, OnOk, drop, length, min, take, vec_capacity, vec_len};
ghost use Rattle.bitpack_columns.specs.Opened.{blocks_of, values};

use crate::column::{BLOCK_LEN, Column};
use crate::column_error::ColumnError;
use crate::reads::Reads;

/// How many values are unpacked before they are appended: these are whole blocks, in 4 KB.
const APPENDED: usize = 1024;

impl<'a> Column<'a> {
    /// Appends all values. Unpacks each block once.
    ///
    /// Fails only with `Memory`, if the vector cannot grow by the number of values.
    pub fn append_to(&self, out: &mut Vec<u32>) -> Result<(), ColumnError>
        ensures ok { OnOk result (out.new.items ≡ out.old.items ++ values self.now) }
        ensures memory { IfErr result (λ e. e ≡ ColumnError.Memory) }
        ensures room { OnErr result (vec_capacity out.old < vec_len out.old + length (values self.now)) }
        ensures unchanged { OnErr result (out.new.items ≡ out.old.items) }
        ensures capacity { OnErr result (vec_capacity out.new ≡ vec_capacity out.old) }
    {
        if out.reserve(self.count).is_err() {
            return Err(ColumnError::Memory);
        }
        let mut values = [0; APPENDED];
        let mut done = 0;
        while done < self.count {
            let more = self.copy_range(done, &mut values);
            out.extend_from_slice(&values[..more]).unwrap();
            done += more;
        }
        Ok(())
    }

    /// Writes all values at the start of the slice, and returns their number. Unpacks each block once, and allocates nothing.
    ///
    /// Requires room for all values. The rest of the slice is unchanged.
    pub fn copy_to(&self, out: &mut [u32]) -> usize
        requires room { length (values self.now) ≤ length out.old }
        ensures len { result ≡ length (values self.now) }
        ensures values { take result out.new ≡ values self.now }
        ensures rest { drop result out.new ≡ drop result out.old }
    {
        self.copy_all(out, &mut Reads::new())
    }

    // As `copy_to`.
    fn copy_all(&self, out: &mut [u32], reads: &mut Reads) -> usize
        requires room { length (values self.now) ≤ length out.old }
        ensures len { result ≡ length (values self.now) }
        ensures values { take result out.new ≡ values self.now }
        ensures rest { drop result out.new ≡ drop result out.old }
        ensures blocks { reads.new.blocks ≡ reads.old.blocks + blocks_of self.now + 1 }
    {
        let whole = BLOCK_LEN * self.blocks();
        reads.unpack_blocks(self, 0, &mut out[..whole]);
        reads.unpack_tail(self, &mut out[whole..self.count]);
        self.count
    }

    /// Writes the values from a position on at the start of the slice, as many as there are and it has room for, and returns how many it
    /// wrote. It writes none if the position is not below the number of values.
    ///
    /// The rest of the slice is unchanged. Allocates nothing, and unpacks each block that has such values once, and no other.
    pub fn copy_range(&self, from: usize, out: &mut [u32]) -> usize
        ensures len { result ≡ min (length out.old) (length (values self.now) - from) }
        // claim: columns/6 as `sets/4`, of values
        ensures values { take result out.new ≡ take result (drop from (values self.now)) }
        ensures rest { drop result out.new ≡ drop result out.old }
    {
        self.copy_from(from, out, &mut Reads::new())
    }

    // As `copy_range`.
    fn copy_from(&self, from: usize, out: &mut [u32], reads: &mut Reads) -> usize
        ensures len { result ≡ min (length out.old) (length (values self.now) - from) }
        ensures values { take result out.new ≡ take result (drop from (values self.now)) }
        ensures rest { drop result out.new ≡ drop result out.old }
    {
        if from >= self.count {
            return 0;
        }
        let count = out.len().min(self.count - from);
        let mut done = 0;
        while done < count {
            done += self.copy_part(from + done, &mut out[done..count], reads);
        }
        count
    }

    // Writes whole blocks from a position on, or the values to the end of its block, as many as fit. Returns how many these are.
    fn copy_part(&self, from: usize, out: &mut [u32], reads: &mut Reads) -> usize
        requires some { 0 < length out.old }
        requires within { from + length out.old ≤ length (values self.now) }
        ensures some { 0 < result }
        ensures within { result ≤ length out.old }
        ensures values { take result out.new ≡ take result (drop from (values self.now)) }
        ensures rest { drop result out.new ≡ drop result out.old }
    {
        let block = from / BLOCK_LEN;
        let index = from % BLOCK_LEN;
        if index == 0 && out.len() >= BLOCK_LEN {
            let whole = out.len() / BLOCK_LEN * BLOCK_LEN;
            reads.unpack_blocks(self, block, &mut out[..whole]);
            return whole;
        }
        let mut values = [0; BLOCK_LEN];
        let len = reads.unpack_block(self, block, &mut values);
        let more = (len - index).min(out.len());
        out[..more].copy_from_slice(&values[index..index + more]);
        more
    }
}

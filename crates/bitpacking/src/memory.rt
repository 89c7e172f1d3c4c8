//! The only way from memory to a register and back. Each load and store counts in `Steps`.

ghost use Rattle.std.specs.Prelude.{
  ◌≡◌,
  ◌+◌,
  ◌*◌,
  ◌<◌,
  ◌≤◌,
  ℕ,
  max,
  length,
  slice_index,
  take,
  drop,
  ◌++◌,
};
ghost use Rattle.std.specs.Borrow.{ftrue};
ghost use Rattle.std.specs.Coded.{prop_coded, le_prop};
ghost use Rattle.bitpacking.specs.Bits.{AreBytes};
ghost use Rattle.bitpacking.specs.Words.{word};

use bitpacking_register::Register;
use std::marker::{Model, PhantomData};
use std::mem::size_of;

/// How many registers were loaded and stored, how many bits of a lane are inside (loaded and not yet stored), and how many
/// were held at most at once. A register of values counts the width of the block, one of bytes 32.
///
/// It has no size at run time, and no program can read it: the numbers are for contracts.
#[derive(Drop)]
pub struct Steps {
    marker: PhantomData<()>,
    pub ghost loads: { ℕ },
    pub ghost stores: { ℕ },
    pub ghost inside: { ℕ },
    pub ghost held: { ℕ },
    ghost greatest: { inside ≤ held } by { prop_coded le_prop },
}

const _: () = prove!(size_of::<Steps>() == 0);

impl Model for Steps {
    ghost also_owns = { λ _. ftrue };
}

impl Steps {
    /// No steps.
    #[inline(always)]
    pub fn new() -> Steps
        ensures loads { result.loads ≡ 0 }
        ensures stores { result.stores ≡ 0 }
        ensures inside { result.inside ≡ 0 }
        ensures held { result.held ≡ 0 }
    {
        Steps {
            marker: PhantomData,
        }
    }

    // How many registers were loaded, how many bits of a lane with them, and how many were stored.
    #[inline(always)]
    fn record(&mut self, loads: u32, bits_in: u32, stores: u32, bits_out: u32)
        requires { bits_out ≤ self.old.inside + bits_in }
        ensures loads { self.new.loads ≡ self.old.loads + loads }
        ensures stores { self.new.stores ≡ self.old.stores + stores }
        ensures inside { self.new.inside + bits_out ≡ self.old.inside + bits_in }
        ensures held { self.new.held ≡ max self.old.held (self.old.inside + bits_in) }
    {}

    ghost use Rattle.bitpacking.specs.Moves.{IsLoad, IsStore};

    #[inline(always)]
    fn record_load(&mut self, bits: u32)
        ensures { IsLoad self.old self.new bits }
    {
        self.record(1, bits, 0, 0)
    }

    #[inline(always)]
    fn record_store(&mut self, bits: u32)
        requires { bits ≤ self.old.inside }
        ensures { IsStore self.old self.new bits }
    {
        self.record(0, 0, 1, bits)
    }
}

/// A slice from which values are loaded a register at a time. Each register counts as the number of bits of a lane that `new`
/// got.
#[derive(Drop)]
pub(crate) struct ValueSource<'a> {
    words: &'a [u32],
    bits: u32,
}

impl<'a> ValueSource<'a> {
    ghost use Rattle.bitpacking.specs.Moves.{IsLoad};

    #[inline(always)]
    pub(crate) fn new(words: &'a [u32], bits: u32) -> ValueSource<'a>
        ensures words { result.words.now ≡ words.now }
        ensures bits { result.bits ≡ bits }
    {
        ValueSource { words, bits }
    }

    #[inline(always)]
    pub(crate) fn load<R: Register>(&self, index: usize, steps: &mut Steps) -> R
        requires { R.LANES * index + R.LANES ≤ length self.now.words.now }
        ensures words { R.words result ≡ take R.LANES (drop (R.LANES * index) self.now.words.now) }
        ensures counts { IsLoad steps.old steps.new self.now.bits }
    {
        steps.record_load(self.bits);
        let len = R::LANES;
        R::from_words(&self.words[len * index..len * index + len])
    }
}

/// A slice into which values are stored a register at a time. Each register counts as the number of bits of a lane that `new`
/// got.
#[derive(Drop)]
pub(crate) struct ValueTarget<'a> {
    words: &'a mut [u32],
    bits: u32,
}

impl<'a> ValueTarget<'a> {
    ghost use Rattle.bitpacking.specs.Moves.{IsStore};

    #[inline(always)]
    pub(crate) fn new(words: &'a mut [u32], bits: u32) -> ValueTarget<'a>
        ensures same_reference { result.words.ghost_name ≡ words.entry.ghost_name }
        ensures words { result.words.now ≡ words.old }
        ensures bits { result.bits ≡ bits }
    {
        ValueTarget { words, bits }
    }

    #[inline(always)]
    pub(crate) fn store<R: Register>(&mut self, index: usize, register: R, steps: &mut Steps)
        requires within { R.LANES * index + R.LANES ≤ length self.old.words.now }
        requires loaded { self.old.bits ≤ steps.old.inside }
        ensures same_reference { self.new.words.ghost_name ≡ self.old.words.ghost_name }
        ensures room { length self.new.words.now ≡ length self.old.words.now }
        ensures stored { take (R.LANES * index + R.LANES) self.new.words.now
            ≡ take (R.LANES * index) self.old.words.now ++ R.words register }
        ensures rest { drop (R.LANES * index + R.LANES) self.new.words.now
            ≡ drop (R.LANES * index + R.LANES) self.old.words.now }
        ensures bits { self.new.bits ≡ self.old.bits }
        ensures counts { IsStore steps.old steps.new self.old.bits }
    {
        steps.record_store(self.bits);
        store_words(self.words, index, register);
    }
}

/// Bytes that are loaded a register at a time, each counted as 32 bits of a lane.
#[derive(Drop)]
pub(crate) struct ByteSource<'a> {
    bytes: &'a [u8],
}

impl<'a> ByteSource<'a> {
    ghost use Rattle.bitpacking.specs.Moves.{IsLoad};

    #[inline(always)]
    pub(crate) fn new(bytes: &'a [u8]) -> ByteSource<'a>
        ensures bytes { result.bytes.now ≡ bytes.now }
        ensures are_bytes { AreBytes result.bytes.now }
    {
        ByteSource { bytes }
    }

    #[inline(always)]
    pub(crate) fn load<R: Register>(&self, index: usize, steps: &mut Steps) -> R
        requires { 4 * R.LANES * index + 4 * R.LANES ≤ length self.now.bytes.now }
        ensures words { (l : ℕ) → l < R.LANES
            → slice_index (R.words result) l ≡ word self.now.bytes.now (R.LANES * index + l) }
        ensures counts { IsLoad steps.old steps.new 32 }
    {
        steps.record_load(32);
        load_bytes(self.bytes, index)
    }
}

/// Bytes that are stored a register at a time, each counted as 32 bits of a lane.
#[derive(Drop)]
pub(crate) struct ByteTarget<'a> {
    bytes: &'a mut [u8],
}

impl<'a> ByteTarget<'a> {
    ghost use Rattle.bitpacking.specs.Moves.{IsStore};

    #[inline(always)]
    pub(crate) fn new(bytes: &'a mut [u8]) -> ByteTarget<'a>
        ensures same_reference { result.bytes.ghost_name ≡ bytes.entry.ghost_name }
        ensures bytes { result.bytes.now ≡ bytes.old }
        ensures are_bytes { AreBytes result.bytes.now }
    {
        ByteTarget { bytes }
    }

    #[inline(always)]
    pub(crate) fn store<R: Register>(&mut self, index: usize, register: R, steps: &mut Steps)
        requires within { 4 * R.LANES * index + 4 * R.LANES ≤ length self.old.bytes.now }
        requires loaded { 32 ≤ steps.old.inside }
        ensures same_reference { self.new.bytes.ghost_name ≡ self.old.bytes.ghost_name }
        ensures room { length self.new.bytes.now ≡ length self.old.bytes.now }
        ensures stored { (l : ℕ) → l < R.LANES
            → word self.new.bytes.now (R.LANES * index + l) ≡ slice_index (R.words register) l }
        ensures before { (q : ℕ) → q < R.LANES * index → word self.new.bytes.now q ≡ word self.old.bytes.now q }
        ensures rest { drop (4 * R.LANES * index + 4 * R.LANES) self.new.bytes.now
            ≡ drop (4 * R.LANES * index + 4 * R.LANES) self.old.bytes.now }
        ensures are_bytes { AreBytes self.new.bytes.now }
        ensures counts { IsStore steps.old steps.new 32 }
    {
        steps.record_store(32);
        store_bytes(self.bytes, index, register);
    }
}

#[inline(always)]
fn store_words<R: Register>(words: &mut [u32], index: usize, register: R)
    requires { R.LANES * index + R.LANES ≤ length words.old }
    ensures stored { take (R.LANES * index + R.LANES) words.new ≡ take (R.LANES * index) words.old ++ R.words register }
    ensures rest { drop (R.LANES * index + R.LANES) words.new ≡ drop (R.LANES * index + R.LANES) words.old }
{
    let len = R::LANES;
    register.to_words(&mut words[len * index..len * index + len]);
}

#[inline(always)]
fn load_bytes<R: Register>(bytes: &[u8], index: usize) -> R
    requires { 4 * R.LANES * index + 4 * R.LANES ≤ length bytes.now }
    ensures { (l : ℕ) → l < R.LANES → slice_index (R.words result) l ≡ word bytes.now (R.LANES * index + l) }
{
    let len = 4 * R::LANES;
    R::from_bytes(&bytes[len * index..len * index + len])
}

#[inline(always)]
fn store_bytes<R: Register>(bytes: &mut [u8], index: usize, register: R)
    requires { 4 * R.LANES * index + 4 * R.LANES ≤ length bytes.old }
    ensures stored { (l : ℕ) → l < R.LANES → word bytes.new (R.LANES * index + l) ≡ slice_index (R.words register) l }
    ensures before { (q : ℕ) → q < R.LANES * index → word bytes.new q ≡ word bytes.old q }
    ensures rest { drop (4 * R.LANES * index + 4 * R.LANES) bytes.new
        ≡ drop (4 * R.LANES * index + 4 * R.LANES) bytes.old }
    ensures are_bytes { AreBytes bytes.new }
{
    let len = 4 * R::LANES;
    register.to_bytes(&mut bytes[len * index..len * index + len]);
}

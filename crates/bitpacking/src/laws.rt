//! Laws of the definitions, each the contract of a function that does nothing at run time, for generic code to call.
//!
//! The definitions are in `specs/`: `bit_of` and `AreBytes` in Bits, `start` and `codes` in Codes, `Fits`, `Least` and
//! `IsWidth` in Width, `place`, `size`, `Layout` and `Holds` in Layout. `bit_at` is the library's; `lanes` is a member of
//! the trait `BitPacker`. The laws themselves, and the words that only they need, are in Laws.

ghost use Rattle.bitpacking.specs.Laws.{
  BlocksShareNoBytes,
  EqualPackedBuffers,
  EqualUnpackedValues,
  FitsGreater,
  LanesAreOneLaneLayouts,
  NoneIsTheLastNumber,
  OneBlock,
  BytesHoldOneBlock,
  BlockHasOneList,
  OneLayoutBytes,
  OneLayoutCodes,
  OneLayoutPlaces,
  OneLeastWidth,
  SortedCodesAreDifferences,
  StrictSavesAtMostABit,
};

/// Each bit of the bytes of a block is exactly one bit of its codes. Codes that fit a width have exactly one list of bytes
/// as their layout, and as many bytes as a block has are the layout of exactly one list of codes.
pub fn one_layout()
    ensures places { OneLayoutPlaces }
    ensures bytes { OneLayoutBytes }
    ensures codes { OneLayoutCodes }
{}

/// For a fixed kind every list of words is the codes of exactly one block.
pub fn one_block()
    ensures { OneBlock }
{}

/// Every list of words has exactly one least width, at most 32, and codes that fit a width fit every greater one.
pub fn one_least_width()
    ensures least { OneLeastWidth }
    ensures greater { FitsGreater }
{}

/// `StrictlySorted(None)` and `StrictlySorted(Some(4294967295))` have equal codes.
pub fn none_is_the_last_number()
    ensures { NoneIsTheLastNumber }
{}

/// On a strictly increasing block above an initial value, the strict width is the sorted width or one less.
pub fn strict_saves_at_most_a_bit()
    ensures { StrictSavesAtMostABit }
{}

/// On a block in order, from an initial value up to its first, the sorted codes are the plain differences.
pub fn sorted_codes_are_differences()
    ensures { SortedCodesAreDifferences }
{}

/// The words of each lane are the bytes of the layout of one lane, for the codes of that lane.
pub fn lanes_are_one_lane_layouts()
    ensures { LanesAreOneLaneLayouts }
{}

/// Round trips, for one kind with its initial value and one width. Decompressing what was compressed returns the block;
/// compressing what was decompressed returns the bytes; and two different blocks never share bytes.
pub fn round_trips()
    ensures block { BytesHoldOneBlock }
    ensures bytes { BlockHasOneList }
    ensures shared { BlocksShareNoBytes }
{}

/// Calls with equal arguments and equal buffers leave equal buffers, whichever kernel runs: two that fulfil the clauses of
/// a compress call, and two that fulfil the clauses of a decompress call.
pub fn equal_calls_leave_equal_buffers()
    ensures packed { EqualPackedBuffers }
    ensures unpacked { EqualUnpackedValues }
{}

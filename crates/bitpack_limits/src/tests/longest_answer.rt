//! The greatest answer that a line can have.

use super::fakes::Counter;
use super::running::run_counting;
use super::texts::{Part, text_of};
use std::alloc::Global;
use std::process::Abort;
use std::test::Fail;

/// The line has this many bytes and values in its answer.
fn counts_are(rt: &impl Abort, alloc: Global, line: &str, bytes: usize, values: usize) {
    let mut writer = Counter {
        bytes: 0,
        commas: 0,
        calls: 0,
    };
    let outcome = run_counting(alloc, line.as_bytes(), &mut writer);
    assert!(rt; outcome == Ok(()));
    assert!(rt; writer.bytes == bytes);
    assert!(rt; writer.commas.saturating_add(1) == values);
    // A write has at least 65,536 bytes less one value.
    assert!(rt; writer.calls <= 1379);
}

/// The greatest answer that a line can have.
///
/// The list is sorted, in eight lanes: a block of width 22 whose codes are all 4194303, and 32,052 blocks of width 0, which
/// repeat its last value. The values of the first block are 4194303 times 1 to 256: two have seven digits, 21 have eight,
/// 215 have nine and 18 ten. All 8,205,312 values after them have ten digits.
#[test]
fn the_longest_answer(rt: HostRuntime) -> Result<(), Fail> {
    let line = text_of(
        rt.alloc(),
        &[
            Part::Text("dec 8x 01010800357d0016"),
            Part::Repeated("ff", 704),
            Part::Repeated("00", 32_052),
        ],
    )?;
    assert!(rt; line.len() == 65_535);
    counts_are(&rt, rt.alloc(), line.as_str(), 90_260_992, 8_205_568);
    Ok(())
}

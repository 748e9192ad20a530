//! Reports as text.
use super::assertions::assert_equal;
use report::{Report, write_reports};
use std::test::Fail;
use step_record::{Policy, Sizes};
use streams::CountedWriter;

const COUNTED: Report = Report {
    policy: Policy::Lru,
    sizes: Sizes::NONE,
    capacity: 3,
    accesses: 6,
    hits: 1,
    misses: 5,
    evictions: 2,
    rejections: 0,
};

const EMPTY: Report = Report {
    policy: Policy::WindowTinyLfu,
    sizes: Sizes::NONE,
    capacity: 1,
    accesses: 0,
    hits: 0,
    misses: 0,
    evictions: 0,
    rejections: 0,
};

const LARGE: Report = Report {
    policy: Policy::Clairvoyant,
    sizes: Sizes::NONE,
    capacity: 1_048_576,
    accesses: 18_446_744_073_709_551_615,
    hits: 18_446_744_073_709_551_615,
    misses: 0,
    evictions: 7,
    rejections: 4,
};

const TEXT: &str = "policy,capacity,accesses,hits,misses,evictions,rejections,rate
lru,3,6,1,5,2,0,16.66
wtinylfu,1,0,0,0,0,0,0.00
clairvoyant,1048576,18446744073709551615,18446744073709551615,0,7,4,100.00
";

#[test]
fn the_text_of_reports(rt: HostRuntime) -> Result<(), Fail> {
    let mut out = CountedWriter::new(Vec::with_capacity(rt.alloc(), TEXT.len())?);
    write_reports(rt.alloc(), &[COUNTED, EMPTY, LARGE], &mut out)?;
    assert_equal(&rt, out.get_ref().as_slice(), TEXT.as_bytes());
    assert_equal(&rt, COUNTED.rate(), 1666);
    assert_equal(&rt, EMPTY.rate(), 0);
    Ok(())
}

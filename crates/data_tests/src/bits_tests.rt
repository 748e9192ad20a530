//! Bits in words, and a packed list of them.
use super::assertions::assert_equal;
use engine_base::{BitList, bits};
use std::test::Fail;

#[test]
fn bits_go_into_words_and_come_back(rt: HostRuntime) -> Result<(), Fail> {
    let mut words = vec![in rt.alloc(); 0u64; 2]?;
    bits::set(&mut words, 0);
    bits::set(&mut words, 63);
    bits::set(&mut words, 64);
    bits::clear(&mut words, 63, true);
    assert_equal(
        &rt,
        (bits::get(&words, 0), bits::get(&words, 63)),
        (true, false),
    );
    let list = BitList::of_words(words);
    assert_equal(&rt, list.as_words(), &[1, 1][..]);
    assert_equal(&rt, list.words(), 2);
    Ok(())
}

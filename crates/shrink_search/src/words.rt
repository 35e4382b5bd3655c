use rand_core::utils::{NextWord, next_u64_via_u32};
use rand_pcg::Lcg64Xsh32;

// The stream of the random words. The words of preference orders are those of stream 1.
const STREAM: u64 = 2;

// The random words of a search.
#[derive(Drop)]
pub(crate) struct Words {
    generator: Lcg64Xsh32,
}

impl Words {
    // The words of a number.
    pub(crate) fn new(number: u64) -> Words {
        Words {
            generator: Lcg64Xsh32::new(number, STREAM),
        }
    }

    // A number below `count`, or 0 where that is 0, by one word.
    pub(crate) fn below(&mut self, count: usize) -> usize {
        let word = u64::from(self.generator.next_word());
        (word.wrapping_mul(count as u64) >> 32) as usize
    }

    // A number below a sum of weights, or 0 where that is 0, by two words.
    pub(crate) fn below_sum(&mut self, sum: u64) -> u64 {
        let word = next_u64_via_u32(&mut self.generator);
        (u128::from(word).wrapping_mul(u128::from(sum)) >> 64) as u64
    }
}

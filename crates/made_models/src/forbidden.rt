ghost use Rattle.std.specs.Prelude.{◌≡◌, ◌≤◌, length, slice_index, All};
ghost use Rattle.made_models.specs.believed.Words.{after_words, word_of};
ghost use Rattle.made_models.specs.believed.MadeModel.{forbidden_by};
ghost use Rattle.made_models.specs.believed.MadeModel as defined;

use rand_core::utils::NextWord;
use rand_pcg::Lcg64Xsh32;
use std::marker::Model;

/// A pair of values of two parameters that a constraint forbids. Contracts see the pair of the definition.
#[derive(Drop)]
pub struct Forbidden {
    pub first: u32,
    pub first_value: u32,
    pub second: u32,
    pub second_value: u32,
}

impl Model for Forbidden {
    ghost use Rattle.made_models.specs.believed.MadeModel as defined;

    ghost Value = { defined.Forbidden };

    ghost view = { λ pair. record { first = pair.first; first_value = pair.first_value; second = pair.second; second_value = pair.second_value } };
}

impl Forbidden {
    /// The pair that the next four words give, where the sixty parameters have these numbers of values.
    pub fn draw(words: &mut Lcg64Xsh32, counts: &[u32]) -> Forbidden
        requires sixty { length counts.now ≡ 60 }
        requires several { All (λ count. 2 ≤ count) counts.now }
        ensures pair { result ≡ forbidden_by (slice_index counts.now) (word_of words.old 0) (word_of words.old 1) (word_of words.old 2) (word_of words.old 3) }
        ensures words { words.new ≡ after_words 4 words.old }
    {
        let first = words.next_word() % 60;
        let second = (first + 1 + words.next_word() % 59) % 60;
        let first_value = 1 + words.next_word() % (counts[first as usize] - 1);
        let second_value = 1 + words.next_word() % (counts[second as usize] - 1);
        Forbidden {
            first,
            first_value,
            second,
            second_value,
        }
    }
}

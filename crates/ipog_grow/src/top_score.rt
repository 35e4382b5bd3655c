ghost use Rattle.std.specs.Prelude.{◌≡◌, ◌<◌, ◌≤◌, ℕ, length, slice_index};
ghost use Rattle.ipog_grow.specs.TopScores.{IsGreatest, greater_of};

// The number of scores that are compared at once.
const BLOCK: usize = 64;

// The greatest of some scores, or 0, and where the first block of scores begins that has it.
#[derive(Drop, Clone, Copy)]
pub(crate) struct TopScore {
    pub(crate) score: u32,
    pub(crate) begin: usize,
}

// The greatest of the scores from one place up to another, or 0.
fn greatest_between(scores: &[u32], begin: usize, end: usize) -> u32
    requires { end ≤ length scores.now }
    ensures most { (k : ℕ) → begin ≤ k → k < end → slice_index scores.now k ≤ result }
    ensures own { 0 < result → (k : ℕ) × (begin ≤ k) × (k < end) × (slice_index scores.now k ≡ result) }
{
    let mut most: u32 = 0;
    for k in begin..end {
        most = most.max(scores[k]);
    }
    most
}

// The greater score, or the first one where both are the same.
fn greater_of(most: TopScore, score: u32, begin: usize) -> TopScore
    ensures { result ≡ greater_of most score begin }
{
    if score > most.score {
        TopScore { score, begin }
    } else {
        most
    }
}

// The greatest score, and its first block.
pub(crate) fn greatest(scores: &[u32]) -> TopScore
    ensures { IsGreatest scores.now (length scores.now) result }
{
    let mut most = TopScore { score: 0, begin: 0 };
    let mut begin = 0;
    while begin < scores.len() {
        let end = scores.len().min(begin + BLOCK);
        most = greater_of(most, greatest_between(scores, begin, end), begin);
        begin = end;
    }
    most
}

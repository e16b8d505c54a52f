// The builder's counts as the caller's words: read before a constructor, put back after it.
ghost use Rattle.std.specs.Prelude.{◌≡◌, ◌≤◌, length, get_or};
ghost use Rattle.build.specs.Draft.{counts_of};
ghost use Rattle.pursegable.specs.Building.{counts_words, answer_of, counts_after};

use build::{Counts, Made};

// The words that the builder's counts take.
pub const COUNTS_WORDS: usize = 3;

pub fn counts_of(counts: &[u32]) -> Counts
    requires { counts_words ≤ length counts.now }
    ensures { result ≡ counts_of (get_or counts.now 0 0) (get_or counts.now 1 0) }
{
    Counts {
        nodes: counts[0],
        bytes: counts[1],
    }
}

// The counts and the node are put back, or the refusal's number is given.
pub fn settle(made: Made, counts: &mut [u32]) -> u32
    requires { counts_words ≤ length counts.old }
    ensures { (result ≡ answer_of made) × (counts.new ≡ counts_after made counts.old) }
{
    match made {
        Ok((c, n)) => {
            counts[0] = c.nodes;
            counts[1] = c.bytes;
            counts[2] = n.0;
            0
        }
        Err(why) => u32::from(why),
    }
}

//! A candidate, and the best one so far.
ghost use Rattle.std.specs.Prelude.{◌≡◌, ◌<◌, ◌^◌};
ghost use Rattle.tree_choice.specs.SoFar.{limit_by, taken_in};

use crate::counts::Counts;

/// A chosen piece: its place in the list, how many pieces its line splits, and how many parts come to
/// lie on its right and on its left.
#[derive(Clone, Copy, Debug, PartialEq, Eq)]
pub struct Choice {
    pub at: u32,
    pub splits: u32,
    pub right: u32,
    pub left: u32,
}

// The cost that another candidate must stay below to be chosen: that of the best one, or a bound if there is none yet.
pub(crate) fn limit_of(bound: u64, best: Option<Choice>) -> u64
    ensures { result ≡ limit_by bound best }
{
    match best {
        None => bound,
        Some(choice) => { 8 * choice.splits as u64 + choice.right.abs_diff(choice.left) as u64 }
    }
}

// The best candidate after one more piece of an unused line was counted. The new one is taken if it separates the list
// and costs less than the limit.
pub(crate) fn take_in(
    at: usize,
    best: Option<Choice>,
    limit: u64,
    counted: Option<Counts>,
) -> Option<Choice>
    requires place { at < 2 ^ 32 }
    ensures { result ≡ taken_in limit at best counted }
{
    match counted {
        None => best,
        Some(counts) => {
            if counts.left == 0 || limit <= counts.cost() {
                return best;
            }
            Some(Choice {
                at: at as u32,
                splits: counts.splits,
                right: counts.right,
                left: counts.left,
            })
        }
    }
}

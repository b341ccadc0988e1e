//! Where a search for the greatest score makes its next test. Nothing rests on it but time.
ghost use Rattle.std.specs.Prelude.{◌≡◌, ◌<◌, ◌≤◌, ◌+◌, ◌-◌, ◌/◌};

/// So many tests of a search go where the prescores point, before one halves what is left.
const POINTED_TESTS: u8 = 6;

/// A prescore that is so little below the price differs from it by what is rounded, mostly.
const ROUNDED: u64 = 64;

/// A price that was tested, and how far the highest prescore there is from it.
#[derive(Clone, Copy)]
struct Point {
    price: u64,
    gap: u64,
}

/// What the tests so far say of the next one.
#[derive(Clone, Copy)]
pub(crate) struct Course {
    /// About where the highest prescore meets the price.
    hint: u64,
    /// How many tests went where the prescores point since one halved what was left.
    pointed: u8,
    /// The last price that was reached.
    reached: Option<Point>,
    /// The last price that was not reached.
    missed: Option<Point>,
}

impl Course {
    /// Before any test; the first one goes to this price.
    pub(crate) fn new(hint: u64) -> Course {
        Course {
            hint,
            pointed: 0,
            reached: None,
            missed: None,
        }
    }

    /// A price above `low` and at most `top`: the hint or what is nearest to it, and behind six of
    /// those the middle. Prices are below 2^64, so a search ends within 64 times seven tests,
    /// whatever the hints are.
    pub(crate) fn next(&mut self, low: u64, top: u64) -> u64
        requires { low < top }
        ensures above { low < result }
        ensures within { result ≤ top }
        ensures pointed { self.old.pointed < 6 → self.new.pointed ≡ self.old.pointed + 1 }
        ensures halves { 6 ≤ self.old.pointed
            → (result ≡ low + (top - low - 1) / 2 + 1) × (self.new.pointed ≡ 0) }
    {
        if self.pointed >= POINTED_TESTS {
            self.pointed = 0;
            return low + (top - low - 1) / 2 + 1;
        }
        self.pointed += 1;
        self.hint.min(top).max(low + 1)
    }

    /// Notes the highest prescore at a tested price, which is that of a target with this approval.
    /// A prescore falls less and less steeply as the price rises, but for rounding. So where that
    /// target's is the highest at all these prices, neither the line from its approval at price 0
    /// nor the one between what was reached and what was missed meets the price too low. A highest
    /// prescore that is below the tested price is reached itself, whoever has it.
    pub(crate) fn note(&mut self, test: u64, prescore: u64, approval: u64)
        requires { 0 < test }
        ensures { self.new.pointed ≡ self.old.pointed }
    {
        let is_missed = prescore < test;
        let point = Point {
            price: test,
            gap: prescore.abs_diff(test),
        };
        if is_missed {
            self.missed = Some(point);
        } else {
            self.reached = Some(point);
        }
        self.hint = meeting_price(test, approval, prescore);
        if let (Some(reached), Some(missed)) = (self.reached, self.missed) {
            self.hint = self.hint.min(crossing(reached, missed));
        }
        if is_missed {
            self.hint = self.hint.max(prescore);
        }
    }
}

/// Where a prescore meets the price, if it falls evenly from the approval at price 0 to what it is
/// at the tested price. It does, but for rounding, as long as no member's support is below the
/// price. Where rounding alone may keep it below the price, it is told itself: it is not less at a
/// lower price, so it meets that one.
fn meeting_price(test: u64, approval: u64, prescore: u64) -> u64
    requires { 0 < test }
{
    if prescore < test && test - prescore <= ROUNDED {
        return prescore;
    }
    let fall = approval.saturating_sub(prescore);
    let price = u128::from(approval) * u128::from(test) / (u128::from(test) + u128::from(fall));
    price.min(u128::from(u64::MAX)) as u64
}

/// Where the line through a point that was reached and one that was missed meets the price.
fn crossing(reached: Point, missed: Point) -> u64 {
    let width = u128::from(missed.price.saturating_sub(reached.price));
    let gaps = u128::from(reached.gap) + u128::from(missed.gap);
    let part = width * u128::from(reached.gap) / gaps.max(1);
    let price = u128::from(reached.price) + part;
    price.min(u128::from(u64::MAX)) as u64
}

//! A turn at one voter: its whole stake is handed out anew over the members that it nominates, so
//! that no unit could lie lower. Levels are raised by division, not unit by unit, and in numbers of
//! 64 bits wherever they suffice: divisions and comparisons of 128 bits are slow.
ghost use Rattle.std.specs.Prelude.{◌≡◌, ◌+◌, ◌-◌, ◌*◌, ◌/◌, ◌^◌, ◌<◌, ◌≤◌, min, cond, true, nat_le, length, sum, All, IfSome, OnSome};
ghost use Rattle.support_balance.specs.Levels.{base_of, bases, low, IsLevel, filled};
ghost use Rattle.support_balance.specs.Backing.{above_zero};
ghost use Rattle.support_balance.specs.Rows.{IsRow, AreAlike, AreMoved, IsEven, amounts, differs};

use npos_base::Edge;

/// Some of the members, by their bases, which are their supports without this voter's amounts.
#[derive(Clone, Copy)]
struct Pool<Number> {
    sum: Number,
    count: Number,
    highest: Number,
}

/// The members to which the voter gives something, and the least base of the others.
#[derive(Clone, Copy)]
struct Backed {
    pool: Pool<u64>,
    others: u64,
}

/// Where the units of a turn lie: all of them up to a height, and some one above it.
#[derive(Clone, Copy)]
struct Level {
    height: u128,
    above: u128,
}

/// Makes the turn of the voter whose edges these are, and tells whether an amount changed.
pub(crate) fn turn(stake: u64, row: &mut [Edge], supports: &mut [u128]) -> bool
    requires { IsRow supports.old row.old }
    ensures alike { AreAlike row.old row.new }
    ensures moved { AreMoved row.old row.new supports.old supports.new }
    ensures even { 1 ≤ length row.old → IsEven stake row.new supports.new }
    ensures changed { result ≡ differs (amounts row.old) (amounts row.new) }
{
    if row.is_empty() || is_level(stake, row, supports) {
        return false;
    }
    let level = level_of(stake, row, supports);
    hand_out(level, row, supports)
}

/// Whether the voter gives its whole stake and no unit could lie lower. A unit could lie lower only
/// if its member has more support than one in front of it, or over a unit more than one behind it.
/// So it is enough to compare each member with an amount with the least support in front of it, and
/// in the end the highest of them with the least of all. A support that does not fit 64 bits makes
/// the answer no, and the turn then finds out.
fn is_level(stake: u64, row: &[Edge], supports: &[u128]) -> bool
    requires { IsRow supports.now row.now }
    ensures { result ≡ true → IsEven stake row.now supports.now }
{
    let mut unspent = stake;
    let mut least = u64::MAX;
    let mut top: u64 = 0;
    for edge in row {
        let Ok(support) = u64::try_from(supports[usize::from(edge.target)]) else {
            return false;
        };
        if edge.amount > unspent {
            return false;
        }
        unspent -= edge.amount;
        let backed = if edge.amount > 0 { support } else { 0 };
        if backed > least {
            return false;
        }
        top = top.max(backed);
        least = least.min(support);
    }
    unspent == 0 && (top <= least || top - least == 1)
}

/// The level to which the stake raises the members. Most turns find their voter level and do not
/// come here, so this and `hand_out` leave the registers to them.
#[inline(never)]
fn level_of(stake: u64, row: &[Edge], supports: &[u128]) -> Level
    requires row { IsRow supports.now row.now }
    requires some { 1 ≤ length row.now }
    ensures { IsLevel stake (bases supports.now row.now) result.height result.above }
{
    match short_level(stake, row, supports) {
        Some(level) => level,
        None => wide_level(stake, row, supports),
    }
}

/// The level in numbers of 64 bits, where they suffice and the voter backs someone. Mostly a voter
/// gives to the members to which it gave before, so their height is tried first. If it is not the
/// level, it is still an upper bound, as the height of any members is.
fn short_level(stake: u64, row: &[Edge], supports: &[u128]) -> Option<Level>
    requires { IsRow supports.now row.now }
    ensures { IfSome result (λ level.
        IsLevel stake (bases supports.now row.now) level.height level.above) }
{
    let backed = backed_pool(row, supports)?;
    let height = height_over(stake, backed.pool)?;
    if backed.pool.highest <= height && height < backed.others {
        return Some(level_at(height, stake, backed.pool));
    }
    lower_level(height, stake, row, supports)
}

/// The level, which is not above the bound: each pool's height is an upper bound, and the next pool
/// leaves out what lies above it.
fn lower_level(bound: u64, stake: u64, row: &[Edge], supports: &[u128]) -> Option<Level>
    requires row { IsRow supports.now row.now }
    requires bound { stake + sum (low bound (bases supports.now row.now))
        < (bound + 1) * length (low bound (bases supports.now row.now)) }
    ensures { IfSome result (λ level.
        IsLevel stake (bases supports.now row.now) level.height level.above) }
{
    let mut pool = short_pool(bound, row, supports)?;
    let mut height = height_over(stake, pool)?;
    while height < pool.highest {
        pool = short_pool(height, row, supports)?;
        height = height_over(stake, pool)?;
    }
    Some(level_at(height, stake, pool))
}

/// The height to which the stake would raise the pool's members if none lay above it, where the
/// pool has members and their sum with the stake fits 64 bits.
fn height_over(stake: u64, pool: Pool<u64>) -> Option<u64>
    ensures fits { OnSome result (stake + pool.sum < 2 ^ 64) }
    ensures some { OnSome result (0 < pool.count) }
    ensures height { IfSome result (λ height. height ≡ (stake + pool.sum) / pool.count) }
{
    stake.checked_add(pool.sum)?.checked_div(pool.count)
}

/// The level of this height over the pool's members: what is left of the stake lies above it.
fn level_at(height: u64, stake: u64, pool: Pool<u64>) -> Level
    requires fits { stake + pool.sum < 2 ^ 64 }
    requires part { height * pool.count ≤ stake + pool.sum }
    ensures height { result.height ≡ height }
    ensures above { result.above + height * pool.count ≡ stake + pool.sum }
{
    let above = stake + pool.sum - height * pool.count;
    Level {
        height: u128::from(height),
        above: u128::from(above),
    }
}

/// The pool of the members to which the voter gives something.
fn backed_pool(row: &[Edge], supports: &[u128]) -> Option<Backed>
    requires { IsRow supports.now row.now }
    ensures sum { IfSome result (λ backed.
        backed.pool.sum ≡ sum (bases supports.now (above_zero row.now))) }
    ensures count { IfSome result (λ backed. backed.pool.count ≡ length (above_zero row.now)) }
    ensures highest { IfSome result (λ backed. All (λ edge. 0 < edge.amount
        → base_of supports.now edge ≤ backed.pool.highest) row.now) }
    ensures others { IfSome result (λ backed. All (λ edge. edge.amount ≡ 0
        → backed.others ≤ base_of supports.now edge) row.now) }
{
    let mut pool: Pool<u64> = Pool {
        sum: 0,
        count: 0,
        highest: 0,
    };
    let mut others = u64::MAX;
    for edge in row {
        let support = u64::try_from(supports[usize::from(edge.target)]).ok()?;
        if edge.amount > 0 {
            let base = support - edge.amount;
            pool.sum = pool.sum.checked_add(base)?;
            pool.count += 1;
            pool.highest = pool.highest.max(base);
        } else {
            others = others.min(support);
        }
    }
    Some(Backed { pool, others })
}

/// The pool of the members whose bases are at most `cap`, in numbers of 64 bits.
fn short_pool(cap: u64, row: &[Edge], supports: &[u128]) -> Option<Pool<u64>>
    requires { IsRow supports.now row.now }
    ensures sum { IfSome result (λ pool.
        pool.sum ≡ sum (low cap (bases supports.now row.now))) }
    ensures count { IfSome result (λ pool.
        pool.count ≡ length (low cap (bases supports.now row.now))) }
    ensures highest { IfSome result (λ pool.
        All (λ base. base ≤ pool.highest) (low cap (bases supports.now row.now))) }
    ensures within { IfSome result (λ pool. pool.highest ≤ cap) }
{
    let mut pool: Pool<u64> = Pool {
        sum: 0,
        count: 0,
        highest: 0,
    };
    for edge in row {
        let support = u64::try_from(supports[usize::from(edge.target)]).ok()?;
        let base = support - edge.amount;
        if base <= cap {
            pool.sum = pool.sum.checked_add(base)?;
            pool.count += 1;
            pool.highest = pool.highest.max(base);
        }
    }
    Some(pool)
}

/// The level in numbers of 128 bits, from the pool of all members. Only weights that give far more
/// than the stakes need it, and a voter that backs no one.
#[inline(never)]
fn wide_level(stake: u64, row: &[Edge], supports: &[u128]) -> Level
    requires row { IsRow supports.now row.now }
    requires some { 1 ≤ length row.now }
    ensures { IsLevel stake (bases supports.now row.now) result.height result.above }
{
    let mut pool = pool_within(u128::MAX, row, supports);
    let mut height = (u128::from(stake) + pool.sum) / pool.count;
    while height < pool.highest {
        pool = pool_within(height, row, supports);
        height = (u128::from(stake) + pool.sum) / pool.count;
    }
    let above = u128::from(stake) + pool.sum - height * pool.count;
    Level { height, above }
}

/// The pool of the members whose bases are at most `cap`.
fn pool_within(cap: u128, row: &[Edge], supports: &[u128]) -> Pool<u128>
    requires { IsRow supports.now row.now }
    ensures sum { result.sum ≡ sum (low cap (bases supports.now row.now)) }
    ensures count { result.count ≡ length (low cap (bases supports.now row.now)) }
    ensures highest { All (λ base. base ≤ result.highest) (low cap (bases supports.now row.now)) }
    ensures within { result.highest ≤ cap }
    ensures small { result.sum ≤ result.count * 2 ^ 100 }
    ensures few { result.count ≤ length row.now }
{
    let mut pool = Pool {
        sum: 0,
        count: 0,
        highest: 0,
    };
    for edge in row {
        let base = supports[usize::from(edge.target)] - u128::from(edge.amount);
        if base <= cap {
            pool.sum += base;
            pool.count += 1;
            pool.highest = pool.highest.max(base);
        }
    }
    pool
}

/// Gives each member what is missing to the level, and a unit more to the first ones that it covers
/// while there are units above the height. Tells whether an amount changed.
#[inline(never)]
fn hand_out(level: Level, row: &mut [Edge], supports: &mut [u128]) -> bool
    requires row { IsRow supports.old row.old }
    requires fits { All (λ base. base ≤ level.height
        → level.height - base + min level.above 1 < 2 ^ 64) (bases supports.old row.old) }
    ensures alike { AreAlike row.old row.new }
    ensures moved { AreMoved row.old row.new supports.old supports.new }
    ensures amounts { amounts row.new
        ≡ filled level.height level.above (bases supports.old row.old) }
    ensures changed { result ≡ differs (amounts row.old) (amounts row.new) }
{
    let mut left = level;
    let mut changed = false;
    for i in 0..row.len() {
        let edge = row[i];
        let place = usize::from(edge.target);
        let base = supports[place] - u128::from(edge.amount);
        let amount = raise(base, &mut left);
        supports[place] = base + u128::from(amount);
        row[i].amount = amount;
        changed |= amount != edge.amount;
    }
    changed
}

/// What a base is raised by, where so much of the level is left to hand out.
fn raise(base: u128, left: &mut Level) -> u64
    requires { base ≤ left.old.height
        → left.old.height - base + min left.old.above 1 < 2 ^ 64 }
    ensures amount { result ≡ cond (nat_le base left.old.height)
        (left.old.height - base + min left.old.above 1) 0 }
    ensures height { left.new.height ≡ left.old.height }
    ensures above { left.new.above ≡ cond (nat_le base left.old.height)
        (left.old.above - min left.old.above 1) left.old.above }
{
    if base > left.height {
        return 0;
    }
    let extra = left.above.min(1);
    left.above -= extra;
    (left.height - base + extra) as u64
}

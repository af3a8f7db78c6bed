// Who subscribes to a box type: beside a plan an index, in lent memory. Rows 0 to 31 are the types in the source region, rows 32 to 63 the types in the target region. A row has the addresses that subscribe to the type
// there, ascending, then 0 in every place that is left of 256, and in its last place how many they are. C lends it so (`dfc_index_build`).
#![tactic(auto)]

ghost use Rattle.std.specs.Prelude.{◌≡◌, ◌&&◌, List, [], ℕ, ◌<◌, ◌≤◌, min, length, get_or, take, replicate};
ghost use Rattle.lists.specs.Lists.{keep};
ghost use Rattle.index.specs.Index.{row, tab, looked_up, row_or, resubscribed, changed};
ghost use Rattle.index.specs.Steps.{wants, members, upon, with_one_more, ends_at, all_go_on, owing, differing};
ghost use Rattle.index.specs.Said.{said_with, sets_fit, matches, built_by, left_by, built, left, updated_by, plan_by, index_by, updated, plan_after, index_after};

use plan::{Plan, Region, Subscriber, Types};
use refusal::Refusal;
use std::cmp::min;
use typeset::Members;

// ---- building: one pass through the subscribers

// How many of 256 places a count says are in use: no more than there are.
fn used(count: u32) -> usize
    ensures { (result ≡ min count 256) × (result ≤ 256) }
{
    min(count as usize, 256)
}

// One address more in a row.
#[tactic(auto, unfolding(crate::specs::Steps::with_one_more))]
fn add(row: &mut [u32; 257], address: u32)
    ensures { row.new ≡ with_one_more address row.old }
{
    let n = row[256];
    if n < 256 {
        row[n as usize] = address;
        row[256] = n + 1;
    }
}

// One address more in the rows of the types of a set. `first` is 0 or 32: the rows of a region go by number, as those of the index do.
fn enter(index: &mut [[u32; 257]; 64], first: usize, types: u32, address: u32)
    requires { first ≤ 32 }
    ensures { index.new ≡ upon first types (λ k. with_one_more address) index.old }
{
    for t in Members::of(types) {
        add(&mut index[first + t as usize], address);
    }
}

// Every row of the index of some subscribers.
fn fill(subscribers: &[Subscriber], index: &mut [[u32; 257]; 64])
    requires { length subscribers.now ≤ 256 }
    ensures { index.new ≡ tab 64 (λ k. row (members k subscribers.now)) }
{
    *index = [[0u32; 257]; 64];
    for s in subscribers {
        enter(index, 0, s.source, s.address);
        enter(index, 32, s.target, s.address);
    }
}

// Building, after the test: `kept` says whether the plan is sound. Nothing else is taken on trust. It is public, since the archive is another crate, and README and DECISIONS ("A verdict that the caller has, again") name it; with `true` for an unsound plan 23 is not answered.
pub fn build_tested(kept: bool, plan: Plan, index: &mut [[u32; 257]; 64]) -> Result<(), Refusal>
    ensures { (result ≡ built_by kept) × (index.new ≡ left_by kept plan index.old) }
{
    if kept {
        let count = used(plan.count.into());
        fill(&plan.subscribers[..count], index);
        Ok(())
    } else {
        Err(Refusal::RuleBroken(0))
    }
}

// Builds the index of any plan; 23, and nothing changed, for a plan that breaks a rule.
pub fn build(plan: Plan, index: &mut [[u32; 257]; 64]) -> Result<(), Refusal>
    ensures { (result ≡ built plan) × (index.new ≡ left plan index.old) }
{
    let kept = soundness::sound(plan);
    build_tested(kept, plan, index)
}

// ---- the look-up

// The first n places of a row.
fn part(row: &[u32], n: usize) -> &[u32]
    ensures { result.now ≡ take n row.now }
{
    &row[..min(n, row.len())]
}

// The row of a type in a region; row 0 for a type above 31, which has none.
pub fn row_for(region: Region, of_type: u32) -> usize
    ensures { (result ≡ row_or region of_type) × (result < 64) }
{
    if of_type < 32 {
        let t = of_type as usize;
        match region {
            Region::Source => t,
            Region::Target => 32 + t,
        }
    } else {
        0
    }
}

// The subscribers of a type in a region: a part of the lent index, as long as they are many. Nothing for a type above 31; at most 256 places, whatever the memory holds.
pub fn look(index: &[[u32; 257]; 64], region: Region, of_type: u32) -> &[u32]
    ensures { result.now ≡ looked_up index.now region of_type }
{
    if of_type < 32 {
        let k = row_for(region, of_type);
        let n = used(index[k][256]);
        return part(&index[k], n);
    }
    part(&index[0], 0)
}

// ---- a change of one subscriber's sets

// Whether the new sets lie within the choices, and a reversible type is in both or in neither.
fn sets_fit(types: Types, source: u32, target: u32) -> bool
    ensures { result ≡ sets_fit types source target }
{
    typeset::within(source, types.source_choice)
        & typeset::within(target, types.target_choice)
        & (typeset::meet(types.reversible, source) == typeset::meet(types.reversible, target))
}

// Whether the row has 0 from the place n on, and n in its last place. Every place is looked at, without a branch for each.
fn ends_at(row: &[u32; 257], n: usize) -> bool
    ensures { result ≡ ends_at n row.now }
{
    let past = &row[min(n, 256)..256];
    let mut blank = true;
    for place in past {
        blank &= *place == 0;
    }
    blank & (row[256] as usize == n)
}

// Whether the rows of the types of a set go on with the address, each from the place that it has been met up to.
fn goes_on(
    index: &[[u32; 257]; 64],
    met: &mut [usize; 64],
    first: usize,
    types: u32,
    address: u32,
) -> bool
    requires { (first ≤ 32) × (length met.old ≡ 64) }
    ensures { (length met.new ≡ 64)
        × ((rest : ℕ → List ℕ) → (result && all_go_on met.new index.now rest) ≡ all_go_on met.old index.now (owing first types address rest)) }
{
    for t in Members::of(types) {
        let k = first + t as usize;
        let n = met[k];
        if 256 <= n {
            return false;
        }
        if index[k][n] != address {
            return false;
        }
        met[k] = n + 1;
    }
    true
}

// Whether each row ends where it has been met up to.
fn all_end(index: &[[u32; 257]; 64], met: &[usize; 64]) -> bool
    ensures { result ≡ all_go_on met.now index.now (λ k. []) }
{
    index.iter().zip(met).all(|(row, n)| ends_at(row, *n))
}

// Whether the index is that of some subscribers.
fn matches(subscribers: &[Subscriber], index: &[[u32; 257]; 64]) -> bool
    ensures { result ≡ all_go_on (replicate 64 0) index.now (λ k. members k subscribers.now) }
{
    let mut met = [0usize; 64];
    for s in subscribers {
        if !goes_on(index, &mut met, 0, s.source, s.address) {
            return false;
        }
        if !goes_on(index, &mut met, 32, s.target, s.address) {
            return false;
        }
    }
    all_end(index, &met)
}

// The types that are in one of two sets only.
#[tactic(auto, unfolding(crate::specs::Steps::differing))]
fn differing(a: u32, b: u32) -> u32
    ensures { result ≡ differing a b }
{
    typeset::join(typeset::minus(a, b), typeset::minus(b, a))
}

// Whether the subscriber is in row k.
#[tactic(auto, unfolding(crate::specs::Steps::wants))]
fn wants(k: usize, s: Subscriber) -> bool
    requires { k < 64 }
    ensures { result ≡ wants k s }
{
    if k < 32 {
        typeset::has(s.source, k as u32)
    } else {
        typeset::has(s.target, k as u32 - 32)
    }
}

// Row k of some subscribers, made anew.
fn remake(list: &mut [u32; 257], subscribers: &[Subscriber], k: usize)
    requires { (length subscribers.now ≤ 256) × (k < 64) }
    ensures { list.new ≡ row (members k subscribers.now) }
{
    *list = [0u32; 257];
    for s in subscribers {
        if wants(k, *s) {
            add(list, s.address);
        }
    }
}

// The rows of the types of a set made anew; no other is stored into.
fn renew(index: &mut [[u32; 257]; 64], first: usize, types: u32, subscribers: &[Subscriber])
    requires { (first ≤ 32) × (length subscribers.now ≤ 256) }
    ensures { index.new ≡ upon first types (λ k l. row (members k subscribers.now)) index.old }
{
    for t in Members::of(types) {
        let k = first + t as usize;
        remake(&mut index[k], subscribers, k);
    }
}

// The plan with other sets of the subscriber at place i.
#[tactic(auto, unfolding(crate::specs::Index::changed))]
fn changed(plan: Plan, i: usize, source: u32, target: u32) -> Plan
    requires { i < 256 }
    ensures { result ≡ changed plan i source target }
{
    let mut q = plan;
    let mut s = q.subscribers[i];
    s.source = source;
    s.target = target;
    q.subscribers[i] = s;
    q
}

// 64 rows have 257 places each: it only shows that; compiled, nothing is left of it.
fn long(row: &[u32; 257])
    ensures { length row.now ≡ 257 }
{}

fn shaped(rows: &[[u32; 257]; 64])
    ensures { (k : ℕ) → k < 64 → length (get_or rows.now k []) ≡ 257 }
{
    for row in rows {
        long(row);
    }
}

// Updating, after the test: `kept` says whether the plan is sound. Nothing else is taken on trust. It is public, since the archive is another crate, and README and DECISIONS ("A verdict that the caller has, again") name it; with `true` for an unsound plan 23 is not answered.
pub fn update_tested(
    kept: bool,
    plan: Plan,
    index: &mut [[u32; 257]; 64],
    address: u32,
    source: u32,
    target: u32,
) -> Result<Plan, Refusal>
    ensures { (result ≡ said_with (updated_by kept plan address source target index.old) (plan_by kept plan address source target index.old))
        × (index.new ≡ index_by kept plan address source target index.old) }
{
    if !kept {
        return Err(Refusal::RuleBroken(0));
    }
    let Some(i) = plan::find(plan, address) else {
        return Err(Refusal::NotInPlan);
    };
    if !sets_fit(plan.types, source, target) {
        return Err(Refusal::SetsBreakRule);
    }
    shaped(index);
    let count = used(plan.count.into());
    if !matches(&plan.subscribers[..count], index) {
        return Err(Refusal::OtherIndex);
    }
    let old = plan.subscribers[i];
    let q = changed(plan, i, source, target);
    let after = &q.subscribers[..count];
    renew(index, 0, differing(old.source, source), after);
    renew(index, 32, differing(old.target, target), after);
    Ok(q)
}

// Gives the subscriber of an address other sets, in the plan that comes back and in the lent index. On a refusal the caller still has the plan that it gave.
pub fn update(
    plan: Plan,
    index: &mut [[u32; 257]; 64],
    address: u32,
    source: u32,
    target: u32,
) -> Result<Plan, Refusal>
    ensures { (result ≡ said_with (updated plan address source target index.old) (plan_after plan address source target index.old))
        × (index.new ≡ index_after plan address source target index.old) }
{
    let kept = soundness::sound(plan);
    update_tested(kept, plan, index, address, source, target)
}

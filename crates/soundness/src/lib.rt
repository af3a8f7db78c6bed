// The test of a whole plan: every subscriber beside those before it, with a table of the box numbers that are taken, and the places that are not in use. What each function says is in the crate `plan`.
#![tactic(auto)]

ghost use Rattle.std.specs.Prelude.{◌≡◌, ◌&&◌, cond, ◌-◌, ◌*◌, ◌%◌, ◌<◌, ◌≤◌, eqb, length, get_or, replicate, Some, None};
ghost use Rattle.refusal.specs.Numbers.{number_said, place_said};
ghost use Rattle.typeset.specs.Sets.{every};
ghost use Rattle.plan.specs.Rules.{blank, rest_blank};
ghost use Rattle.plan.specs.Sound.{own_sound, subscriber_sound, sound, verdict};
ghost use Rattle.plan.specs.Table.{holder, entered, may_take, fits, claimed};
ghost use Rattle.plan.specs.Steps.{above};

use plan::{Plan, Subscriber, Types};
use refusal::Refusal;
use std::cmp::min;

// ---- the table of the box numbers that are taken

// Where the two bits of a number begin in its word.
fn bits_of(n: u16) -> u32
    ensures { (result ≡ n % 16 * 2) × (result ≤ 30) }
{
    u32::from(n % 16) * 2
}

// The kind that has the number n.
#[tactic(auto, unfolding(plan::specs::Table::holder))]
fn holder(taken: &[u32; 4096], n: u16) -> u8
    ensures { result ≡ holder taken.now n }
{
    let word = taken[n as usize / 16];
    ((word >> bits_of(n)) % 4) as u8
}

// Whether a kind may have the number n: nobody has it, or only others of the kind, which are no lines. Who has it is not to be foreseen, so there is no branch.
#[tactic(auto, unfolding(plan::specs::Table::may_take))]
fn may_take(taken: &[u32; 4096], kind: u8, n: u16) -> bool
    ensures { result ≡ may_take taken.now kind n }
{
    let holder = holder(taken, n);
    (holder == 0) | rules::both(holder == kind, kind != 1)
}

// Whether a subscriber may have its box numbers beside those that are taken. A line has one number and a mobile none; two or more are looked up all at once, without a branch for
// each.
pub fn fits(taken: &[u32; 4096], s: Subscriber) -> bool
    ensures { result ≡ fits taken.now s }
{
    let Subscriber {
        kind,
        boxes,
        count,
        ..
    } = s;
    if count == 0 {
        return true;
    }
    if count == 1 {
        return may_take(taken, kind, boxes[0]);
    }
    let two = may_take(taken, kind, boxes[0]) & may_take(taken, kind, boxes[1]);
    if count == 2 {
        return two;
    }
    let three = two & may_take(taken, kind, boxes[2]);
    if count == 3 {
        return three;
    }
    three & may_take(taken, kind, boxes[3])
}

// A kind enters itself at a number, where nobody is, or only its own kind.
#[tactic(auto, unfolding(plan::specs::Table::entered))]
fn take_number(taken: &mut [u32; 4096], kind: u8, n: u16)
    ensures { taken.new ≡ entered taken.old n kind }
{
    let i = n as usize / 16;
    let word = taken[i];
    taken[i] = typeset::join(word, u32::from(kind) << bits_of(n));
}

// Marks the subscriber's box numbers as taken. Lines, trunks and resources have some; mobiles have none.
pub fn claim(taken: &mut [u32; 4096], s: Subscriber)
    ensures { taken.new ≡ claimed taken.old s }
{
    let numbers = &s.boxes[..min(s.count as usize, 4)];
    for n in numbers {
        take_number(taken, s.kind, *n);
    }
}

// ---- the whole plan

// L19: whether the address at place i comes after the one before it, which the first place has not.
#[tactic(auto, unfolding(plan::specs::Steps::above))]
pub fn above(i: usize, before: u32, address: u32) -> bool
    ensures { result ≡ above i before address }
{
    i == 0 || before < address
}

// Whether the subscriber at place i keeps its rules beside those before it, whose numbers are taken.
fn joins(t: Types, i: usize, before: u32, s: Subscriber, taken: &[u32; 4096]) -> bool
    ensures test { result ≡ (own_sound t s && above i before s.address && fits taken.now s) }
    ensures places { length s.boxes ≡ 4 }
{
    rules::own_sound(t, s) && above(i, before, s.address) && fits(taken, s)
}

// Whether the first count subscribers keep their rules: one pass through them, with a table of the numbers that those passed have.
fn subscribers_sound(t: Types, subscribers: &[Subscriber; 256], count: usize) -> bool
    requires { count ≤ 256 }
    ensures { result ≡ every count (subscriber_sound t subscribers.now) }
{
    let mut taken = [0u32; 4096];
    let mut before = 0u32;
    let in_use = &subscribers[..count];
    for (i, s) in in_use.iter().enumerate() {
        if !joins(t, i, before, *s, &taken) {
            return false;
        }
        claim(&mut taken, *s);
        before = s.address;
    }
    true
}

// Whether everything in a place is 0.
#[tactic(auto, unfolding(plan::specs::Rules::blank))]
fn blank(s: Subscriber) -> bool
    ensures { result ≡ blank s }
{
    s.kind == 0
        && s.address == 0
        && s.source == 0
        && s.target == 0
        && s.count == 0
        && no_numbers(s.boxes)
}

fn no_numbers(boxes: [u16; 4]) -> bool
    ensures { result ≡ every 4 (λ x. eqb (get_or boxes x 0) 0) }
{
    boxes == [0; 4]
}

// L20: whether the places past the count of subscribers are blank.

fn rest_blank(subscribers: &[Subscriber; 256], count: usize) -> bool
    requires { count ≤ 256 }
    ensures { result ≡ rest_blank subscribers.now count }
{
    // By number, so that the line says which place is the last.
    (count..256usize).all(|i| blank(subscribers[i]))
}

// Whether the plan keeps every rule.
#[tactic(auto, unfolding(plan::specs::Sound::sound))]
pub fn sound(plan: Plan) -> bool
    ensures { result ≡ sound plan }
{
    let count = plan.count as usize;
    count <= 256
        && rules::types_sound(plan.types)
        && rules::source_sound(plan.types, &plan.source_order)
        && rules::target_sound(plan.types, &plan.source_order, &plan.target_order)
        && subscribers_sound(plan.types, &plan.subscribers, count)
        && rest_blank(&plan.subscribers, count)
}

// The test of any plan in memory: sound, or 23 at place 0.
#[tactic(auto, unfolding(plan::specs::Sound::verdict))]
pub fn check(plan: Plan) -> Result<(), Refusal>
    ensures value { result ≡ verdict plan }
    ensures numbered { (number_said result ≡ cond (sound plan) 0 23) × (place_said result ≡ cond (sound plan) None (Some 0)) }
{
    if sound(plan) {
        Ok(())
    } else {
        Err(Refusal::RuleBroken(0))
    }
}

// Any bytes read as a plan file: the plan, or the refusal of the first field at which they stop being one.
#![tactic(auto)]

ghost use Rattle.std.specs.Prelude.{◌≡◌, true, ◌&&◌, cond, List, ◌++◌, ℕ, ◌+◌, ◌*◌, ◌-◌, ◌%◌, ◌≤◌, ◌<◌, leb, ltb, eqb, length, take, drop, replicate, is_ok};
ghost use Rattle.plan.specs.Rules.{boxes_blank};
ghost use Rattle.refusal.specs.Numbers.{number_said, place_said};
ghost use Rattle.plan.specs.Sound.{own_sound};
ghost use Rattle.plan.specs.Table.{fits};
ghost use Rattle.planbytes.specs.Numbers.{number, numbers};
ghost use Rattle.planread.specs.Reading.{plan_of, blank_plan, types_in, order_in, subscriber_with, allowed, ever_long, header, ended, read_from, read_of};
ghost use Rattle.plan.specs.Parts.{no_subscriber};
ghost use Rattle.planread.specs.Said.{number_read, place_read};
ghost use Rattle.planread.specs.Scanning.{onward, scanned, judged, sighted};
ghost use Rattle.plan.specs.declared.Types.{Types};

use plan::{Plan, Seen, Subscriber, Types};
use refusal::Refusal;

// What the four fixed fields say.
#[derive(Clone, Copy)]
struct Head {
    types: Types,
    source: [u32; 32],
    target: [u32; 32],
}

// ---- numbers, high byte first. Bytes and place go together: a refusal names the place in the whole file.

// The number of two bytes at a place.
fn two(bytes: &[u8], at: usize) -> u16
    requires { at + 2 ≤ length bytes.now }
    ensures { result ≡ number (take 2 (drop at bytes.now)) }
{
    u16::from_be_bytes([bytes[at], bytes[at + 1]])
}

// The number of four bytes at a place.
fn four(bytes: &[u8], at: usize) -> u32
    requires { at + 4 ≤ length bytes.now }
    ensures { result ≡ number (take 4 (drop at bytes.now)) }
{
    u32::from_be_bytes([bytes[at], bytes[at + 1], bytes[at + 2], bytes[at + 3]])
}

// ---- what the body of a field says, from the place where it begins

// The five sets, four bytes each.
fn types_at(bytes: &[u8], at: usize) -> Types
    requires { at + 20 ≤ length bytes.now }
    ensures { result ≡ types_in (drop at bytes.now) }
{
    Types {
        existing: four(bytes, at),
        bound: four(bytes, at + 4),
        reversible: four(bytes, at + 8),
        source_choice: four(bytes, at + 12),
        target_choice: four(bytes, at + 16),
    }
}

// The 32 rows of an order. (By `from_fn` it was tried, and its proof didn't close.)
fn order_at(bytes: &[u8], at: usize) -> [u32; 32]
    requires { at + 128 ≤ length bytes.now }
    ensures { result ≡ order_in (drop at bytes.now) }
{
    let mut rows = [0u32; 32];
    for t in 0usize..32usize {
        rows[t] = four(bytes, at + 4 * t);
    }
    rows
}

// A subscriber's box number at place x, or zero past its count.
fn box_at(bytes: &[u8], at: usize, count: usize, x: usize) -> u16
    requires { (count ≤ 4) × (x < 4) × (at + 2 * count ≤ length bytes.now) }
    ensures { result ≡ cond (ltb x count) (number (take 2 (drop (at + 2 * x) bytes.now))) 0 }
{
    if x < count { two(bytes, at + 2 * x) } else { 0 }
}

// A subscriber's box numbers, and zero in the places past them. The four are had one by one: an array that is stored to place by place and then copied whole is slow.
fn boxes_at(bytes: &[u8], at: usize, count: usize) -> [u16; 4]
    requires { (count ≤ 4) × (at + 2 * count ≤ length bytes.now) }
    ensures { result ≡ numbers 2 count (drop at bytes.now) ++ replicate (4 - count) 0 }
{
    let first = box_at(bytes, at, count, 0);
    let second = box_at(bytes, at, count, 1);
    let third = box_at(bytes, at, count, 2);
    let fourth = box_at(bytes, at, count, 3);
    [first, second, third, fourth]
}

// A subscriber that has this many box numbers.
fn subscriber_at(bytes: &[u8], at: usize, count: usize) -> Subscriber
    requires { (count ≤ 4) × (at + 13 + 2 * count ≤ length bytes.now) }
    ensures { result ≡ subscriber_with count (drop at bytes.now) }
{
    let boxes = boxes_at(bytes, at + 13, count);
    Subscriber {
        kind: bytes[at],
        address: four(bytes, at + 1),
        source: four(bytes, at + 5),
        target: four(bytes, at + 9),
        boxes,
        count: count as u8,
    }
}

// ---- the tests at a field

// Whether a tag is allowed after this many of the four fixed fields. Tags stay numbers: any byte may stand there, and 21 says so.
#[tactic(auto, unfolding(crate::specs::Reading::allowed))]
fn allowed(stage: u8, tag: u8) -> bool
    requires { stage ≤ 4 }
    ensures { result ≡ allowed stage tag }
{
    if stage < 4 {
        tag == stage + 1
    } else {
        tag == 5 || tag == 127
    }
}

// Whether a subscriber's field ever has this length.
fn subscriber_long(n: u16) -> bool
    ensures { result ≡ (leb 13 n && leb n 21 && eqb (n % 2) 1) }
{
    13 <= n && n <= 21 && n % 2 == 1
}

// Whether a field with this tag ever has this length.
#[tactic(auto, unfolding(crate::specs::Reading::ever_long))]
fn ever_long(tag: u8, n: u16) -> bool
    ensures { result ≡ ever_long tag n }
{
    match tag {
        1 => n == 1,
        2 => n == 20,
        3 | 4 => n == 128,
        5 => subscriber_long(n),
        _ => n == 0,
    }
}

// Whether a field with this tag, after so many subscribers, is one subscriber too many.
fn too_many(tag: u8, count: usize) -> bool
    ensures { result ≡ (eqb tag 5 && leb 256 count) }
{
    tag == 5 && 256 <= count
}

// The tests at a field that come before its rules.
fn header(bytes: &[u8], stage: u8, count: usize, at: usize) -> Result<(), Refusal>
    requires { (stage ≤ 4) × (at ≤ length bytes.now) }
    ensures { result ≡ header stage count at (drop at bytes.now) }
{
    let left = bytes.len() - at;
    if left < 3 {
        return Err(Refusal::WrongEnd(at));
    }
    let tag = bytes[at];
    if !allowed(stage, tag) {
        return Err(Refusal::WrongTag(at));
    }
    if too_many(tag, count) {
        return Err(Refusal::TooManySubscribers(at));
    }
    let n = two(bytes, at + 1);
    if !ever_long(tag, n) {
        return Err(Refusal::WrongLength(at));
    }
    if left < 3 + usize::from(n) {
        return Err(Refusal::WrongEnd(at));
    }
    Ok(())
}

// ---- the file

// What comes after the end field: nothing, and then the value is answered, or bytes too many.
fn finish<T: Copy>(bytes: &[u8], at: usize, value: T) -> Result<T, Refusal>
    ensures { result ≡ ended value at (drop at bytes.now) }
{
    if at < bytes.len() {
        return Err(Refusal::WrongEnd(at));
    }
    Ok(value)
}

// Whether a subscriber keeps its rules beside those before it: an address above the last one's, and box numbers that it may have.
fn beside(s: Subscriber, last: u32, taken: &[u32; 4096]) -> bool
    ensures { result ≡ (ltb last s.address && fits taken.now s) }
{
    last < s.address && soundness::fits(taken, s)
}

// Whether a subscriber keeps its own rules, its number of boxes among them, and those beside the ones before it. The zeros past its numbers are the reader's own, and are not
// tested again.
fn keeps(types: Types, s: Subscriber, last: u32, taken: &[u32; 4096]) -> bool
    requires { boxes_blank s ≡ true }
    ensures { result ≡ (own_sound types s && ltb last s.address && fits taken.now s) }
{
    rules::listed_sound(types, s) && beside(s, last, taken)
}

// The fields after the four fixed ones: a subscriber at each turn, until the end field. Nobody has a box number to begin with; the table of those that are given is made here,
// since a table lent by the caller is cleared twice where the compiler takes this function into it.
fn read_subscribers(bytes: &[u8], head: Head) -> Result<Plan, Refusal>
    requires { 289 ≤ length bytes.now }
    ensures { result ≡ read_from 257 4 (plan_of head.types head.source head.target (replicate 256 no_subscriber) 0) 289 (drop 289 bytes.now) }
{
    let source = head.source;
    let target = head.target;
    let mut taken = [0u32; 4096];
    let empty = plan::no_subscriber();
    let mut subscribers = [empty; 256];
    let mut count = 0usize;
    let mut last = 0u32;
    let mut at = 289usize;
    loop {
        header(bytes, 4, count, at)?;
        if bytes[at] == 127 {
            let plan = Plan {
                types: head.types,
                source_order: source,
                target_order: target,
                subscribers,
                count: count as u16,
            };
            return finish(bytes, at + 3, plan);
        }
        let n = two(bytes, at + 1) as usize;
        let s = subscriber_at(bytes, at + 3, (n - 13) / 2);
        if !keeps(head.types, s, last, &taken) {
            return Err(Refusal::RuleBroken(at));
        }
        soundness::claim(&mut taken, s);
        subscribers[count] = s;
        last = s.address;
        count += 1;
        at = at + (3 + n);
    }
}

// From the target order on.
fn fixed_target(bytes: &[u8], types: Types, source: [u32; 32]) -> Result<Head, Refusal>
    requires { 158 ≤ length bytes.now }
    ensures { (onward result bytes.now ≡ read_from 258 3 (plan_of types source (replicate 32 0) (replicate 256 no_subscriber) 0) 158 (drop 158 bytes.now))
        × (is_ok result ≡ true → 289 ≤ length bytes.now) }
{
    header(bytes, 3, 0, 158)?;
    let target = order_at(bytes, 161);
    if !rules::target_sound(types, &source, &target) {
        return Err(Refusal::RuleBroken(158));
    }
    Ok(Head {
        types,
        source,
        target,
    })
}

// From the source order on.
fn fixed_source(bytes: &[u8], types: Types) -> Result<Head, Refusal>
    requires { 27 ≤ length bytes.now }
    ensures { (onward result bytes.now ≡ read_from 259 2 (plan_of types (replicate 32 0) (replicate 32 0) (replicate 256 no_subscriber) 0) 27 (drop 27 bytes.now))
        × (is_ok result ≡ true → 289 ≤ length bytes.now) }
{
    header(bytes, 2, 0, 27)?;
    let source = order_at(bytes, 30);
    if !rules::source_sound(types, &source) {
        return Err(Refusal::RuleBroken(27));
    }
    fixed_target(bytes, types, source)
}

// From the five sets on.
fn fixed_types(bytes: &[u8]) -> Result<Head, Refusal>
    requires { 4 ≤ length bytes.now }
    ensures { (onward result bytes.now ≡ read_from 260 1 blank_plan 4 (drop 4 bytes.now))
        × (is_ok result ≡ true → 289 ≤ length bytes.now) }
{
    header(bytes, 1, 0, 4)?;
    let types = types_at(bytes, 7);
    if !rules::types_sound(types) {
        return Err(Refusal::RuleBroken(4));
    }
    fixed_source(bytes, types)
}

// The four fixed fields of any bytes: reading on from them is reading the file.
fn fixed(bytes: &[u8]) -> Result<Head, Refusal>
    ensures { (onward result bytes.now ≡ read_of bytes.now)
        × (is_ok result ≡ true → 289 ≤ length bytes.now) }
{
    header(bytes, 0, 0, 0)?;
    if bytes[3] != 1 {
        return Err(Refusal::RuleBroken(0));
    }
    fixed_types(bytes)
}

// Any bytes: the plan whose file they are, or the refusal of the first field at which they stop being one.
pub fn read(bytes: &[u8]) -> Result<Plan, Refusal>
    ensures value { result ≡ read_of bytes.now }
    ensures numbered { (number_said result ≡ number_read bytes.now) × (place_said result ≡ place_read bytes.now) }
{
    let head = fixed(bytes)?;
    read_subscribers(bytes, head)
}

// ---- what the plan of a file shows, without the plan

// The fields after the four fixed ones, as in `read_subscribers`; of the subscribers only those of the two addresses are kept. The orders are not asked here: whoever calls has them.
// The two loops stay two: as one with a closure for what is kept it would promise a fold, and each of the two promises would need a law of its own to say what the fold holds.
fn pass_subscribers(
    bytes: &[u8],
    types: Types,
    first: u32,
    second: u32,
) -> Result<(Subscriber, Subscriber), Refusal>
    requires { 289 ≤ length bytes.now }
    ensures { (source target : List ℕ) → sighted result types source target
        ≡ scanned first second (read_from 257 4 (plan_of types source target (replicate 256 no_subscriber) 0) 289 (drop 289 bytes.now)) }
{
    let mut taken = [0u32; 4096];
    let mut one = plan::no_subscriber();
    let mut other = plan::no_subscriber();
    let mut count = 0usize;
    let mut before = 0u32;
    let mut at = 289usize;
    loop {
        header(bytes, 4, count, at)?;
        if bytes[at] == 127 {
            return finish(bytes, at + 3, (one, other));
        }
        let n = two(bytes, at + 1) as usize;
        let s = subscriber_at(bytes, at + 3, (n - 13) / 2);
        if !keeps(types, s, before, &taken) {
            return Err(Refusal::RuleBroken(at));
        }
        soundness::claim(&mut taken, s);
        if s.address == first {
            one = s;
        }
        if s.address == second {
            other = s;
        }
        before = s.address;
        count += 1;
        at = at + (3 + n);
    }
}

// What the plan whose file any bytes are shows of two addresses; or the refusal that reading them has.
pub fn scan(bytes: &[u8], first: u32, second: u32) -> Result<Seen, Refusal>
    ensures { result ≡ scanned first second (read_of bytes.now) }
{
    let head = fixed(bytes)?;
    let source_order = head.source;
    let target_order = head.target;
    let (first, second) = pass_subscribers(bytes, head.types, first, second)?;
    Ok(Seen {
        types: head.types,
        source_order,
        target_order,
        first,
        second,
    })
}

// Whether any bytes are a plan file; or the refusal that reading them has. Nothing of the plan is kept.
pub fn verdict(bytes: &[u8]) -> Result<(), Refusal>
    ensures value { result ≡ judged (read_of bytes.now) }
    ensures numbered { (number_said result ≡ number_read bytes.now) × (place_said result ≡ place_read bytes.now) }
{
    let types = fixed(bytes)?.types;
    pass_subscribers(bytes, types, 0, 0)?;
    Ok(())
}

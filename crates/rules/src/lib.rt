// The tests of a plan's rules one by one: of the five sets, of the two orders, and of a subscriber by itself. What each says is in the crate `plan`.
#![tactic(auto)]

ghost use Rattle.std.specs.Prelude.{◌≡◌, ◌&&◌, ◌<◌};
ghost use Rattle.plan.specs.Parts.{box_number};
ghost use Rattle.plan.specs.Rules.{types_exist, reversible_in_both, bound_in_both, kind_known, address_given, count_fits, numbers_given, sets_in_choices, reversible_twice, numbers_differ};
ghost use Rattle.plan.specs.Sound.{types_sound, source_sound, target_sound, boxes_sound, own_sound, listed_sound};
ghost use Rattle.plan.specs.Steps.{differs_from, differs_at, box_sound};

use plan::{Subscriber, Types};

// ---- the five sets

// L1
#[tactic(auto, unfolding(plan::specs::Rules::types_exist))]
fn types_exist(t: Types) -> bool
    ensures { result ≡ types_exist t }
{
    typeset::within(t.bound, t.existing)
        && typeset::within(t.reversible, t.existing)
        && typeset::within(t.source_choice, t.existing)
        && typeset::within(t.target_choice, t.existing)
}

// L6
#[tactic(auto, unfolding(plan::specs::Rules::reversible_in_both))]
fn reversible_in_both(t: Types) -> bool
    ensures { result ≡ reversible_in_both t }
{
    typeset::within(t.reversible, t.source_choice) && typeset::within(t.reversible, t.target_choice)
}

// L7
#[tactic(auto, unfolding(plan::specs::Rules::bound_in_both))]
fn bound_in_both(t: Types) -> bool
    ensures { result ≡ bound_in_both t }
{
    let both = typeset::meet(t.source_choice, t.target_choice);
    let bound = typeset::meet(t.bound, both);
    typeset::within(bound, t.reversible)
}

// Whether the five sets keep their rules.
#[tactic(auto, unfolding(plan::specs::Sound::types_sound))]
pub fn types_sound(t: Types) -> bool
    ensures { result ≡ types_sound t }
{
    types_exist(t) && reversible_in_both(t) && bound_in_both(t)
}

// ---- the orders

// Whether the source order keeps its rules, with the five sets.
#[tactic(auto, unfolding(plan::specs::Sound::source_sound))]
pub fn source_sound(t: Types, source: &[u32; 32]) -> bool
    ensures { result ≡ source_sound t source.now }
{
    order::order_sound(t.source_choice, source) && order::reversible_ordered(t.reversible, source)
}

// Whether the target order keeps its rules, with the five sets and the source order.
#[tactic(auto, unfolding(plan::specs::Sound::target_sound))]
pub fn target_sound(t: Types, source: &[u32; 32], target: &[u32; 32]) -> bool
    ensures { result ≡ target_sound t source.now target.now }
{
    order::order_sound(t.target_choice, target)
        && order::reversible_opposed(t.reversible, source, target)
}

// ---- a subscriber by itself

// L10
#[tactic(auto, unfolding(plan::specs::Rules::kind_known))]
fn kind_known(s: Subscriber) -> bool
    ensures { result ≡ kind_known s }
{
    1 <= s.kind && s.kind <= 4
}

// L11
#[tactic(auto, unfolding(plan::specs::Rules::address_given))]
fn address_given(s: Subscriber) -> bool
    ensures { result ≡ address_given s }
{
    plan::given(s.address)
}

// L12. The kinds are told apart by ranges: tests for one kind after the other are compiled to a jump through a table, which costs more.
#[tactic(auto, unfolding(plan::specs::Rules::count_fits))]
fn count_fits(s: Subscriber) -> bool
    ensures { result ≡ count_fits s }
{
    let Subscriber { kind, count, .. } = s;
    if kind < 2 {
        kind != 1 || count == 1
    } else if kind < 4 {
        count <= 4 && (kind != 3 || 0 < count)
    } else {
        kind != 4 || count == 0
    }
}

// L14
#[tactic(auto, unfolding(plan::specs::Rules::sets_in_choices))]
fn sets_in_choices(t: Types, s: Subscriber) -> bool
    ensures { result ≡ sets_in_choices t s }
{
    typeset::within(s.source, t.source_choice) && typeset::within(s.target, t.target_choice)
}

// L15
#[tactic(auto, unfolding(plan::specs::Rules::reversible_twice))]
fn reversible_twice(t: Types, s: Subscriber) -> bool
    ensures { result ≡ reversible_twice t s }
{
    let in_source = typeset::meet(t.reversible, s.source);
    let in_target = typeset::meet(t.reversible, s.target);
    in_source == in_target
}

// L16 at the places x and y.
#[tactic(auto, unfolding(plan::specs::Steps::differs_from))]
fn differs_from(s: Subscriber, x: usize, y: usize) -> bool
    requires { (x < 4) × (y < 4) }
    ensures { result ≡ differs_from s x y }
{
    s.count as usize <= x || s.boxes[x] != s.boxes[y]
}

// L16 at the place x. By number: each place before x is itself asked about.
#[tactic(auto, unfolding(plan::specs::Steps::differs_at))]
fn differs_at(s: Subscriber, x: usize) -> bool
    requires { x < 4 }
    ensures { result ≡ differs_at s x }
{
    (0usize..x).all(|y| differs_from(s, x, y))
}

// Whether a number of 16 bits can be a box number: 1 to 65,535.
fn box_number(n: u16) -> bool
    ensures { result ≡ box_number n }
{
    n != 0
}

// L13, L16 and L20 at the place x: a number of the subscriber's, or 0 past its count.
#[tactic(auto, unfolding(plan::specs::Steps::box_sound))]
fn box_sound(s: Subscriber, x: usize) -> bool
    requires { x < 4 }
    ensures { result ≡ box_sound s x }
{
    if x < s.count as usize {
        box_number(s.boxes[x]) && differs_at(s, x)
    } else {
        s.boxes[x] == 0
    }
}

// L13, L16 and L20 at each place. By number: the place is itself asked about, beside the count.
#[tactic(auto, unfolding(plan::specs::Sound::boxes_sound))]
fn boxes_sound(s: Subscriber) -> bool
    ensures { result ≡ boxes_sound s }
{
    (0usize..4).all(|x| box_sound(s, x))
}

// Whether a subscriber by itself keeps its rules, with the five sets.
#[tactic(auto, unfolding(plan::specs::Sound::own_sound))]
pub fn own_sound(t: Types, s: Subscriber) -> bool
    ensures { result ≡ own_sound t s }
{
    kind_known(s)
        & address_given(s)
        & count_fits(s)
        & sets_in_choices(t, s)
        & reversible_twice(t, s)
        & boxes_sound(s)
}

// Whether both hold. Both are worked out, so the compiler makes no branch: a branch would pass over the second test, and one that the machine guesses wrong costs more than the test. It stays beside `&`, since it is public and `soundness` calls it.
pub fn both(a: bool, b: bool) -> bool
    ensures { result ≡ (a && b) }
{
    a & b
}

// L13 and L16: each place has a number, and none that a place before it has. A line has one number and a mobile none; two or more are tested all at once, without a branch for each.
fn numbers_listed(s: Subscriber) -> bool
    ensures { result ≡ (numbers_given s && numbers_differ s) }
{
    let [first, second, third, fourth] = s.boxes;
    if s.count == 0 {
        return true;
    }
    if s.count == 1 {
        return box_number(first);
    }
    let two = box_number(first) & box_number(second) & (second != first);
    if s.count == 2 {
        return two;
    }
    let three = two & box_number(third) & (third != first) & (third != second);
    if s.count == 3 {
        return three;
    }
    three & box_number(fourth) & (fourth != first) & (fourth != second) & (fourth != third)
}

// As own_sound, for a reader that has put the zeros past the subscriber's count there itself: those places are not looked at.
#[tactic(auto, unfolding(plan::specs::Sound::listed_sound))]
pub fn listed_sound(t: Types, s: Subscriber) -> bool
    ensures { result ≡ listed_sound t s }
{
    kind_known(s)
        && address_given(s)
        && count_fits(s)
        && sets_in_choices(t, s)
        && reversible_twice(t, s)
        && numbers_listed(s)
}

// Sets of box types 0 to 31, as a 32-bit number: bit t for the type t.
#![tactic(auto)]

ghost use Rattle.std.specs.Prelude.{◌≡◌};
ghost use Rattle.std.specs.Iterator.{YieldsFirst, item_count};
ghost use Rattle.typeset.specs.Sets.{has, without, within, lowest, size, join, meet, minus, members};

// Whether the type t is in the set. No type above 31 is in any set.
#[tactic(auto, unfolding(crate::specs::Sets::has))]
pub fn has(set: u32, t: u32) -> bool
    ensures { result ≡ has t set }
{
    t < 32 && (set >> t) % 2 == 1
}

// The set without the type t.
pub fn without(set: u32, t: u32) -> u32
    ensures { result ≡ without set t }
{
    if t < 32 { set & !(1u32 << t) } else { set }
}

// Whether each type of the part is in the whole.
pub fn within(part: u32, whole: u32) -> bool
    ensures { result ≡ within part whole }
{
    part & whole == part
}

// The lowest type of the set, 32 where it is empty.
pub fn lowest(set: u32) -> u32
    ensures { result ≡ lowest set }
{
    set.trailing_zeros()
}

// How many types the set has.
pub fn size(set: u32) -> u32
    ensures { result ≡ size set }
{
    set.count_ones()
}

// The types of a and those of b.
pub fn join(a: u32, b: u32) -> u32
    ensures { result ≡ join a b }
{
    a | b
}

// The types of a that are not in b.
pub fn minus(a: u32, b: u32) -> u32
    ensures { result ≡ minus a b }
{
    a & !b
}

// The types that are in both a and b.
pub fn meet(a: u32, b: u32) -> u32
    ensures { result ≡ meet a b }
{
    a & b
}

// The types of a set that are still to come, the lowest first.
#[derive(Drop)]
pub struct Members {
    left: u32,
}

impl Members {
    pub fn of(set: u32) -> Members
        ensures { result.left ≡ set }
    {
        Members { left: set }
    }
}

impl Iterator for Members {
    type Item = u32;

    ghost next_gives = { YieldsFirst (λ s. members s.left) };

    ghost remaining = { item_count (λ s. members s.left) };

    fn next(&mut self) -> Option<u32> {
        let set = self.left;
        if set == 0 {
            return None;
        }
        // A set and the number before it have all their types in common but the set's lowest: so the next turn need not wait for this one's type.
        self.left = meet(set, set - 1);
        Some(lowest(set))
    }
}

// Orders of the 32 box types, as 32 rows of 32 bits: row a holds the types that a comes before.
#![tactic(auto)]

ghost use Rattle.std.specs.Prelude.{◌≡◌, ◌||◌, ◌<◌, eqb};
ghost use Rattle.std.specs.List.{list_all};
ghost use Rattle.typeset.specs.Sets.{members};
ghost use Rattle.order.specs.Rules.{precedes, any_two, reversible_ordered, reversible_opposed, order_sound};
ghost use Rattle.order.specs.Steps.{Tests, carries, closed, empty_unless, row_sound};

use typeset::Members;

// Whether a row that holds b holds whatever b comes before.
#[tactic(auto, unfolding(crate::specs::Steps::carries))]
fn carries(rows: &[u32; 32], row: u32, b: u32) -> bool
    ensures { result ≡ carries rows.now row b }
{
    !typeset::has(row, b) || typeset::within(rows[b as usize], row)
}

// Whether that is so for each type of the row.
fn closed(rows: &[u32; 32], row: u32) -> bool
    ensures { result ≡ closed rows.now row }
{
    Members::of(row).all(|b| carries(rows, row, b))
}

// Whether the type t is chosen or its row is empty.
#[tactic(auto, unfolding(crate::specs::Steps::empty_unless))]
fn empty_unless(chosen: u32, t: u32, row: u32) -> bool
    ensures { result ≡ empty_unless chosen t row }
{
    typeset::has(chosen, t) || row == 0
}

// L2 to L5 at the type t. An empty row keeps them.
#[tactic(auto, unfolding(crate::specs::Steps::row_sound))]
fn row_sound(chosen: u32, rows: &[u32; 32], t: u32) -> bool
    requires { t < 32 }
    ensures { result ≡ row_sound chosen rows.now t }
{
    let row = rows[t as usize];
    row == 0
        || typeset::within(row, chosen)
            && empty_unless(chosen, t, row)
            && !typeset::has(row, t)
            && closed(rows, row)
}

// Whether the order of a region with this choice keeps L2 to L5. By number: the type is itself asked about, beside its row.
pub fn order_sound(chosen: u32, rows: &[u32; 32]) -> bool
    ensures { result ≡ order_sound chosen rows.now }
{
    (0u32..32).all(|t| row_sound(chosen, rows, t))
}

// Whether a precedes b.
#[tactic(auto, unfolding(crate::specs::Rules::precedes))]
fn precedes(rows: &[u32; 32], a: u32, b: u32) -> bool
    ensures { result ≡ precedes rows.now a b }
{
    a < 32 && typeset::has(rows[a as usize], b)
}

// Whether the test passes for a and each other type of the set.
fn beside<F: Fn(u32, u32) -> bool>(set: u32, a: u32, test: &F) -> bool
    requires { F.IsAlwaysCallable test.now }
    ensures { Tests (F.post test.now) (λ law. list_all (λ b. eqb a b || law a b) (members set)) result }
{
    Members::of(set).all(|b| a == b || test(a, b))
}

// Whether the test passes for any two types of the set.
fn any_two<F: Fn(u32, u32) -> bool>(set: u32, test: F) -> bool
    requires { F.IsAlwaysCallable test }
    ensures { Tests (F.post test) (any_two set) result }
{
    Members::of(set).all(
        |a| -> bool
            requires { F.IsAlwaysCallable test }
            ensures { Tests (F.post test) (λ law. list_all (λ b. eqb a b || law a b) (members set)) result }
        { beside(set, a, &test) },
    )
}

// L8: whether any two of these types are ordered.
pub fn reversible_ordered(reversible: u32, source: &[u32; 32]) -> bool
    ensures { result ≡ reversible_ordered reversible source.now }
{
    any_two(reversible, |a, b| {
        precedes(source, a, b) || precedes(source, b, a)
    })
}

// L9: whether any two of these types are ordered one way in the source order and the other way in the target order.
pub fn reversible_opposed(reversible: u32, source: &[u32; 32], target: &[u32; 32]) -> bool
    ensures { result ≡ reversible_opposed reversible source.now target.now }
{
    any_two(reversible, |a, b| {
        precedes(source, a, b) == precedes(target, b, a)
    })
}

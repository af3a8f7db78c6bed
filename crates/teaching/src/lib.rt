// The teaching plan of document 01.
#![tactic(auto)]

ghost use Rattle.std.specs.Prelude.{◌≡◌, [], ◌∷◌, replicate};
ghost use Rattle.teaching.specs.Teaching.{subscriber, unused, types, source_rows, target_rows, subscribers, teaching};

use plan::{Plan, Subscriber, Types};

fn types() -> Types
    ensures { result ≡ types }
{
    Types {
        existing: 0b111110,
        bound: 0b10100,
        reversible: 0b10100,
        source_choice: 0b10110,
        target_choice: 0b111100,
    }
}

fn source_rows() -> [u32; 32]
    ensures { result ≡ source_rows }
{
    let mut rows = [0u32; 32];
    rows[1] = 0b10100;
    rows[2] = 0b10000;
    rows
}

fn target_rows() -> [u32; 32]
    ensures { result ≡ target_rows }
{
    let mut rows = [0u32; 32];
    rows[4] = 0b100;
    rows[5] = 0b10100;
    rows
}

// A subscriber with at most two box numbers: the others are 0.
fn subscriber(
    kind: u8,
    address: u32,
    source: u32,
    target: u32,
    first: u16,
    second: u16,
    count: u8,
) -> Subscriber
    ensures { result ≡ subscriber kind address source target (first ∷ second ∷ 0 ∷ 0 ∷ []) count }
{
    Subscriber {
        kind,
        address,
        source,
        target,
        boxes: [first, second, 0, 0],
        count,
    }
}

fn subscribers() -> [Subscriber; 256]
    ensures { result ≡ subscribers }
{
    let nobody = plan::no_subscriber();
    let mut all = [nobody; 256];
    all[0] = subscriber(1, 200, 0b10110, 0b10100, 7, 0, 1);
    all[1] = subscriber(1, 300, 0b10100, 0b111100, 8, 0, 1);
    all[2] = subscriber(2, 555, 0, 0, 40, 41, 2);
    all[3] = subscriber(2, 556, 0, 0, 0, 0, 0);
    all[4] = subscriber(4, 700, 0b10, 0b1000, 0, 0, 0);
    all[5] = subscriber(3, 900, 0, 0, 60, 0, 1);
    all
}

pub fn teaching_plan() -> Plan
    ensures { result ≡ teaching }
{
    Plan {
        types: types(),
        source_order: source_rows(),
        target_order: target_rows(),
        subscribers: subscribers(),
        count: 6,
    }
}

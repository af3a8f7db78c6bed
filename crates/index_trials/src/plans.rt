// The plans of the table.
use plan::{Plan, Subscriber, Types};

// No type and no subscriber. (Also in plan_trials: programs share no plans.)
pub fn empty() -> Plan {
    Plan {
        types: Types {
            existing: 0,
            bound: 0,
            reversible: 0,
            source_choice: 0,
            target_choice: 0,
        },
        source_order: [0; 32],
        target_order: [0; 32],
        subscribers: [plan::no_subscriber(); 256],
        count: 0,
    }
}

// A mobile with every type in each region.
fn with_all(address: u32) -> Subscriber {
    Subscriber {
        kind: 4,
        address,
        source: u32::MAX,
        target: u32::MAX,
        boxes: [0; 4],
        count: 0,
    }
}

// All 32 types in both choices, type 31 reversible; 256 mobiles with the addresses 1 to 255 and 999,999,999 have them all.
pub fn full() -> Plan {
    let mut plan = empty();
    plan.types.existing = u32::MAX;
    plan.types.source_choice = u32::MAX;
    plan.types.target_choice = u32::MAX;
    plan.types.reversible = 1 << 31;
    for (address, s) in (1..256).zip(plan.subscribers.iter_mut()) {
        *s = with_all(address);
    }
    plan.subscribers[255] = with_all(999_999_999);
    plan.count = 256;
    plan
}

// Whether two plans have the same addresses with the same sets. `Plan` has no `PartialEq`: no library compares plans.
pub fn same(a: &Plan, b: &Plan) -> bool {
    let sets = |s: &Subscriber| (s.address, s.source, s.target);
    let mut both = a.subscribers.iter().zip(b.subscribers.iter());
    a.count == b.count && both.all(|(x, y)| sets(x) == sets(y))
}

// The subscriber of an address.
pub fn subscriber_of(plan: Plan, address: u32) -> Subscriber {
    plan::look(plan, address, 0).first
}

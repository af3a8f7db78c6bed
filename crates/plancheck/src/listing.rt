// What is said of the bytes of a file: `sound` and a listing of the plan, or the refusal.
use plan::{Plan, Subscriber, Types};
use std::fmt::Display;
use std::io;
use typeset::Members;

// ---- the types, each with its marks

fn print_types(rt: &impl Print, types: Types) -> io::Result<()> {
    if types.existing == 0 {
        println!(rt; "types: none")?;
    }
    let marks = [
        (types.reversible, "reversible"),
        (types.source_choice, "source"),
        (types.target_choice, "target"),
    ];
    for t in Members::of(types.existing) {
        let bound = if typeset::has(types.bound, t) {
            "bound"
        } else {
            "free"
        };
        print!(rt; "type {t}: {bound}")?;
        for (set, mark) in marks {
            if typeset::has(set, t) {
                print!(rt; ", {mark}")?;
            }
        }
        println!(rt)?;
    }
    Ok(())
}

// ---- the orders: a line for each type that comes before others

fn print_order(rt: &impl Print, region: &str, rows: &[u32; 32]) -> io::Result<()> {
    if rows.iter().all(|after| *after == 0) {
        println!(rt; "{region} order: none")?;
    }
    for (t, after) in rows.iter().enumerate() {
        if *after != 0 {
            print!(rt; "{region} order: {t} before")?;
            for member in Members::of(*after) {
                print!(rt; " {member}")?;
            }
            println!(rt)?;
        }
    }
    Ok(())
}

// ---- the subscribers: kind, address, the zone in each region, and box numbers

fn print_list<T: Display>(rt: &impl Print, list: &[T]) -> io::Result<()> {
    if list.is_empty() {
        print!(rt; " none")?;
    }
    for one in list {
        print!(rt; " {one}")?;
    }
    Ok(())
}

fn print_subscriber(rt: &impl Print, plan: &Plan, s: &Subscriber) -> io::Result<()> {
    let kind = match s.kind {
        1 => "line",
        2 => "trunk",
        3 => "resource",
        _ => "mobile",
    };
    let source = zone::zone_of(plan.source_order, s.source);
    let target = zone::zone_of(plan.target_order, s.target);
    print!(rt; "{kind} {}: source zone", s.address)?;
    print_list(rt, source.as_slice())?;
    print!(rt; ", target zone")?;
    print_list(rt, target.as_slice())?;
    print!(rt; ", boxes")?;
    print_list(rt, s.boxes.get(..usize::from(s.count)).unwrap_or(&s.boxes))?;
    println!(rt)
}

fn print_plan(rt: &impl Print, plan: &Plan) -> io::Result<()> {
    println!(rt; "sound")?;
    print_types(rt, plan.types)?;
    print_order(rt, "source", &plan.source_order)?;
    print_order(rt, "target", &plan.target_order)?;
    if plan.count == 0 {
        println!(rt; "subscribers: none")?;
    }
    for s in plan.subscribers.iter().take(usize::from(plan.count)) {
        print_subscriber(rt, plan, s)?;
    }
    Ok(())
}

pub fn report(rt: &impl Print, bytes: &[u8]) -> io::Result<()> {
    match planread::read(bytes) {
        Ok(plan) => print_plan(rt, &plan),
        Err(r) => println!(rt; "{r}"),
    }
}

// What came, told in words: all of it, in one order. Functions and no `Display`: the types are other crates'.
use crate::asked;
use plan::Region;
use routing::Callee;
use setup::{Dialled, Route, Setup};
use std::alloc::AllocError;
use std::fmt::Write;
use zone::Zone;

// ---- places

// How many places there are up to the last one that holds something else than what stands past a length.
fn written(places: &[u8], lent: bool) -> usize {
    let mut end = 0;
    for (i, place) in places.iter().enumerate() {
        if *place != asked::past(lent, i) {
            end = i + 1;
        }
    }
    end
}

// Types, or `empty`.
fn push_types(told: &mut String, types: &[u8]) -> Result<(), AllocError> {
    if types.is_empty() {
        told.push_str(" empty")?;
    }
    for t in types {
        write!(told, " {t}")?;
    }
    Ok(())
}

// `junk` where a place past the length is not 0, or the length is more than the places.
fn push_junk(told: &mut String, places: &[u8; 32], len: u8) -> Result<(), AllocError> {
    if len > 32 || usize::from(len) < written(places, false) {
        told.push_str(" junk")?;
    }
    Ok(())
}

// A zone or a list: its types, or `empty`.
pub fn push_zone(told: &mut String, zone: &Zone) -> Result<(), AllocError> {
    push_types(told, zone.as_slice())?;
    push_junk(told, &zone.types, zone.len)
}

// ---- a setup

fn push_string(told: &mut String, d: &Dialled) -> Result<(), AllocError> {
    told.push_str(" \"")?;
    for c in d.as_slice() {
        told.push(char::from(*c))?;
    }
    told.push_str("\"")?;
    push_junk(told, &d.symbols, d.len)
}

// Where no list is expected, an empty one is not told.
fn push_route(told: &mut String, route: Route, list: &Zone) -> Result<(), AllocError> {
    let (name, is_listed) = match route {
        Route::Whole => (" whole", false),
        Route::Suffix => (" suffix", false),
        Route::Listed => (" list", true),
    };
    told.push_str(name)?;
    if is_listed || list.len != 0 || written(&list.types, false) != 0 {
        push_zone(told, list)?;
    }
    Ok(())
}

pub fn push_setup(told: &mut String, setup: &Setup) -> Result<(), AllocError> {
    let region = match setup.region {
        Region::Source => "source",
        Region::Target => "target",
    };
    write!(told, " {region} region from {}", setup.source)?;
    push_string(told, &setup.dialled)?;
    write!(told, " to {}", setup.target)?;
    push_route(told, setup.route, &setup.list)?;
    if let Some(t) = setup.placing {
        write!(told, " placing {t}")?;
    }
    if let Some(a) = setup.outer {
        write!(told, " outer {a}")?;
    }
    Ok(())
}

// ---- what routing answers

pub fn push_callee(told: &mut String, callee: Callee) -> Result<(), AllocError> {
    match callee {
        Callee::Feature(t, a) => write!(told, "feature {t} at {a}"),
        Callee::Line(n, a) => write!(told, "line {n} at {a}"),
        Callee::Trunk(n, a) => write!(told, "trunk {n} at {a}"),
        Callee::Resource(n, a) => write!(told, "resource {n} at {a}"),
        Callee::Error(a) => write!(told, "error at {a}"),
    }
}

// The lent lists up to the last place that was written. Beside a refusal nothing is written, and nothing told.
pub fn push_lent(
    told: &mut String,
    lists: [(&str, &[u8; 40]); 2],
    is_routed: bool,
) -> Result<(), AllocError> {
    for (name, list) in lists {
        let count = written(list, true);
        if is_routed || count != 0 {
            write!(told, " {name}")?;
            push_types(told, list.get(..count).unwrap_or(list))?;
        }
    }
    Ok(())
}

// What the archive of a box's links does, as include/dfc.h declares it: who hears whom, in 64 numbers that a C program lends. The crate `dfc_links_c` makes the archive.
#![tactic(auto)]

ghost use Rattle.std.specs.Prelude.{◌≡◌};
ghost use Rattle.links.specs.Links.{termination_number, link};
ghost use Rattle.links.specs.Sets.{formed};
ghost use Rattle.links.specs.Said.{add_said, add_after, said_formed, remove_after, drop_after, listed, listed_after};
ghost use Rattle.dfc_links.specs.Told.{at, told, counted};

use answers::{Answer, answered};
use links::Termination;

#[unsafe(no_mangle)]
pub extern "C" fn dfc_links_add(
    set: &mut [u64; 64],
    sink_port: u16,
    sink_channel: u16,
    source_port: u16,
    source_channel: u16,
) -> Answer
    ensures { (result ≡ told (add_said (link (at sink_port sink_channel) (at source_port source_channel)) set.old))
        × (set.new ≡ add_after (link (at sink_port sink_channel) (at source_port source_channel)) set.old) }
{
    let sink = Termination {
        port: sink_port,
        channel: sink_channel,
    };
    let source = Termination {
        port: source_port,
        channel: source_channel,
    };
    answered(links::add(set, sink, source).map(|()| 0))
}

#[unsafe(no_mangle)]
pub extern "C" fn dfc_links_remove(
    set: &mut [u64; 64],
    sink_port: u16,
    sink_channel: u16,
    source_port: u16,
    source_channel: u16,
) -> Answer
    ensures { (result ≡ told (said_formed (formed set.old)))
        × (set.new ≡ remove_after (link (at sink_port sink_channel) (at source_port source_channel)) set.old) }
{
    let sink = Termination {
        port: sink_port,
        channel: sink_channel,
    };
    let source = Termination {
        port: source_port,
        channel: source_channel,
    };
    answered(links::remove(set, sink, source).map(|()| 0))
}

#[unsafe(no_mangle)]
pub extern "C" fn dfc_links_drop(set: &mut [u64; 64], port: u16) -> Answer
    ensures { (result ≡ told (said_formed (formed set.old))) × (set.new ≡ drop_after port set.old) }
{
    answered(links::drop(set, port).map(|()| 0))
}

#[unsafe(no_mangle)]
pub extern "C" fn dfc_links_sources(
    set: &[u64; 64],
    sink_port: u16,
    sink_channel: u16,
    sources: &mut [u32; 64],
) -> Answer
    ensures { (result ≡ counted (listed (termination_number (at sink_port sink_channel)) set.now))
        × (sources.new ≡ listed_after (termination_number (at sink_port sink_channel)) set.now sources.old) }
{
    let sink = Termination {
        port: sink_port,
        channel: sink_channel,
    };
    answered(links::sources(set, sink, sources).map(|n| n as u64))
}

// The archive of a box's links, as include/dfc.h declares it: what a C program calls is here by its name, and does what the crate `dfc_links` does.
#![tactic(auto)]

ghost use Rattle.std.specs.Prelude.{◌≡◌};
ghost use Rattle.links.specs.Links.{termination_number, link};
ghost use Rattle.links.specs.Sets.{formed};
ghost use Rattle.links.specs.Said.{add_said, add_after, said_formed, remove_after, drop_after, listed, listed_after};
ghost use Rattle.dfc_links.specs.Told.{at, told, counted};

use answers::Answer;

#[unsafe(no_mangle)]
pub extern "C" fn dfc_links_add(
    set: &mut [u64; 64],
    sink_port: u16,
    sink_channel: u16,
    source_port: u16,
    source_channel: u16,
) -> Answer
    ensures { (result ≡ told (add_said (link (at sink_port sink_channel) (at source_port source_channel)) set.old))
        × (set.new ≡ add_after (link (at sink_port sink_channel) (at source_port source_channel)) set.old) }
{
    dfc_links::dfc_links_add(set, sink_port, sink_channel, source_port, source_channel)
}

#[unsafe(no_mangle)]
pub extern "C" fn dfc_links_remove(
    set: &mut [u64; 64],
    sink_port: u16,
    sink_channel: u16,
    source_port: u16,
    source_channel: u16,
) -> Answer
    ensures { (result ≡ told (said_formed (formed set.old)))
        × (set.new ≡ remove_after (link (at sink_port sink_channel) (at source_port source_channel)) set.old) }
{
    dfc_links::dfc_links_remove(set, sink_port, sink_channel, source_port, source_channel)
}

#[unsafe(no_mangle)]
pub extern "C" fn dfc_links_drop(set: &mut [u64; 64], port: u16) -> Answer
    ensures { (result ≡ told (said_formed (formed set.old))) × (set.new ≡ drop_after port set.old) }
{
    dfc_links::dfc_links_drop(set, port)
}

#[unsafe(no_mangle)]
pub extern "C" fn dfc_links_sources(
    set: &[u64; 64],
    sink_port: u16,
    sink_channel: u16,
    sources: &mut [u32; 64],
) -> Answer
    ensures { (result ≡ counted (listed (termination_number (at sink_port sink_channel)) set.now))
        × (sources.new ≡ listed_after (termination_number (at sink_port sink_channel)) set.now sources.old) }
{
    dfc_links::dfc_links_sources(set, sink_port, sink_channel, sources)
}

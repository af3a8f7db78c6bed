// The links of a box: who hears whom (manual 11.2). A set of at most 64 links in lent memory of 64 numbers: the links ascending, then 0 in every place that is left. 64 zeros are an empty set.
// C lends the 64 numbers (`dfc_links_add`), so no `Vec` and no map; the links end where the first 0 stands, so a search goes on to it.
#![tactic(auto)]

ghost use Rattle.std.specs.Prelude.{◌≡◌, true, ◌+◌, ◌<◌, ◌≤◌, length, drop, MatchOption};
ghost use Rattle.std.proofs.lemmas.List.Edits.{sets};
ghost use Rattle.links.specs.Links.{termination_number, link, source_of, apart, touches};
ghost use Rattle.links.specs.Sets.{links, blank, formed};
ghost use Rattle.links.specs.Said.{said_listing, add_said, add_after, said_formed, remove_after, drop_after, listed, listed_after};
ghost use Rattle.links.specs.Steps.{place_of, pushed, pulled, stays, remaining, audible, heard_at};

use refusal::Refusal;

// A channel termination of a box: one of its ports, and a channel there.
#[derive(Clone, Copy)]
pub struct Termination {
    pub port: u16,
    pub channel: u16,
}

// A termination as a number. A function and no `From`: the number is the memory's, and of no use outside.
fn termination_number(t: Termination) -> u32
    ensures { result ≡ termination_number t }
{
    u32::from(t.port) * 65536 + u32::from(t.channel)
}

// A link as a number; a function, as `termination_number` is.
#[tactic(auto, unfolding(crate::specs::Links::link))]
fn link(sink: Termination, source: Termination) -> u64
    ensures { result ≡ link sink source }
{
    u64::from(termination_number(sink)) * 4294967296 + u64::from(termination_number(source))
}

#[tactic(auto, unfolding(crate::specs::Links::apart))]
fn apart(l: u64) -> bool
    ensures { result ≡ apart l }
{
    l / 4294967296 / 65536 != l % 4294967296 / 65536
}

#[tactic(auto, unfolding(crate::specs::Links::touches))]
fn touches(port: u16, l: u64) -> bool
    ensures { result ≡ touches port l }
{
    l / 4294967296 / 65536 == u64::from(port) || l % 4294967296 / 65536 == u64::from(port)
}

// ---- looking through a set

// Whether all is 0: every place is looked at, so that several can be at once.
fn blank(places: &[u64]) -> bool
    ensures { result ≡ blank places.now }
{
    let mut rest = 0u64;
    for l in places {
        rest |= *l;
    }
    rest == 0
}

// How many links the memory holds, if it holds a set of them.
fn look(set: &[u64; 64]) -> Result<usize, Refusal>
    ensures { result ≡ said_listing (formed set.now) (length (links set.now)) }
{
    let mut before = 0u64;
    for (i, l) in set.iter().enumerate() {
        let l = *l;
        if l == 0 {
            if blank(&set[i..]) {
                return Ok(i);
            }
            return Err(Refusal::NotLinks);
        }
        if l <= before {
            return Err(Refusal::NotLinks);
        }
        if !apart(l) {
            return Err(Refusal::NotLinks);
        }
        before = l;
    }
    Ok(64)
}

// The first place that has no link, or none below x.
fn place_of(set: &[u64; 64], x: u64) -> Option<usize>
    ensures { MatchOption result (place_of x set.now ≡ 64) (λ i. (i ≡ place_of x set.now) × (i < 64)) }
{
    set.iter().position(|l| *l == 0 || x <= *l)
}

// ---- changing it

// Puts x at the place, and what stood there one place on, up to the first free one. By index: each turn writes one place and goes on with what stood there; `copy_within` is no plainer, since the first free place would have to be looked for before.
fn put_in(set: &mut [u64; 64], from: usize, x: u64)
    requires { from ≤ 64 }
    ensures { set.new ≡ sets set.old from (pushed x (drop from set.old)) }
{
    let mut carried = x;
    for i in from..64usize {
        let l = set[i];
        set[i] = carried;
        if l == 0 {
            return;
        }
        carried = l;
    }
}

// Takes out what stands at the place: what follows comes one place down, up to the first 0. By index, as `put_in`.
fn close_up(set: &mut [u64; 64], from: usize)
    requires { from < 64 }
    ensures { set.new ≡ sets set.old from (pulled (drop (from + 1) set.old)) }
{
    for i in from..63usize {
        let l = set[i + 1];
        set[i] = l;
        if l == 0 {
            return;
        }
    }
    set[63] = 0;
}

#[tactic(auto, unfolding(crate::specs::Steps::stays))]
fn stays(port: u16, l: u64) -> bool
    requires { 0 < l }
    ensures { result ≡ stays port l }
{
    !touches(port, l)
}

// Brings the links that stay to the front; how many they are. The places are counted, since they are read and written in one loop.
fn to_front(set: &mut [u64; 64], count: usize, port: u16) -> usize
    requires { (formed set.old ≡ true) × (count ≡ length (links set.old)) }
    ensures { (result ≡ length (remaining port set.old)) × (result ≤ 64) × (set.new ≡ sets set.old 0 (remaining port set.old)) }
{
    let mut n = 0usize;
    for i in 0usize..count {
        let l = set[i];
        if stays(port, l) {
            set[n] = l;
            n += 1;
        }
    }
    n
}

// ---- the operations

// Adds the link from source to sink. One that is there already changes nothing.
pub fn add(set: &mut [u64; 64], sink: Termination, source: Termination) -> Result<(), Refusal>
    ensures { (result ≡ add_said (link sink source) set.old) × (set.new ≡ add_after (link sink source) set.old) }
{
    let x = link(sink, source);
    look(set)?;
    if !apart(x) {
        return Err(Refusal::OnePort);
    }
    let Some(at) = place_of(set, x) else {
        return Err(Refusal::LinksFull);
    };
    if set[at] == x {
        return Ok(());
    }
    if set[63] != 0 {
        return Err(Refusal::LinksFull);
    }
    put_in(set, at, x);
    Ok(())
}

// Removes the link from source to sink. One that is absent changes nothing.
pub fn remove(set: &mut [u64; 64], sink: Termination, source: Termination) -> Result<(), Refusal>
    ensures { (result ≡ said_formed (formed set.old)) × (set.new ≡ remove_after (link sink source) set.old) }
{
    let x = link(sink, source);
    look(set)?;
    if !apart(x) {
        return Ok(());
    }
    let Some(at) = place_of(set, x) else {
        return Ok(());
    };
    if set[at] != x {
        return Ok(());
    }
    close_up(set, at);
    Ok(())
}

// Drops every link that touches the port. The links of other ports stay.
pub fn drop(set: &mut [u64; 64], port: u16) -> Result<(), Refusal>
    ensures { (result ≡ said_formed (formed set.old)) × (set.new ≡ drop_after port set.old) }
{
    let count = look(set)?;
    let n = to_front(set, count, port);
    set[n..count].fill(0);
    Ok(())
}

#[tactic(auto, unfolding(crate::specs::Steps::audible))]
fn audible(sink: u32, l: u64) -> bool
    requires { 0 < l }
    ensures { result ≡ audible sink l }
{
    l / 4294967296 == u64::from(sink)
}

fn low_half(l: u64) -> u32
    ensures { result ≡ source_of l }
{
    (l % 4294967296) as u32
}

// The sources of the links whose sink is the number given, into the first places of the room; how many they are. The room is C's (`dfc_links_sources`), so the places are counted.
fn gather(set: &[u64; 64], sink: u32, room: &mut [u32; 64]) -> usize
    requires { formed set.now ≡ true }
    ensures { (result ≡ length (heard_at sink set.now)) × (room.new ≡ sets room.old 0 (heard_at sink set.now)) }
{
    let mut n = 0usize;
    for l in set {
        let l = *l;
        if l == 0 {
            return n;
        }
        if audible(sink, l) {
            room[n] = low_half(l);
            n += 1;
        }
    }
    n
}

// Lists the sources summed into a termination, ascending, each as a number (its port, then its channel in 16 bits), and says how many they are; the places of the room that are left are 0.
pub fn sources(set: &[u64; 64], sink: Termination, room: &mut [u32; 64]) -> Result<usize, Refusal>
    ensures { (result ≡ listed (termination_number sink) set.now) × (room.new ≡ listed_after (termination_number sink) set.now room.old) }
{
    look(set)?;
    *room = [0u32; 64];
    Ok(gather(set, termination_number(sink), room))
}

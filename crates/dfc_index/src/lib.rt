// The index of a plan for programs in other languages: functions on numbers, lent bytes and lent rows, over a plan file. The header is include/dfc.h; the crate `dfc_index_c` makes the archive.
#![tactic(auto)]

ghost use Rattle.std.specs.Prelude.{◌≡◌, ◌++◌, ℕ, ◌+◌, ◌≤◌, ◌<◌, length, drop};
ghost use Rattle.planbytes.specs.Numbers.{high};
ghost use Rattle.planbytes.specs.Format.{field, subscriber_body};
ghost use Rattle.dfc_index.specs.Steps.{sets_at, reset_bytes};
ghost use Rattle.dfc_index.specs.Files.{region_of, file_built, index_built, file_updated, index_updated, room_updated, listed};

use answers::{Answer, answered};
use plan::{Region, Subscriber};
use refusal::Refusal;

// Where the subscribers of a type in a region stand in the index: the first `count` places of row `row`.
#[repr(C)]
#[derive(Clone, Copy)]
pub struct Listed {
    pub row: u64,
    pub count: u64,
}

// ---- building

// The index of the plan of a file. Beside a refusal of the file it stays as it was.
#[unsafe(no_mangle)]
pub extern "C" fn dfc_index_build(file: &[u8], index: &mut [[u32; 257]; 64]) -> Answer
    ensures { (result ≡ file_built file.now) × (index.new ≡ index_built file.now index.old) }
{
    match planback::read(file) {
        Ok(plan) => answered(index::build_tested(true, plan, index).map(|()| 0)),
        Err(r) => answers::refused(r),
    }
}

// ---- looking up

// `dfc` has it too: no crate that the two share says what C's numbers mean.
fn region_of(n: u8) -> Region
    ensures { result ≡ region_of n }
{
    if n == 0 {
        Region::Source
    } else {
        Region::Target
    }
}

// Who subscribes to a type in a region: where they stand in the index, and how many they are.
#[unsafe(no_mangle)]
pub extern "C" fn dfc_index_look(index: &[[u32; 257]; 64], region: u8, of_type: u32) -> Listed
    ensures { result ≡ listed index.now region of_type }
{
    let region = region_of(region);
    let row = index::row_for(region, of_type);
    let part = index::look(index, region, of_type);
    Listed {
        row: row as u64,
        count: part.len() as u64,
    }
}

// ---- a change of one subscriber's sets

// How many bytes a subscriber's field has in the file. `planwrite` has its own: to share one line, a public function would be needed.
fn field_size(s: Subscriber) -> usize
    ensures { (result ≡ length (field 5 (subscriber_body s))) × (result ≤ 24) }
{
    16 + 2 * usize::from(s.count).min(4)
}

// Where the sets of the subscriber at place i begin in the file: past the four fields that every file begins with, the fields of those before it, and eight bytes of its own.
fn sets_at(subscribers: &[Subscriber; 256], i: usize) -> usize
    requires { i < 256 }
    ensures { (result ≡ sets_at subscribers.now i) × (result ≤ 6441) }
{
    let before = &subscribers[..i];
    let mut at = 297usize;
    for s in before {
        at += field_size(*s);
    }
    at
}

// Two sets as they stand in the file.
fn sets(source: u32, target: u32) -> [u8; 8]
    ensures { result ≡ high 4 source ++ high 4 target }
{
    let [s3, s2, s1, s0] = source.to_be_bytes();
    let [t3, t2, t1, t0] = target.to_be_bytes();
    [s3, s2, s1, s0, t3, t2, t1, t0]
}

// The file with two other sets of the subscriber at place i, into the room. All other bytes are as they were.
fn write_changed(
    file: &[u8],
    subscribers: &[Subscriber; 256],
    i: usize,
    source: u32,
    target: u32,
    room: &mut [u8],
)
    requires { (i < 256) × (length file.now ≤ length room.old) × (sets_at subscribers.now i + 8 ≤ length file.now) }
    ensures { room.new ≡ reset_bytes (sets_at subscribers.now i) source target file.now ++ drop (length file.now) room.old }
{
    let at = sets_at(subscribers, i);
    let eight = sets(source, target);
    let n = file.len();
    room[..n].copy_from_slice(file);
    room[at..at + 8].copy_from_slice(&eight);
}

// Gives the subscriber of an address other sets, in the lent index and in the file that is written into the room.
#[unsafe(no_mangle)]
pub extern "C" fn dfc_index_update(
    file: &[u8],
    index: &mut [[u32; 257]; 64],
    address: u32,
    source: u32,
    target: u32,
    room: &mut [u8],
) -> Answer
    ensures { (result ≡ file_updated file.now index.old address source target room.old)
        × (index.new ≡ index_updated file.now index.old address source target room.old)
        × (room.new ≡ room_updated file.now index.old address source target room.old) }
{
    match planback::read(file) {
        Ok(plan) => {
            if room.len() < file.len() {
                return answers::refused(Refusal::RoomTooShort(0));
            }
            match index::update_tested(true, plan, index, address, source, target) {
                Ok(_) => {
                    let i = plan::find(plan, address).unwrap();
                    write_changed(file, &plan.subscribers, i, source, target, room);
                    answers::accepted(file.len() as u64)
                }
                Err(r) => answers::refused(r),
            }
        }
        Err(r) => answers::refused(r),
    }
}

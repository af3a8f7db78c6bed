// A sound plan written into lent room as a plan file.
#![tactic(auto)]

ghost use Rattle.std.specs.Prelude.{◌≡◌, ◌&&◌, cond, [], ◌∷◌, ◌++◌, ◌+◌, ◌*◌, ◌≤◌, ◌<◌, min, leb, length, take};
ghost use Rattle.std.proofs.lemmas.List.Edits.{sets};
ghost use Rattle.plan.specs.Sound.{sound};
ghost use Rattle.planbytes.specs.Numbers.{high, row};
ghost use Rattle.planbytes.specs.Format.{field, version_body, types_body, order_body, subscriber_body, head_fields, subscriber_fields, bytes_of};
ghost use Rattle.refusal.specs.Numbers.{number_said, place_said};
ghost use Rattle.planwrite.specs.Writing.{written_by, room_after_by, written, room_after};

use plan::{Plan, Subscriber, Types};
use refusal::Refusal;

// ---- writing: each function fills the room from a place on. Room and place: what is past it stays, which the promise says of the whole room.

fn put_one(room: &mut [u8], at: usize, n: u8)
    requires { at < length room.old }
    ensures { room.new ≡ sets room.old at (high 1 n) }
{
    room[at] = n;
}

fn put_two(room: &mut [u8], at: usize, n: u16)
    requires { at + 2 ≤ length room.old }
    ensures { room.new ≡ sets room.old at (high 2 n) }
{
    room[at..at + 2].copy_from_slice(&n.to_be_bytes());
}

fn put_four(room: &mut [u8], at: usize, n: u32)
    requires { at + 4 ≤ length room.old }
    ensures { room.new ≡ sets room.old at (high 4 n) }
{
    room[at..at + 4].copy_from_slice(&n.to_be_bytes());
}

// A tag, and the length of the body that is to follow.
fn put_header(room: &mut [u8], at: usize, tag: u8, n: u16)
    requires { at + 3 ≤ length room.old }
    ensures { room.new ≡ sets room.old at (high 1 tag ++ high 2 n) }
{
    put_one(room, at, tag);
    put_two(room, at + 1, n);
}

// The field of tag 1.
fn put_version(room: &mut [u8])
    requires { 4 ≤ length room.old }
    ensures { room.new ≡ sets room.old 0 (field 1 version_body) }
{
    put_header(room, 0, 1, 1);
    put_one(room, 3, 1);
}

// The five sets, without the header.
fn put_sets(room: &mut [u8], at: usize, t: Types)
    requires { at + 20 ≤ length room.old }
    ensures { room.new ≡ sets room.old at (types_body t) }
{
    put_four(room, at, t.existing);
    put_four(room, at + 4, t.bound);
    put_four(room, at + 8, t.reversible);
    put_four(room, at + 12, t.source_choice);
    put_four(room, at + 16, t.target_choice);
}

// The field of tag 2.
fn put_types(room: &mut [u8], t: Types)
    requires { 27 ≤ length room.old }
    ensures { room.new ≡ sets room.old 4 (field 2 (types_body t)) }
{
    put_header(room, 4, 2, 20);
    put_sets(room, 7, t);
}

// The rows of an order, without the header.
fn put_rows(room: &mut [u8], at: usize, rows: [u32; 32])
    requires { at + 128 ≤ length room.old }
    ensures { room.new ≡ sets room.old at (order_body rows) }
{
    for (t, row) in rows.iter().enumerate() {
        put_four(room, at + 4 * t, *row);
    }
}

// The field of tag 3 or 4.
fn put_order(room: &mut [u8], at: usize, tag: u8, rows: [u32; 32])
    requires { at + 131 ≤ length room.old }
    ensures { (room.new ≡ sets room.old at (field tag (order_body rows))) × (length rows ≡ 32) }
{
    put_header(room, at, tag, 128);
    put_rows(room, at + 3, rows);
}

// The four fields that every file begins with.
fn put_head(room: &mut [u8], types: Types, source: [u32; 32], target: [u32; 32])
    requires { 289 ≤ length room.old }
    ensures { (room.new ≡ sets room.old 0 (head_fields types source target)) × (length source ≡ 32) × (length target ≡ 32) }
{
    put_version(room);
    put_types(room, types);
    put_order(room, 27, 3, source);
    put_order(room, 158, 4, target);
}

// How many box numbers a subscriber has.
fn used(s: Subscriber) -> usize
    ensures { (result ≡ length (take s.count s.boxes)) × (result ≤ 4) }
{
    usize::from(s.count).min(4)
}

// Box numbers, without the header: two bytes each.
fn put_boxes(room: &mut [u8], at: usize, boxes: [u16; 4], count: usize)
    requires { (count ≤ 4) × (at + 2 * count ≤ length room.old) }
    ensures { room.new ≡ sets room.old at (row 2 (take count boxes)) }
{
    for (x, number) in boxes[..count].iter().enumerate() {
        put_two(room, at + 2 * x, *number);
    }
}

// How many bytes a subscriber's field has.
fn field_size(s: Subscriber) -> usize
    ensures { (result ≡ length (field 5 (subscriber_body s))) × (result ≤ 24) }
{
    16 + 2 * used(s)
}

// A subscriber's kind, address and two sets.
fn put_fixed(room: &mut [u8], at: usize, s: Subscriber)
    requires { at + 13 ≤ length room.old }
    ensures { room.new ≡ sets room.old at (high 1 s.kind ++ row 4 (s.address ∷ s.source ∷ s.target ∷ [])) }
{
    put_one(room, at, s.kind);
    put_four(room, at + 1, s.address);
    put_four(room, at + 5, s.source);
    put_four(room, at + 9, s.target);
}

// A subscriber's field, put into the room or only counted; the place after it. One function does both, so that what is counted is what is put; two would need a law that says so.
fn put_subscriber(room: &mut [u8], at: usize, s: Subscriber, put: bool) -> usize
    requires { (at ≤ 6409) × (cond put (at + length (field 5 (subscriber_body s))) 0 ≤ length room.old) }
    ensures { (room.new ≡ cond put (sets room.old at (field 5 (subscriber_body s))) room.old)
        × (result ≡ at + length (field 5 (subscriber_body s))) × (result ≤ at + 24) }
{
    let count = used(s);
    let end = at + field_size(s);
    if !put {
        return end;
    }
    let boxes = s.boxes;
    put_header(room, at, 5, 13 + 2 * count as u16);
    put_fixed(room, at + 3, s);
    put_boxes(room, at + 16, boxes, count);
    end
}

// A field for each of the first count subscribers, after the head, put into the room or only counted; the place after them.
fn put_subscribers(
    room: &mut [u8],
    subscribers: [Subscriber; 256],
    count: usize,
    put: bool,
) -> usize
    requires { (count ≤ 256) × (cond put (289 + length (subscriber_fields (take count subscribers))) 0 ≤ length room.old) }
    ensures { (room.new ≡ cond put (sets room.old 289 (subscriber_fields (take count subscribers))) room.old)
        × (result ≡ 289 + length (subscriber_fields (take count subscribers))) × (result ≤ 6433) × (length subscribers ≡ 256) }
{
    let mut at = 289;
    for s in &subscribers[..count] {
        at = put_subscriber(room, at, *s, put);
    }
    at
}

// How many places of a plan with this count there are to write: no more than it has. (plan has the same by itself: one line is less than a public function.)
fn places(count: u16) -> usize
    ensures { (result ≡ min count 256) × (result ≤ 256) }
{
    usize::from(count).min(256)
}

// Writing, after the test: `kept` says whether the plan is sound.
fn write_tested(kept: bool, plan: Plan, room: &mut [u8]) -> Result<usize, Refusal>
    ensures { (result ≡ written_by kept plan room.old) × (room.new ≡ room_after_by kept plan room.old) }
{
    let source = plan.source_order;
    let target = plan.target_order;
    let subscribers = plan.subscribers;
    let count = places(plan.count);
    if !kept {
        return Err(Refusal::RuleBroken(0));
    }
    // Only counted: no byte is written before the room is known to be long enough. The end field has three bytes.
    let end = put_subscribers(room, subscribers, count, false);
    let size = end + 3;
    if room.len() < size {
        return Err(Refusal::RoomTooShort(0));
    }
    put_head(room, plan.types, source, target);
    put_subscribers(room, subscribers, count, true);
    put_header(room, end, 127, 0);
    Ok(size)
}

// A sound plan's file into the room, if it fits in: how many bytes it has. The bytes past it stay.
pub fn write(plan: Plan, room: &mut [u8]) -> Result<usize, Refusal>
    ensures value { (result ≡ written plan room.old) × (room.new ≡ room_after plan room.old) }
    ensures numbered { (number_said result ≡ cond (sound plan) (cond (leb (length (bytes_of plan)) (length room.old)) 0 25) 23)
        × (place_said result ≡ cond (sound plan && leb (length (bytes_of plan)) (length room.old)) None (Some 0)) }
{
    let kept = soundness::sound(plan);
    write_tested(kept, plan, room)
}

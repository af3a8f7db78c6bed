// The theorems of the plan file, brought to any plan that a program holds: its numbers fit their fields and its arrays have their lengths, and written and read again it is
// the same plan; and to any file: what is accepted is sound, read or looked through, and written again it is the same bytes.
#![tactic(auto)]

ghost use Rattle.std.specs.Prelude.{◌≡◌, true, ◌^◌, ◌<◌, ◌≤◌, length, take, IfOk};
ghost use Rattle.plan.specs.Sound.{sound};
ghost use Rattle.planbytes.specs.Numbers.{Below};
ghost use Rattle.planfile.specs.Typed.{TypedSubscriber, AllTyped, Typed};
ghost use Rattle.planread.specs.Reading.{read_of};
ghost use Rattle.planwrite.specs.Writing.{written, room_after};
ghost use Rattle.planread.specs.Scanning.{scanned};
ghost use Rattle.planback.specs.Back.{comes_back, rewrites, room_rewritten};

use plan::{Plan, Seen, Subscriber};
use refusal::Refusal;

// What stands here only says what the types say; compiled, nothing is left of it. A type parameter would have no such bound to say, so there is a function for each width.
fn narrow(n: u8)
    ensures { n < 2 ^ 8 }
{}

fn wide(n: u32)
    ensures { n < 2 ^ 32 }
{}

fn boxes(numbers: &[u16])
    ensures { Below (2 ^ 16) numbers.now }
{}

fn rows(order: &[u32])
    ensures { Below (2 ^ 32) order.now }
{}

fn subscriber(s: Subscriber)
    ensures { TypedSubscriber s }
{
    narrow(s.kind);
    wide(s.address);
    wide(s.source);
    wide(s.target);
    boxes(&s.boxes);
}

fn subscribers(all: &[Subscriber])
    ensures { AllTyped all.now }
{
    for s in all {
        subscriber(*s);
    }
}

// Any plan that a program holds.
pub fn held(plan: Plan)
    ensures { Typed plan }
{
    let types = plan.types;
    wide(types.existing);
    wide(types.bound);
    wide(types.reversible);
    wide(types.source_choice);
    wide(types.target_choice);
    rows(&plan.source_order);
    rows(&plan.target_order);
    subscribers(&plan.subscribers);
}

// Any bytes read as a plan file; and what is accepted is sound, so that nobody needs to test it again.
pub fn read(file: &[u8]) -> Result<Plan, Refusal>
    ensures { (result ≡ read_of file.now) × IfOk result (λ p. sound p ≡ true) }
{
    planread::read(file)
}

// Any bytes looked through for two addresses, with the same promise of the plan whose file they are.
pub fn scan(file: &[u8], first: u32, second: u32) -> Result<Seen, Refusal>
    ensures { (result ≡ scanned first second (read_of file.now)) × IfOk (read_of file.now) (λ p. sound p ≡ true) }
{
    planread::scan(file, first, second)
}

// The plan of a file written into the room: what is accepted is the file of its plan, so that its bytes are written as they are.
pub fn rewrite(file: &[u8], room: &mut [u8]) -> Result<usize, Refusal>
    ensures { (result ≡ rewrites (read_of file.now) room.old) × (room.new ≡ room_rewritten (read_of file.now) room.old) }
{
    planread::verdict(file)?;
    let n = file.len();
    if room.len() < n {
        return Err(Refusal::RoomTooShort(0));
    }
    room[..n].copy_from_slice(file);
    Ok(n)
}

// A plan written into the room, and read from it again.
pub fn there_and_back(plan: Plan, room: &mut [u8]) -> Result<Plan, Refusal>
    ensures { (result ≡ comes_back (written plan room.old) plan) × (room.new ≡ room_after plan room.old) }
{
    held(plan);
    let n = planwrite::write(plan, room)?;
    planread::read(&room[..n])
}

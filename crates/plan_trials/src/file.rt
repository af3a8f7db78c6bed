// The file of any plan, sound or not, made here and not by the writer, so that the two can be compared; and its bytes changed as a line says.
use crate::draft::{ROOM, Slot, slot_of};
use console::Word;
use plan::{Plan, Subscriber};
use std::alloc::{AllocError, Global};

// What stands past a file, as in a room that nothing was written to.
pub const UNWRITTEN: u8 = 170;

// A file at the start of a room; what stands past it is compared as well.
#[derive(Drop)]
pub struct File {
    pub room: Vec<u8>,
    pub len: usize,
}

fn put_fours(bytes: &mut Vec<u8>, numbers: &[u32]) -> Result<(), AllocError> {
    for n in numbers {
        bytes.extend_from_slice(&n.to_be_bytes())?;
    }
    Ok(())
}

// A tag, and how many bytes follow.
fn put_tag(bytes: &mut Vec<u8>, tag: u8, size: u16) -> Result<(), AllocError> {
    bytes.push(tag)?;
    bytes.extend_from_slice(&size.to_be_bytes())
}

// Of more box numbers than there are, the further ones are 0, up to the 32nd; past it they are left out.
fn put_subscriber(bytes: &mut Vec<u8>, s: &Subscriber) -> Result<(), AllocError> {
    put_tag(bytes, 5, 13 + 2 * u16::from(s.count))?;
    bytes.push(s.kind)?;
    put_fours(bytes, &[s.address, s.source, s.target])?;
    for i in 0..usize::from(s.count.min(32)) {
        let number = s.boxes.get(i).copied().unwrap_or(0);
        bytes.extend_from_slice(&number.to_be_bytes())?;
    }
    Ok(())
}

fn bytes_of(alloc: Global, plan: &Plan) -> Result<Vec<u8>, AllocError> {
    let types = plan.types;
    let mut bytes = Vec::new(alloc);
    put_tag(&mut bytes, 1, 1)?;
    bytes.push(1)?;
    put_tag(&mut bytes, 2, 20)?;
    put_fours(
        &mut bytes,
        &[
            types.existing,
            types.bound,
            types.reversible,
            types.source_choice,
            types.target_choice,
        ],
    )?;
    put_tag(&mut bytes, 3, 128)?;
    put_fours(&mut bytes, &plan.source_order)?;
    put_tag(&mut bytes, 4, 128)?;
    put_fours(&mut bytes, &plan.target_order)?;
    for s in plan.subscribers.iter().take(usize::from(plan.count)) {
        put_subscriber(&mut bytes, s)?;
    }
    put_tag(&mut bytes, 127, 0)?;
    Ok(bytes)
}

impl File {
    // What finds no room is left out.
    pub fn of(alloc: Global, plan: &Plan) -> Result<File, AllocError> {
        let mut room = bytes_of(alloc, plan)?;
        room.truncate(ROOM);
        let len = room.len();
        room.resize(ROOM, UNWRITTEN)?;
        Ok(File { room, len })
    }

    // The first bytes of the file; all of them where there are no more.
    pub fn first(&self, n: usize) -> &[u8] {
        self.room.get(..n.min(self.len)).unwrap_or(&self.room)
    }

    // The byte at a place; 0 past the last of the room.
    pub fn byte(&self, at: usize) -> u8 {
        self.room.get(at).copied().unwrap_or(0)
    }

    // A byte past the end makes the file longer.
    fn put(&mut self, at: usize, byte: u8) {
        if let Some(place) = self.room.get_mut(at) {
            *place = byte;
            self.len = self.len.max(at.saturating_add(1));
        }
    }

    // `byte P is B B ..` and `first N`, in the order of the line.
    pub fn edit(&mut self, words: &[Word]) {
        let mut slot = Slot::Nowhere;
        let mut at = 0usize;
        for word in words {
            match (slot, word) {
                (_, Word::Name(name)) => slot = slot_of(name).unwrap_or(Slot::Nowhere),
                (Slot::At, Word::Number(n)) => at = *n as usize,
                (Slot::Byte, Word::Number(n)) => {
                    self.put(at, (n % 256) as u8);
                    at = at.wrapping_add(1);
                }
                (Slot::First, Word::Number(n)) => self.len = self.len.min(*n as usize),
                _ => {}
            }
        }
    }
}

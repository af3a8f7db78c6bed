// A command on a call record in lent bytes, for programs in other languages (01 'Calls'). It is decided by few bytes of the record: the two counts, the acting end's state, the head of the queue towards it, one channel. What is accepted
// changes the record where it stands, and only the bytes that it must; a refusal changes none. Commands, sides, states and signals are the numbers that C and the bytes have, and a part answers one word: enums and structs would go through memory at each call.
// So row, place and side go as they are too, and each part requires that the 614 bytes are there: a struct of them would be handed through memory. A command's five numbers come as C gives them.
#![tactic(auto)]

ghost use Rattle.std.specs.Prelude.{◌≡◌, not, cond, [], ◌∷◌, ◌+◌, ◌*◌, ◌≤◌, ◌<◌, eqb, length, get_or, set, take, drop};
ghost use Rattle.std.proofs.lemmas.List.Edits.{sets};
ghost use Rattle.ends.specs.declared.State.TheVariants.{Unlinking};
ghost use Rattle.ends.specs.declared.Signal.TheVariants.{Upack, Ordinary, Teardown, Downack};
ghost use Rattle.call.specs.declared.Command.TheVariants.{Accept, Send, Teardown as Hang-up, Deliver};
ghost use Rattle.ends.specs.Ends.{is_ordinary, kind_of, no_channel_signal, opens, next_with, answers};
ghost use Rattle.signalbytes.specs.Numbers.{state_said, state_number, status_said, status_number, status_code, signal_said};
ghost use Rattle.call.specs.Protocol.{other, state_of, queue_to, slot};
ghost use Rattle.recordbytes.specs.Records.{state_place, queue_place, channel_place, call_at};
ghost use Rattle.recordbytes.specs.Steps.{popped_at, step_at, command_at};
ghost use Rattle.recordbytes.specs.Numbers.{side_of, command_of, commanded_said, in_word};
ghost use Rattle.recordbytes.specs.Parts.{Says, Due, handed_over, put_at, acted_at, three_sent_at, next_in, fits_in};

// An answer: number 0, and 1 and the signal where one was handed over; or the refusal's number, and zeros.
#[repr(C)]
#[derive(Clone, Copy)]
pub struct Commanded {
    pub number: u64,
    pub delivered: u64,
    pub signal: u64,
    pub tunnel: u64,
    pub code: u64,
}

// ---- the parts of a record

fn state_place(side: u8) -> usize
    ensures { (result ≡ state_place (side_of side)) × (result < 2) }
{
    if side == 0 { 0 } else { 1 }
}

// Where the queue towards a side's end begins.
fn queue_to(side: u8) -> usize
    ensures { (result ≡ queue_place (side_of side)) × (result ≤ 53) }
{
    if side == 0 { 4 } else { 53 }
}

// Where the queue from a side's end begins.
fn queue_from(side: u8) -> usize
    ensures { (result ≡ queue_place (other (side_of side))) × (result ≤ 53) }
{
    if side == 0 { 53 } else { 4 }
}

// Where a side's channels begin.
fn channel_place(side: u8) -> usize
    ensures { (result ≡ channel_place (side_of side)) × (result ≤ 358) }
{
    if side == 0 { 102 } else { 358 }
}

// Where the channel of a tunnel stands.
fn tunnel_place(side: u8, tunnel: u8) -> usize
    ensures { (result ≡ channel_place (side_of side) + tunnel) × (result ≤ 613) × (tunnel < 256) }
{
    channel_place(side) + usize::from(tunnel)
}

// ---- signals by their numbers

// Whether a signal is on the list of ordinary signals.
fn is_ordinary(signal: u8, tunnel: u8, code: u8) -> bool
    ensures { result ≡ is_ordinary tunnel (status_said signal code) }
{
    match signal {
        3 | 4 | 5 | 6 => tunnel == 0,
        7 => 0 < tunnel && code < 12,
        8 | 11 | 12 | 13 | 14 | 15 | 16 => true,
        _ => false,
    }
}

// What a signal is to a channel: open to closeack are 0 to 5, a status of a channel is 6, one of tunnel 0 is 7.
fn channel_kind(signal: u8) -> u8
    ensures { result ≡ kind_of (status_said signal 0) }
{
    match signal {
        11 => 0,
        12 => 1,
        13 => 2,
        14 => 3,
        15 => 4,
        16 => 5,
        3 | 4 | 5 | 6 => 7,
        _ => 6,
    }
}

// Only dtmf and special have a code.
fn kept_code(signal: u8, code: u8) -> u8
    ensures { result ≡ cond (eqb signal 7) code (cond (eqb signal 8) code 0) }
{
    match signal {
        7 | 8 => code,
        _ => 0,
    }
}

// The caller opens odd tunnels, the callee even ones.
fn opens(side: u8, tunnel: u8) -> bool
    ensures { result ≡ opens (side_of side) tunnel }
{
    let odd = tunnel % 2 == 1;
    if side == 0 { odd } else { !odd }
}

// The next state of a signal's channel, as it is sent or taken; 9 where there is no step. Tunnel 0 has no channel.
fn next_channel(side: u8, sends: bool, tunnel: u8, signal: u8, channel: u8) -> u8
    ensures { result ≡ next_in (side_of side) sends tunnel signal channel }
{
    if tunnel == 0 {
        return 0;
    }
    channels::follows(opens(side, tunnel), sends, channel, channel_kind(signal))
}

// Whether a signal is fit for its channel, by the channel's next state. Tunnel 0 takes all but channel signals.
fn fits(tunnel: u8, signal: u8, next: u8) -> bool
    ensures { result ≡ fits_in tunnel signal next }
{
    if tunnel == 0 {
        return 5 < channel_kind(signal);
    }
    next != 9
}

// ---- a record changed where it stands

// A channel goes on. Tunnel 0 has none.
fn touch(row: &mut [u8], p: usize, tunnel: u8, next: u8)
    requires { p < length row.old }
    ensures { row.new ≡ cond (eqb tunnel 0) row.old (set row.old p next) }
{
    if tunnel == 0 {
        return;
    }
    row[p] = next;
}

// One signal more in the queue that begins at q.
fn push(row: &mut [u8], q: usize, signal: u8, tunnel: u8, code: u8)
    requires { (q + 49 ≤ length row.old) × (get_or row.old q 0 < 16) }
    ensures { row.new ≡ put_at row.old q (signal ∷ tunnel ∷ code ∷ []) }
{
    let n = row[q];
    let at = q + 1 + 3 * usize::from(n);
    row[at] = signal;
    row[at + 1] = tunnel;
    row[at + 2] = code;
    row[q] = n + 1;
}

// The 15 later places of a queue moved down by one.
fn move_down(row: &mut [u8], at: usize)
    requires { at + 48 ≤ length row.old }
    ensures { row.new ≡ sets row.old at (take 45 (drop (at + 3) row.old)) }
{
    row.copy_within(at + 3..at + 48, at);
}

// The queue that begins at q without its head: the others one place down, and the last place blank, so that no signal that was handed over stays.
fn pop(row: &mut [u8], q: usize)
    requires { (q + 49 ≤ length row.old) × (0 < get_or row.old q 0) }
    ensures { row.new ≡ popped_at row.old q }
{
    let n = row[q];
    move_down(row, q + 1);
    row[q + 46] = 0;
    row[q + 47] = 0;
    row[q + 48] = 0;
    row[q] = n - 1;
}

// ---- answers

// A signal handed over, as a word: 0, 1, and the signal's three numbers, a byte each from the lowest on.
fn handed(signal: u8, tunnel: u8, code: u8) -> u64
    ensures { in_word result ≡ handed_over signal tunnel code }
{
    256 + 65536 * u64::from(signal) + 16777216 * u64::from(tunnel) + 4294967296 * u64::from(code)
}

// The numbers of a word.
pub fn answer_in(word: u64) -> Commanded
    ensures { result ≡ in_word word }
{
    Commanded {
        number: word % 256,
        delivered: word / 256 % 256,
        signal: word / 65536 % 256,
        tunnel: word / 16777216 % 256,
        code: word / 4294967296 % 256,
    }
}

// ---- what the ends do. A refusal is the word that is its number.

// A waiting callee answers: it is linked, and sends upack.
fn accept(row: &mut [u8], at: usize) -> u64
    requires { at + 614 ≤ length row.old }
    ensures { Says (acted_at row.old at Accept) result row.new }
{
    if row[at + 1] != 2 {
        return 12;
    }
    if 15 < row[at + 4] {
        return 17;
    }
    row[at + 1] = 3;
    push(row, at + 4, 2, 0, 0);
    0
}

// A waiting callee does not take the call: it sends upack, a status and teardown, all three or none, and is unlinking.
#[tactic(auto, using(crate::proofs::Acts::three_cases))]
fn three_sent(row: &mut [u8], at: usize, status: u8) -> u64
    requires { (at + 614 ≤ length row.old) × (status_number (status_said status 0) ≡ status) × (status_code (status_said status 0) ≡ 0) }
    ensures { Says (three_sent_at row.old at (answers (state_said (get_or row.old (at + 1) 0)) Unlinking) (status_said status 0)) result row.new }
{
    if row[at + 1] != 2 {
        return 12;
    }
    if 13 < row[at + 4] {
        return 17;
    }
    row[at + 1] = 4;
    push(row, at + 4, 2, 0, 0);
    push(row, at + 4, status, 0, 0);
    push(row, at + 4, 9, 0, 0);
    0
}

// A linked end sends teardown, and is unlinking.
fn teardown(row: &mut [u8], at: usize, side: u8) -> u64
    requires { at + 614 ≤ length row.old }
    ensures { Says (acted_at row.old at (Hang-up (side_of side))) result row.new }
{
    let n = state_place(side);
    if row[at + n] != 3 {
        return 12;
    }
    let q = at + queue_from(side);
    if 15 < row[q] {
        return 17;
    }
    row[at + n] = 4;
    push(row, q, 9, 0, 0);
    0
}

// Why a channel does not send it.
fn forbidden(signal: u8) -> u64
    ensures { result ≡ cond (eqb signal 11) 40 41 }
{
    if signal == 11 { 40 } else { 41 }
}

// A linked end sends an ordinary signal.
fn send(row: &mut [u8], at: usize, side: u8, signal: u8, tunnel: u8, code: u8) -> u64
    requires { at + 614 ≤ length row.old }
    ensures { Says (acted_at row.old at (Send (side_of side) tunnel (status_said signal code))) result row.new }
{
    let n = state_place(side);
    if row[at + n] != 3 {
        return 12;
    }
    if !is_ordinary(signal, tunnel, code) {
        return 15;
    }
    let p = at + tunnel_place(side, tunnel);
    let next = next_channel(side, true, tunnel, signal, row[p]);
    if !fits(tunnel, signal, next) {
        return forbidden(signal);
    }
    let q = at + queue_from(side);
    if 13 < row[q] {
        return 13;
    }
    touch(row, p, tunnel, next);
    push(row, q, signal, tunnel, kept_code(signal, code));
    0
}

// ---- deliveries, by the signal at the head of the queue

// A requesting end takes upack, and is linked.
fn deliver_upack(row: &mut [u8], at: usize, side: u8) -> u64
    requires { Due row.old at (side_of side) Upack }
    ensures { Says (acted_at row.old at (Deliver (side_of side))) result row.new }
{
    let n = state_place(side);
    if row[at + n] != 1 {
        return 17;
    }
    row[at + n] = 3;
    let q = at + queue_to(side);
    pop(row, q);
    handed(2, 0, 0)
}

// An unlinking end takes downack, and is idle.
fn deliver_downack(row: &mut [u8], at: usize, side: u8) -> u64
    requires { Due row.old at (side_of side) Downack }
    ensures { Says (acted_at row.old at (Deliver (side_of side))) result row.new }
{
    let n = state_place(side);
    if row[at + n] < 4 {
        return 17;
    }
    row[at + n] = 0;
    let q = at + queue_to(side);
    pop(row, q);
    handed(10, 0, 0)
}

// Where a teardown leads: a linked end is idle, an unlinking one stays. (Beside `stays` two lines; one with a parameter is no plainer.)
fn torn(state: u8) -> u8
    ensures { result ≡ cond (eqb state 3) 0 4 }
{
    if state == 3 { 0 } else { 4 }
}

// A linked or unlinking end takes teardown, and sends downack.
fn deliver_teardown(row: &mut [u8], at: usize, side: u8) -> u64
    requires { Due row.old at (side_of side) Teardown }
    ensures { Says (acted_at row.old at (Deliver (side_of side))) result row.new }
{
    let n = state_place(side);
    let state = row[at + n];
    if state < 3 {
        return 17;
    }
    let f = at + queue_from(side);
    if 15 < row[f] {
        return 17;
    }
    row[at + n] = torn(state);
    let q = at + queue_to(side);
    pop(row, q);
    push(row, f, 10, 0, 0);
    handed(9, 0, 0)
}

// The number of a state from linked on: a number past the last stands for the last. (Beside `torn`, as there.)
fn stays(state: u8) -> u8
    ensures { result ≡ cond (eqb state 3) 3 4 }
{
    if state == 3 { 3 } else { 4 }
}

// A linked or unlinking end takes an ordinary signal that is fit for its channel.
fn deliver_ordinary(row: &mut [u8], at: usize, side: u8) -> u64
    requires { Due row.old at (side_of side) (Ordinary (get_or row.old (at + queue_place (side_of side) + 2) 0) (status_said (get_or row.old (at + queue_place (side_of side) + 1) 0) (get_or row.old (at + queue_place (side_of side) + 3) 0))) }
    ensures { Says (acted_at row.old at (Deliver (side_of side))) result row.new }
{
    let n = state_place(side);
    let state = row[at + n];
    if state < 3 {
        return 17;
    }
    let q = at + queue_to(side);
    let signal = row[q + 1];
    let tunnel = row[q + 2];
    let code = row[q + 3];
    if !is_ordinary(signal, tunnel, code) {
        return 17;
    }
    let p = at + tunnel_place(side, tunnel);
    let next = next_channel(side, false, tunnel, signal, row[p]);
    if !fits(tunnel, signal, next) {
        return 17;
    }
    row[at + n] = stays(state);
    touch(row, p, tunnel, next);
    pop(row, q);
    handed(signal, tunnel, kept_code(signal, code))
}

// The head of the queue towards a side's end is handed over.
fn deliver(row: &mut [u8], at: usize, side: u8) -> u64
    requires { (at + 614 ≤ length row.old) × ((queue_to (other (side_of side)) (call_at row.old at)).count ≤ 16) }
    ensures { Says (acted_at row.old at (Deliver (side_of side))) result row.new }
{
    let q = at + queue_to(side);
    if row[q] == 0 {
        return 14;
    }
    match row[q + 1] {
        9 => deliver_teardown(row, at, side),
        10 => deliver_downack(row, at, side),
        0 | 2 => deliver_upack(row, at, side),
        _ => deliver_ordinary(row, at, side),
    }
}

// ---- a step

// The signal of a command that sends: an unknown command sends none that may be sent.
fn sent_by(kind: u8, signal: u8) -> u8
    ensures { result ≡ cond (eqb kind 3) signal 1 }
{
    if kind == 3 { signal } else { 1 }
}

// A command for a record whose counts are at most 16.
fn act(row: &mut [u8], at: usize, kind: u8, side: u8, signal: u8, tunnel: u8, code: u8) -> u64
    requires { (at + 614 ≤ length row.old) × ((queue_to (other (side_of side)) (call_at row.old at)).count ≤ 16) }
    ensures { Says (acted_at row.old at (command_of kind side signal tunnel code)) result row.new }
{
    match kind {
        0 => accept(row, at),
        1 => three_sent(row, at, 5),
        2 => three_sent(row, at, 3),
        4 => teardown(row, at, side),
        5 => deliver(row, at, side),
        _ => send(row, at, side, sent_by(kind, signal), tunnel, code),
    }
}

// A command for a record whose bytes are there.
fn step_in(row: &mut [u8], at: usize, kind: u8, side: u8, signal: u8, tunnel: u8, code: u8) -> u64
    requires { at + 614 ≤ length row.old }
    ensures { Says (step_at row.old at (command_of kind side signal tunnel code)) result row.new }
{
    if 16 < row[at + 4] {
        return 17;
    }
    if 16 < row[at + 53] {
        return 17;
    }
    act(row, at, kind, side, signal, tunnel, code)
}

// A command for the record of the 614 bytes from a place on; 10 where there are fewer. The answer is a word of five bytes.
pub fn command_at(
    row: &mut [u8],
    at: usize,
    kind: u8,
    side: u8,
    signal: u8,
    tunnel: u8,
    code: u8,
) -> u64
    ensures { (in_word result ≡ commanded_said (command_at row.old at (command_of kind side signal tunnel code)).answer) × (result < 1099511627776)
        × (row.new ≡ (command_at row.old at (command_of kind side signal tunnel code)).bytes) }
{
    if row.len() < at {
        return 10;
    }
    if row.len() - at < 614 {
        return 10;
    }
    step_in(row, at, kind, side, signal, tunnel, code) % 1099511627776
}

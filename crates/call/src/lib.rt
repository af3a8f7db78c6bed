// The call by value (01 'Calls', manual 8; 02 'Ask 2', manual 9): two ends with their channels, two queues, and one step of a record for each command.
#![tactic(auto)]

ghost use Rattle.std.specs.Prelude.{◌≡◌, ◌+◌, ◌-◌, ◌<◌, ◌≤◌};
ghost use Rattle.call.specs.Protocol as spec;
ghost use Rattle.call.specs.Parts as parts;

pub use ends::{End, Side, Signal, State, Status};
use refusal::Refusal;

// The signals that wait for an end: the first `count` slots, the oldest at slot 0. In a call that was placed the slots past them are blank. (An array and a count, and no `Vec`: a record is fixed memory.)
#[derive(Clone, Copy, Debug, PartialEq, Eq)]
pub struct Queue {
    pub slots: [Signal; 16],
    pub count: u8,
}

#[derive(Clone, Copy, Debug, PartialEq, Eq)]
pub struct Call {
    pub caller: End,
    pub callee: End,
    pub to_caller: Queue,
    pub to_callee: Queue,
    pub use_number: u16,
}

// The callee's three answers; an ordinary signal from a side, by tunnel and status; teardown from a side; delivery to a side.
#[derive(Clone, Copy, Debug, PartialEq, Eq)]
pub enum Command {
    Accept,
    Busy,
    Unobtainable,
    Send(Side, u8, Status),
    Teardown(Side),
    Deliver(Side),
}

// The answer to a command, and the record after it. A delivery answers with the signal handed over; a refusal leaves the record as it was.
#[derive(Clone, Copy)]
pub struct Step {
    pub answer: Result<Option<Signal>, Refusal>,
    pub call: Call,
}

// The number of document 01 that an answer is; 0 for what is accepted.
pub fn number(answer: Result<Option<Signal>, Refusal>) -> u8
    ensures { result ≡ spec.number_in answer }
{
    match answer {
        Ok(_) => 0,
        Err(r) => r.number(),
    }
}

// What a slot holds that holds nothing.
const BLANK: Signal = Signal::Upack;

impl Queue {
    fn empty() -> Queue
        ensures { result ≡ spec.empty_queue }
    {
        Queue {
            slots: [BLANK; 16],
            count: 0,
        }
    }

    // With one signal more.
    fn push(mut self, x: Signal) -> Queue
        requires { self.count < 16 }
        ensures { result ≡ spec.push self x }
    {
        self.slots[usize::from(self.count)] = x;
        self.count += 1;
        self
    }

    fn head(self) -> Signal
        ensures { result ≡ spec.slot self.slots 0 }
    {
        self.slots[0]
    }

    // Without its head: the others one slot down, and the last slot blank, so that no signal that was handed over stays.
    #[tactic(auto, using(crate::proofs::Pop::moved_down))]
    fn pop(self) -> Queue
        requires { 0 < self.count }
        ensures { result ≡ spec.pop self }
    {
        let mut slots = self.slots;
        slots.copy_within(1..16, 0);
        slots[15] = BLANK;
        Queue {
            slots,
            count: self.count - 1,
        }
    }
}

impl Call {
    // A record in which nothing waits.
    fn quiet(caller: State, callee: State, use_number: u16) -> Call
        ensures { result ≡ spec.quiet caller callee use_number }
    {
        let empty = Queue::empty();
        let channels = [0u8; 256];
        Call {
            caller: End {
                state: caller,
                channels,
            },
            callee: End {
                state: callee,
                channels,
            },
            to_caller: empty,
            to_callee: empty,
            use_number,
        }
    }

    // A cleared record: ends idle, queues empty, use number 0.
    pub fn cleared() -> Call
        ensures { result ≡ spec.cleared }
    {
        Call::quiet(State::Idle, State::Idle, 0)
    }

    // Whether a call can be placed in the record: both ends are idle.
    pub fn is_free(self) -> bool
        ensures { result ≡ spec.is_free self }
    {
        self.caller.is_idle() && self.callee.is_idle()
    }

    fn end(self, s: Side) -> End
        ensures { result ≡ spec.end_of s self }
    {
        match s {
            Side::Caller => self.caller,
            Side::Callee => self.callee,
        }
    }

    // The queue towards a side's end.
    fn queue(self, s: Side) -> Queue
        ensures { result ≡ spec.queue_to s self }
    {
        match s {
            Side::Caller => self.to_caller,
            Side::Callee => self.to_callee,
        }
    }

    // The record with a side's end, the queue towards it and the queue from it replaced.
    fn moved(self, s: Side, end: End, to: Queue, from: Queue) -> Call
        ensures { result ≡ spec.moved s end to from self }
    {
        match s {
            Side::Caller => Call {
                caller: end,
                to_caller: to,
                to_callee: from,
                ..self
            },
            Side::Callee => Call {
                callee: end,
                to_caller: from,
                to_callee: to,
                ..self
            },
        }
    }

    fn refused(self, r: Refusal) -> Step
        ensures { result ≡ spec.refusing self r }
    {
        Step {
            answer: Err(r),
            call: self,
        }
    }

    // A call placed in the record, where it is free: all that it held before is gone, and the use number is one on, 0 after 65,535. 11 where it is not free.
    pub fn placed(self) -> Step
        ensures { result ≡ spec.placing_in self }
    {
        if !self.is_free() {
            return self.refused(Refusal::NoFreeRecord);
        }
        Step {
            answer: Ok(None),
            call: Call::quiet(
                State::Requesting,
                State::Waiting,
                self.use_number.wrapping_add(1),
            ),
        }
    }

    // A side's end goes to a state and sends one signal.
    fn one_sent(self, s: Side, state: State, x: Signal) -> Result<Call, Refusal>
        ensures { result ≡ parts.one_sent self s state x }
    {
        let from = self.queue(s.other());
        if 15 < from.count {
            return Err(Refusal::BrokenRecord);
        }
        let end = self.end(s).after(state, s, true, x);
        Ok(self.moved(s, end, self.queue(s), from.push(x)))
    }

    // The callee does not take the call: it sends upack, a status and teardown, all three or none.
    fn three_sent(self, status: Status) -> Result<Call, Refusal>
        ensures { result ≡ parts.three_sent self status }
    {
        let state = self.callee.answer(State::Unlinking)?;
        let from = self.to_caller;
        if 13 < from.count {
            return Err(Refusal::BrokenRecord);
        }
        let one = from.push(Signal::Upack);
        let two = one.push(Signal::Ordinary(0, status));
        let three = two.push(Signal::Teardown);
        Ok(self.moved(
            Side::Callee,
            self.callee.within(state),
            self.to_callee,
            three,
        ))
    }

    fn accept(self) -> Result<Call, Refusal>
        ensures { result ≡ parts.accepts self }
    {
        let state = self.callee.answer(State::Linked)?;
        self.one_sent(Side::Callee, state, Signal::Upack)
    }

    fn send(self, s: Side, tunnel: u8, status: Status) -> Result<Call, Refusal>
        ensures { result ≡ parts.sends self s tunnel status }
    {
        let waiting = self.queue(s.other()).count;
        let state = self.end(s).speak(s, tunnel, status, waiting)?;
        self.one_sent(s, state, Signal::Ordinary(tunnel, status))
    }

    fn teardown(self, s: Side) -> Result<Call, Refusal>
        ensures { result ≡ parts.tears_down self s }
    {
        let state = self.end(s).tear()?;
        self.one_sent(s, state, Signal::Teardown)
    }

    // A signal handed over to a side's end; a teardown is answered by a downack.
    fn replied(self, s: Side, end: End, x: Signal) -> Result<Call, Refusal>
        requires { 0 < (spec.queue_to s self).count }
        ensures { result ≡ parts.replied self s end x }
    {
        let left = self.queue(s).pop();
        let from = self.queue(s.other());
        match x {
            Signal::Teardown => {
                if 15 < from.count {
                    return Err(Refusal::BrokenRecord);
                }
                Ok(self.moved(s, end, left, from.push(Signal::Downack)))
            }
            _ => Ok(self.moved(s, end, left, from)),
        }
    }

    // The signal handed over, and the record after it.
    fn deliver(self, s: Side) -> Result<(Signal, Call), Refusal>
        ensures { result ≡ parts.delivers self s }
    {
        let to = self.queue(s);
        if to.count == 0 {
            return Err(Refusal::NothingWaiting);
        }
        let x = to.head();
        let end = self.end(s);
        let state = end.take(s, x)?;
        let next = self.replied(s, end.after(state, s, false, x), x)?;
        Ok((x, next))
    }

    // The step of a command that sends.
    fn sent(self, after: Result<Call, Refusal>) -> Step
        ensures { result ≡ parts.sent self after }
    {
        match after {
            Ok(call) => Step {
                answer: Ok(None),
                call,
            },
            Err(r) => self.refused(r),
        }
    }

    // The step of a delivery.
    fn handed(self, after: Result<(Signal, Call), Refusal>) -> Step
        ensures { result ≡ parts.handed self after }
    {
        match after {
            Ok((x, call)) => Step {
                answer: Ok(Some(x)),
                call,
            },
            Err(r) => self.refused(r),
        }
    }

    // A step of the record.
    #[tactic(auto, using(crate::proofs::Steps::step_cases))]
    pub fn step(self, k: Command) -> Step
        ensures { result ≡ spec.step self k }
    {
        if 16 < self.to_caller.count || 16 < self.to_callee.count {
            return self.refused(Refusal::BrokenRecord);
        }
        match k {
            Command::Accept => self.sent(self.accept()),
            Command::Busy => self.sent(self.three_sent(Status::Unavail)),
            Command::Unobtainable => self.sent(self.three_sent(Status::Unknown)),
            Command::Send(s, tunnel, status) => self.sent(self.send(s, tunnel, status)),
            Command::Teardown(s) => self.sent(self.teardown(s)),
            Command::Deliver(s) => self.handed(self.deliver(s)),
        }
    }
}

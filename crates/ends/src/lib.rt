// The ends of a call (01 'Calls', manual 8; 02 'Ask 2', manual 9): the states of an end and of its channels, the signals that it sends and takes, and what an end does with each.
#![tactic(auto)]

ghost use Rattle.std.specs.Prelude.{◌≡◌};
ghost use Rattle.ends.specs.Ends as spec;

use refusal::Refusal;

// What `channels::follows` answers where there is no step.
const NO_STATE: u8 = 9;

#[derive(Clone, Copy, Debug, PartialEq, Eq)]
pub enum Side {
    Caller,
    Callee,
}

#[derive(Clone, Copy, Debug, PartialEq, Eq)]
pub enum State {
    Idle,
    Requesting,
    Waiting,
    Linked,
    Unlinking,
}

// An end of a call, the caller's or the callee's. Its channels go by tunnel: 0 unused, 1 opening (the opener's) or opened, 2 oacked or oacking, 3 readying or readied, 4 closing, 5 closing2, 6 closing3, 7 closed, 8 end_chan. Tunnel 0 has a place, and no channel.
// A channel is a number and no enum: a record in bytes may hold any number there, and a step keeps it (`step_at` of recordbytes). From 9 on it is no state.
#[derive(Clone, Copy, Debug, PartialEq, Eq)]
pub struct End {
    pub state: State,
    pub channels: [u8; 256],
}

// What an ordinary signal says. A dtmf has one of twelve symbols: 0 to 9, 10 for * and 11 for #.
#[derive(Clone, Copy, Debug, PartialEq, Eq)]
pub enum Status {
    Unknown,
    Avail,
    Unavail,
    None,
    Dtmf(u8),
    Special(u8),
    Open,
    Oack,
    Onack,
    Ready,
    Close,
    Closeack,
}

// An ordinary signal has its tunnel and its status.
#[derive(Clone, Copy, Debug, PartialEq, Eq)]
pub enum Signal {
    Upack,
    Ordinary(u8, Status),
    Teardown,
    Downack,
}

impl Side {
    pub fn other(self) -> Side
        ensures { result ≡ spec.other self }
    {
        match self {
            Side::Caller => Side::Callee,
            Side::Callee => Side::Caller,
        }
    }

    // The caller opens odd tunnels, the callee even ones.
    fn opens(self, tunnel: u8) -> bool
        ensures { result ≡ spec.opens self tunnel }
    {
        let odd = tunnel % 2 == 1;
        match self {
            Side::Caller => odd,
            Side::Callee => !odd,
        }
    }
}

// Whether a signal is on the list of ordinary signals: one that is not can be neither sent (15) nor taken (17).
fn is_ordinary(tunnel: u8, status: Status) -> bool
    ensures { result ≡ spec.is_ordinary tunnel status }
{
    match status {
        Status::Unknown | Status::Avail | Status::Unavail | Status::None => tunnel == 0,
        Status::Dtmf(symbol) => 0 < tunnel && symbol < 12,
        _ => true,
    }
}

// What a signal is to a channel: open to closeack are 0 to 5, a status of a channel is 6. (A number: a column of the table of `channels`.)
fn kind(status: Status) -> u8
    ensures { result ≡ spec.kind_of status }
{
    match status {
        Status::Open => 0,
        Status::Oack => 1,
        Status::Onack => 2,
        Status::Ready => 3,
        Status::Close => 4,
        Status::Closeack => 5,
        Status::Dtmf(_) | Status::Special(_) => 6,
        _ => 7,
    }
}

// Why a channel does not send it.
fn forbidden(status: Status) -> Refusal
    ensures { result ≡ spec.forbidden status }
{
    match status {
        Status::Open => Refusal::TunnelTaken,
        _ => Refusal::ChannelForbids,
    }
}

// ---- an end by its state and one channel, where no end is made a value. What comes of a command is the end's next state. (The parts go one by one: an end has 256 channels, and a test reads one.)

// A waiting end answers, and goes to the state `next`.
pub fn answer_with(s: State, next: State) -> Result<State, Refusal>
    ensures { result ≡ spec.answers s next }
{
    match s {
        State::Waiting => Ok(next),
        _ => Err(Refusal::StateForbids),
    }
}

// A linked end sends teardown, and is unlinking.
pub fn tear_with(s: State) -> Result<State, Refusal>
    ensures { result ≡ spec.tears s }
{
    match s {
        State::Linked => Ok(State::Unlinking),
        _ => Err(Refusal::StateForbids),
    }
}

// The next state of a channel, as a signal is sent or taken, if there is a step. (`sends` as for `channels::follows`: a word of its table's four parts.)
pub fn next_with(side: Side, sends: bool, tunnel: u8, status: Status, channel: u8) -> Option<u8>
    ensures { result ≡ spec.step_with side sends tunnel status channel }
{
    match channels::follows(side.opens(tunnel), sends, channel, kind(status)) {
        NO_STATE => None,
        next => Some(next),
    }
}

// Whether an ordinary signal is fit for its channel, as it is sent or taken. Tunnel 0 has no channel, and takes all but channel signals.
fn fits_with(side: Side, sends: bool, tunnel: u8, status: Status, channel: u8) -> bool
    ensures { result ≡ spec.fits_with side sends tunnel status channel }
{
    if tunnel == 0 {
        5 < kind(status)
    } else {
        next_with(side, sends, tunnel, status, channel).is_some()
    }
}

// A linked end sends an ordinary signal, where `waiting` signals wait already.
pub fn speak_with(
    state: State,
    side: Side,
    tunnel: u8,
    status: Status,
    channel: u8,
    waiting: u8,
) -> Result<State, Refusal>
    ensures { result ≡ spec.speaks_with state side tunnel status channel waiting }
{
    if !matches!(state, State::Linked) {
        return Err(Refusal::StateForbids);
    }
    if !is_ordinary(tunnel, status) {
        return Err(Refusal::NotOrdinary);
    }
    if !fits_with(side, true, tunnel, status, channel) {
        return Err(forbidden(status));
    }
    if waiting < 14 {
        Ok(State::Linked)
    } else {
        Err(Refusal::TooManyWaiting)
    }
}

// An ordinary signal is handed to an end that may take one.
fn hear_with(
    state: State,
    side: Side,
    tunnel: u8,
    status: Status,
    channel: u8,
) -> Result<State, Refusal>
    ensures { result ≡ spec.hears_with state side tunnel status channel }
{
    if is_ordinary(tunnel, status) && fits_with(side, false, tunnel, status, channel) {
        Ok(state)
    } else {
        Err(Refusal::BrokenRecord)
    }
}

// A signal is handed to an end, whose channel in the signal's tunnel is given.
pub fn take_with(s: State, side: Side, x: Signal, channel: u8) -> Result<State, Refusal>
    ensures { result ≡ spec.takes_with s side x channel }
{
    match s {
        State::Requesting => match x {
            Signal::Upack => Ok(State::Linked),
            _ => Err(Refusal::BrokenRecord),
        },
        State::Linked => match x {
            Signal::Ordinary(tunnel, status) => hear_with(s, side, tunnel, status, channel),
            Signal::Teardown => Ok(State::Idle),
            _ => Err(Refusal::BrokenRecord),
        },
        State::Unlinking => match x {
            Signal::Ordinary(tunnel, status) => hear_with(s, side, tunnel, status, channel),
            Signal::Teardown => Ok(State::Unlinking),
            Signal::Downack => Ok(State::Idle),
            _ => Err(Refusal::BrokenRecord),
        },
        _ => Err(Refusal::BrokenRecord),
    }
}

// ---- an end by value

impl End {
    pub fn is_idle(self) -> bool
        ensures { result ≡ spec.is_idle self.state }
    {
        matches!(self.state, State::Idle)
    }

    // A waiting end answers, and goes to the state `next`.
    pub fn answer(self, next: State) -> Result<State, Refusal>
        ensures { result ≡ spec.answers self.state next }
    {
        answer_with(self.state, next)
    }

    fn channel(self, tunnel: u8) -> u8
        ensures { result ≡ spec.channel_at tunnel self.channels }
    {
        self.channels[usize::from(tunnel)]
    }

    // A linked end sends an ordinary signal, where `waiting` signals wait already.
    pub fn speak(
        self,
        side: Side,
        tunnel: u8,
        status: Status,
        waiting: u8,
    ) -> Result<State, Refusal>
        ensures { result ≡ spec.speaks side self tunnel status waiting }
    {
        speak_with(
            self.state,
            side,
            tunnel,
            status,
            self.channel(tunnel),
            waiting,
        )
    }

    // A linked end sends teardown, and is unlinking.
    pub fn tear(self) -> Result<State, Refusal>
        ensures { result ≡ spec.tears self.state }
    {
        tear_with(self.state)
    }

    // A signal is handed to the end.
    pub fn take(self, side: Side, x: Signal) -> Result<State, Refusal>
        ensures { result ≡ spec.takes side self x }
    {
        let channel = match x {
            Signal::Ordinary(tunnel, _) => self.channel(tunnel),
            _ => 0,
        };
        take_with(self.state, side, x, channel)
    }

    // The end in another state, with the same channels.
    pub fn within(self, state: State) -> End
        ensures { result ≡ spec.within state self.channels }
    {
        let channels = self.channels;
        End { state, channels }
    }

    // The end in another state, after a signal was sent or taken: `speak` or `take` says before whether it may be. (Where its channel has no step for it, 9 is stored, which is no state.)
    pub fn after(self, state: State, side: Side, sends: bool, x: Signal) -> End
        ensures { result ≡ spec.within state (spec.passed side sends x self.channels) }
    {
        let mut channels = self.channels;
        if let Signal::Ordinary(tunnel, status) = x {
            if tunnel != 0 {
                let next = next_with(side, sends, tunnel, status, self.channel(tunnel));
                channels[usize::from(tunnel)] = next.unwrap_or(NO_STATE);
            }
        }
        End { state, channels }
    }
}

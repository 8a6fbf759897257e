// What the steps have set so far.
ghost use Rattle.std.specs.Prelude.{◌≡◌};
ghost use Rattle.test_vectors.specs.RunState.{begun, judged, called};

// That there is room for the lengths (`Within`) is no invariant of the type: `judged` and the steps that set a length answer for any state.
#[derive(Clone, Copy)]
pub struct State {
    // lengths of the buffers. The buffers are fixed and stand in `Memory`; a length says how much of one is lent.
    pub store: usize,
    pub candidate: usize,
    pub destination: usize,
    // lengths of the lists
    pub signatures: usize,
    pub platforms: usize,
    pub calls: u32,
}

// Before the first step: no bytes, no processors, no call.
pub fn begun() -> State
    ensures { result ≡ begun }
{
    State {
        store: 0,
        candidate: 0,
        destination: 0,
        signatures: 0,
        platforms: 0,
        calls: 0,
    }
}

// The state after a step that changed nothing of it; none after one that breaks a bound.
pub fn judged(s: State, good: bool) -> Option<State>
    ensures { result ≡ judged s good }
{
    good.then_some(s)
}

// The state with a call more.
pub fn called(s: State) -> State
    ensures { result ≡ called s }
{
    State {
        calls: s.calls.wrapping_add(1),
        ..s
    }
}

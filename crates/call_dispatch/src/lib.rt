// The four D042h calls behind one function: it judges function and sub-function first, then hands on.
#![tactic(auto)]

ghost use Rattle.std.specs.Prelude.{◌≡◌};
ghost use Rattle.call_dispatch.specs.Call.{inputs_of, unknown, call_reply, call_store, call_destination};
ghost use Rattle.call_dispatch.specs.Demand1.{Demand1};
ghost use Rattle.call_dispatch.specs.SubFunctions.{sub_function_of, judged};

use call_answers::answer::{Answer, Reply};
use call_answers::refusal::Refusal;
use call_reads::{presence, read};

// The function of the update calls, and its sub-functions.
pub const FUNCTION: u32 = 0xD042;

pub const PRESENCE: u32 = 0;

pub const WRITE: u32 = 1;

pub const CONTROL: u32 = 2;

pub const READ: u32 = 3;

#[derive(Clone, Copy)]
pub enum SubFunction {
    Presence,
    Write,
    Control,
    Read,
}

impl TryFrom<u32> for SubFunction {
    type Error = Refusal;

    ghost try_from_gives = { λ n r. r ≡ sub_function_of n };

    fn try_from(number: u32) -> Result<Self, Refusal> {
        match number {
            PRESENCE => Ok(SubFunction::Presence),
            WRITE => Ok(SubFunction::Write),
            CONTROL => Ok(SubFunction::Control),
            READ => Ok(SubFunction::Read),
            _ => Err(Refusal::NotImplemented),
        }
    }
}

// Function and sub-function are judged first.
pub fn judged(function: u32, sub: u32) -> Result<SubFunction, Refusal>
    ensures { result ≡ judged function sub }
{
    if function != FUNCTION {
        return Err(Refusal::NotImplemented);
    }
    SubFunction::try_from(sub)
}

// An unknown function or sub-function does nothing else.
#[tactic(auto, unfolding(crate::specs::Call::unknown))]
fn not_implemented(loading: bool) -> Reply
    ensures { result ≡ unknown loading }
{
    Reply {
        answer: Answer::from(Refusal::NotImplemented),
        loading,
    }
}

// The answer, the loading state after the call, and each byte of store and destination, for every input whatever. A call ignores the
// arguments that aren't its own. They come one by one as from C: the IA-32 archive keeps no slice in a struct.
pub fn call(
    function: u32,
    sub: u32,
    task: u32,
    block: u32,
    loading: bool,
    store: &mut [u8],
    signatures: &[u32],
    platforms: &[u8],
    candidate: &[u8],
    back: u32,
    destination: &mut [u8],
) -> Reply
    ensures replies { result ≡ call_reply (inputs_of function sub task block loading store.old signatures.now
        platforms.now candidate.now back destination.old) }
    ensures stores { store.new ≡ call_store (inputs_of function sub task block loading store.old
        signatures.now
        platforms.now candidate.now back destination.old) }
    ensures copies { destination.new ≡ call_destination (inputs_of function sub task block loading store.old
        signatures.now platforms.now candidate.now back destination.old) }
    ensures demand { Demand1 (inputs_of function sub task block loading store.old signatures.now
        platforms.now candidate.now back destination.old) result store.new
        destination.new }
{
    match judged(function, sub) {
        Ok(SubFunction::Presence) => Reply {
            answer: presence::presence(store),
            loading,
        },
        Ok(SubFunction::Write) => Reply {
            answer: write_call::write(store, signatures, platforms, candidate, back),
            loading,
        },
        Ok(SubFunction::Control) => call_control::control(task, loading),
        Ok(SubFunction::Read) => Reply {
            answer: read::read(store, block, destination),
            loading,
        },
        Err(_) => not_implemented(loading),
    }
}

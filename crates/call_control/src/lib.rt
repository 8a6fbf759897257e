// Sub-function 2, control. It never looks at the store, and nothing turns loading off.
#![tactic(auto)]

ghost use Rattle.std.specs.Prelude.{◌≡◌};
ghost use Rattle.call_control.specs.Control.{accepted, control_reply};
ghost use Rattle.call_control.specs.Tasks.{task_of};

use call_answers::answer::{Answer, Control, Refused, Reply};
use call_answers::code;
use call_answers::refusal::Refusal;

// The status of a call that is refused for its task.
const BAD_TASK: u32 = 0xFF;

// What a control call does: turns loading on, or only tells its state.
#[derive(Clone, Copy)]
enum Task {
    Enable,
    Query,
}

impl TryFrom<u32> for Task {
    type Error = Refusal;

    ghost try_from_gives = { λ n r. r ≡ task_of n };

    fn try_from(number: u32) -> Result<Self, Refusal> {
        match number {
            1 => Ok(Task::Enable),
            2 => Ok(Task::Query),
            _ => Err(Refusal::NotImplemented),
        }
    }
}

// A task that is known, with the loading state that it leaves.
#[tactic(auto, unfolding(crate::specs::Control::accepted, crate::specs::Control::status_of))]
fn accepted(loading: bool) -> Reply
    ensures { result ≡ accepted loading }
{
    Reply {
        answer: Answer::Control(Control {
            ah: code::SUCCESS,
            al: code::NONE,
            carry: false,
            status: u32::from(loading),
        }),
        loading,
    }
}

#[tactic(auto, unfolding(crate::specs::Control::control_reply))]
pub fn control(task: u32, loading: bool) -> Reply
    ensures { result ≡ control_reply task loading }
{
    match Task::try_from(task) {
        Ok(Task::Enable) => accepted(true),
        Ok(Task::Query) => accepted(loading),
        Err(r) => Reply {
            answer: Answer::Refused(Refused {
                ah: r.ah(),
                al: r.al(),
                carry: true,
                status: BAD_TASK,
            }),
            loading,
        },
    }
}

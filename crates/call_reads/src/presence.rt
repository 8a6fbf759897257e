// Sub-function 0, presence.
ghost use Rattle.std.specs.Prelude.{◌≡◌};
ghost use Rattle.call_reads.specs.Presence.{presence_answer};

use call_answers::answer::{Answer, Presence};
use call_answers::code;
use call_answers::refusal::Refusal;

pub fn presence(store: &[u8]) -> Answer
    ensures { result ≡ presence_answer store.now }
{
    match store_directory::read_store(store) {
        Some(_) => Answer::Presence(Presence {
            ah: code::SUCCESS,
            al: code::NONE,
            carry: false,
            byte0: b'I',
            byte1: b'N',
            byte2: b'T',
            byte3: b'E',
            byte4: b'L',
            byte5: b'P',
            byte6: b'E',
            byte7: b'P',
            loader_version: 1,
            blocks: (store.len() / store_blocks::BLOCK) as u32,
        }),
        None => Answer::from(Refusal::BadStore),
    }
}
